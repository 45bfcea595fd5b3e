// The bytes that a card becomes.
ghost use Rattle.std.specs.Prelude.{◌≡◌, length};
ghost use Rattle.record.specs.Record.{mode_byte, fields_of, held_byte, state_bytes, record_of};

use card::{Card, Held, Mode, Sequence};

#[tactic(auto, unfolding(crate::specs::Record::mode_byte))]
fn mode_byte(mode: Mode) -> u8
    ensures { result ≡ mode_byte mode }
{
    match mode {
        Mode::Ready => 0,
        Mode::Quiet => 1,
        Mode::Selected => 2,
    }
}

// A slot sequence in the record's fields. With none, all four are 0.
#[derive(Clone, Copy)]
pub(crate) struct Fields {
    pub running: u8,
    pub slot: u8,
    pub length: u8,
    pub mask: u64,
}

#[tactic(auto, unfolding(crate::specs::Record::fields_of))]
fn fields_of(sequence: Sequence) -> Fields
    ensures { result ≡ fields_of sequence }
{
    match sequence {
        Sequence::Idle => Fields {
            running: 0,
            slot: 0,
            length: 0,
            mask: 0,
        },
        Sequence::Running(slot, length, mask) => Fields {
            running: 1,
            slot,
            length,
            mask,
        },
    }
}

#[tactic(auto, unfolding(crate::specs::Record::held_byte))]
fn held_byte(held: Held) -> u8
    ensures { result ≡ held_byte held }
{
    match held {
        Held::Free => 0,
        Held::Success => 1,
        Held::Code(code) => code,
    }
}

// Bytes 16 to 25, with the fields of the card's sequence.
fn state_bytes(card: Card, fields: Fields) -> [u8; 10]
    requires { fields ≡ fields_of card.sequence }
    ensures { result ≡ state_bytes card }
{
    [
        card.afi,
        card.dsfid,
        u8::from(card.afi_locked),
        u8::from(card.dsfid_locked),
        card.ic_reference,
        mode_byte(card.mode),
        fields.running,
        fields.slot,
        fields.length,
        held_byte(card.held),
    ]
}

// Puts a card back. Bytes 26 to 31 stay.
pub(crate) fn put_card(card: Card, bytes: &mut [u8])
    requires { length bytes.old ≡ 40 }
    ensures { bytes.new ≡ record_of card bytes.old }
{
    let fields = fields_of(card.sequence);
    frames::put_field(bytes, 0, 8, card.uid).unwrap();
    frames::put_field(bytes, 8, 4, u64::from(card.blocks)).unwrap();
    frames::put_field(bytes, 12, 4, u64::from(card.size)).unwrap();
    bytes[16..26].copy_from_slice(&state_bytes(card, fields));
    frames::put_field(bytes, 32, 8, fields.mask).unwrap();
}
