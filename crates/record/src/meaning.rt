// What the bytes mean: the card that a record of forty bytes holds.
ghost use Rattle.std.specs.Prelude.{◌≡◌, [], ◌+◌, ◌≤◌, length};
ghost use Rattle.frames.specs.Field.{field_at};
ghost use Rattle.record.specs.Record.{mode_of, sequence_of, held_of, card_of};

use card::{Card, Held, Mode, Sequence};

// Four bytes at a place, as the record's numbers are read: by `frames::field`, which looks at each byte by itself, an event took up to twice as long.
fn four(bytes: &[u8], at: usize) -> u32
    requires { at + 4 ≤ length bytes.now }
    ensures { result ≡ field_at bytes.now at 4 }
{
    frames::join(bytes[at], bytes[at + 1], bytes[at + 2], bytes[at + 3])
}

fn eight(bytes: &[u8], at: usize) -> u64
    requires { at + 8 ≤ length bytes.now }
    ensures { result ≡ field_at bytes.now at 8 }
{
    let low = four(bytes, at);
    let high = four(bytes, at + 4);
    u64::from(low) + 4294967296 * u64::from(high)
}

#[tactic(auto, unfolding(crate::specs::Record::mode_of))]
fn mode_of(b: u8) -> Mode
    ensures { result ≡ mode_of b }
{
    match b {
        0 => Mode::Ready,
        1 => Mode::Quiet,
        _ => Mode::Selected,
    }
}

#[tactic(auto, unfolding(crate::specs::Record::sequence_of))]
fn sequence_of(b: u8, slot: u8, n: u8, mask: u64) -> Sequence
    ensures { result ≡ sequence_of b slot n mask }
{
    match b {
        0 => Sequence::Idle,
        _ => Sequence::Running(slot, n, mask),
    }
}

#[tactic(auto, unfolding(crate::specs::Record::held_of))]
fn held_of(b: u8) -> Held
    ensures { result ≡ held_of b }
{
    match b {
        0 => Held::Free,
        1 => Held::Success,
        code => Held::Code(code),
    }
}

// The card that the bytes mean.
pub(crate) fn card_of(bytes: &[u8]) -> Card
    requires { length bytes.now ≡ 40 }
    ensures { result ≡ card_of bytes.now }
{
    Card {
        blocks: four(bytes, 8),
        size: four(bytes, 12),
        uid: eight(bytes, 0),
        afi: bytes[16],
        dsfid: bytes[17],
        afi_locked: 0 < bytes[18],
        dsfid_locked: 0 < bytes[19],
        ic_reference: bytes[20],
        mode: mode_of(bytes[21]),
        sequence: sequence_of(bytes[22], bytes[23], bytes[24], eight(bytes, 32)),
        held: held_of(bytes[25]),
    }
}

// No bytes: 0 everywhere.
pub(crate) fn no_card() -> Card
    ensures { result ≡ card_of [] }
{
    Card {
        blocks: 0,
        size: 0,
        uid: 0,
        afi: 0,
        dsfid: 0,
        afi_locked: false,
        dsfid_locked: false,
        ic_reference: 0,
        mode: Mode::Ready,
        sequence: Sequence::Idle,
        held: Held::Free,
    }
}
