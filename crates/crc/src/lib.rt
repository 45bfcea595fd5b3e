// The check of ISO/IEC 13239, a byte at a time by a table of 256 entries. Annex C of ISO/IEC 15693-3 works it out bit by bit: so does specs/Check.antt, the
// definition that the promises name. The entry at a place is what eight of the annex's steps make of a register that holds the place.
#![tactic(auto)]

ghost use Rattle.std.specs.Prelude.{◌≡◌, ◌+◌, ◌*◌};
ghost use Rattle.crc.specs.Check.{taken, check_of, is_sealed};

mod table;

use crate::table::entry;

const PRESET: u32 = 0xffff;

// A byte is put over the register's low byte, and its eight bits leave at once: the high byte moves down, and the entry of the low one is put over it.
// The register never has more than sixteen bits, and stands in a u32: in a u16 the check of ten bytes takes three times as long, that of 64 a third longer.
fn take(x: u32, b: u8) -> u32
    ensures { result ≡ taken x b }
{
    let y = x ^ u32::from(b);
    let low = u32::from(entry(256 + y % 256));
    (y >> 8) ^ low
}

// The check of the bytes.
pub fn check(bytes: &[u8]) -> u16
    ensures { result ≡ check_of bytes.now }
{
    let x = bytes.iter().fold(PRESET, |x, byte| take(x, *byte));
    (0xffff - x) as u16
}

// Whether the last two bytes of a message are the check of the rest, low byte first.
pub fn is_sealed(message: &[u8]) -> bool
    ensures { result ≡ is_sealed message.now }
{
    match message.split_last_chunk::<2>() {
        Some((rest, sent)) => u16::from_le_bytes(*sent) == check(rest),
        None => false,
    }
}
