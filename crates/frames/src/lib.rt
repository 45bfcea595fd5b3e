// What frames are made of: flags, fields of several bytes, and the check that seals them.
#![tactic(auto)]

ghost use Rattle.std.specs.Prelude.{◌≡◌, [], ◌∷◌, ◌+◌, ◌<◌, ◌≤◌, length, get_or, MatchResult};
ghost use Rattle.frames.specs.Flags.{flags_of};
ghost use Rattle.lent.specs.Lent.{placed};
ghost use Rattle.frames.specs.Field.{field_of, field_at, field_bytes, PutsField};
ghost use Rattle.frames.specs.Frame.{Seals, is_sound};
ghost use Rattle.refusals.specs.Number.{number_back};
ghost use Rattle.refusals.specs.declared.Refusal.TheVariants.{Room};

use refusals::Refusal;

// The shortest and the longest frame, in bytes.
pub const SHORTEST: usize = 4;

pub const LONGEST: usize = 64;

// The shortest and the longest answer, in bytes.
pub const SHORTEST_ANSWER: usize = 3;

pub const LONGEST_ANSWER: usize = 8451;

// The eight flags of a frame's first byte, b1 the lowest.
#[derive(Clone, Copy)]
pub struct Flags {
    pub b1: bool,
    pub b2: bool,
    pub b3: bool,
    pub b4: bool,
    pub b5: bool,
    pub b6: bool,
    pub b7: bool,
    pub b8: bool,
}

impl Flags {
    pub fn of(b: u8) -> Self
        ensures { result ≡ flags_of b }
    {
        Flags {
            b1: b & 0x01 != 0,
            b2: b & 0x02 != 0,
            b3: b & 0x04 != 0,
            b4: b & 0x08 != 0,
            b5: b & 0x10 != 0,
            b6: b & 0x20 != 0,
            b7: b & 0x40 != 0,
            b8: b & 0x80 != 0,
        }
    }
}

// The byte at a place, or 0 past the end.
pub fn byte_at(frame: &[u8], at: usize) -> u8
    ensures { result ≡ get_or frame.now at 0 }
{
    frame.get(at).copied().unwrap_or(0)
}

// The number in four bytes, the lowest first.
pub fn join(b0: u8, b1: u8, b2: u8, b3: u8) -> u32
    ensures { result ≡ field_of (b0 ∷ b1 ∷ b2 ∷ b3 ∷ []) }
{
    u32::from_le_bytes([b0, b1, b2, b3])
}

// The number in a field of so many bytes, eight at the most, at a place of a frame.
pub fn field(frame: &[u8], at: usize, count: usize) -> u64
    ensures { result ≡ field_at frame.now at count }
{
    let rest = &frame[at.min(frame.len())..];
    let bytes = rest[..count.min(8).min(rest.len())].iter();
    bytes.rfold(0, |upper, byte| (upper << 8) | u64::from(*byte))
}

// Stores the low bytes of a value, the lowest first, as many as a field has.
fn fill(field: &mut [u8], value: u64)
    ensures { field.new ≡ field_bytes (length field.old) value }
{
    let mut left = value;
    for slot in field {
        *slot = (left % 256) as u8;
        left /= 256;
    }
}

// The place after so many bytes at a place, where a buffer of this length has room for them.
fn place_after(room: usize, at: usize, count: usize) -> Result<usize, Refusal>
    ensures { MatchResult result (λ end. (end ≡ at + count) × (end ≤ room)) (λ refusal. (refusal ≡ Room) × (room < at + count)) }
{
    match at.checked_add(count) {
        Some(end) if end <= room => Ok(end),
        _ => Err(Refusal::Room),
    }
}

// Puts a field of so many bytes at a place of a buffer, and returns the place after it.
pub fn put_field(buffer: &mut [u8], at: usize, count: usize, value: u64) -> Result<usize, Refusal>
    ensures { PutsField buffer.old at count value (number_back result) buffer.new }
{
    let end = place_after(buffer.len(), at, count)?;
    fill(&mut buffer[at..end], value);
    Ok(end)
}

// Appends the check to the first n bytes of a buffer, and returns the length with it.
pub fn seal(buffer: &mut [u8], n: usize) -> Result<usize, Refusal>
    ensures { Seals buffer.old n (number_back result) buffer.new }
{
    let end = place_after(buffer.len(), n, 2)?;
    let x = crc::check(&buffer[..n]);
    buffer[n..end].copy_from_slice(&x.to_le_bytes());
    Ok(end)
}

// Whether a frame has 4 to 64 bytes and the right check.
pub fn is_sound(frame: &[u8]) -> bool
    ensures { result ≡ is_sound frame.now }
{
    (SHORTEST..=LONGEST).contains(&frame.len()) && crc::is_sealed(frame)
}
