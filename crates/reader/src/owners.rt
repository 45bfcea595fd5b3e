// The commands' own readers: each takes the part of a successful answer that stands after the flags and before the check.
ghost use Rattle.std.specs.Prelude.{◌≡◌, ◌+◌, ◌*◌, ◌≤◌, length, take, drop};
ghost use Rattle.lent.specs.Lent.{placed};
ghost use Rattle.reader.specs.Reading.{information_in};
ghost use Rattle.reader.specs.Steps.{Splits, Copies};

use crate::{Information, Reading};

// Copies n bytes from a place of one buffer to a place of another. A block and its lock byte are a few bytes: a call of copy_from_slice for each takes longer.
fn copy(from: &[u8], at: usize, n: usize, to: &mut [u8], place: usize)
    requires n_in_bounds { at + n ≤ length from.now }
    requires n_in_bounds_2 { place + n ≤ length to.old }
    ensures { to.new ≡ placed place (take n (drop at from.now)) to.old }
{
    for i in 0..n {
        to[place + i] = from[at + i];
    }
}

// Copies all bytes, one by one: std's copy_from_slice of bytes whose number varies is a call of C's memmove, and the library calls nothing.
pub(crate) fn copy_all(to: &mut [u8], from: &[u8])
    requires { length to.old ≡ length from.now }
    ensures len { length to.new ≡ length to.old }
    ensures after { to.new ≡ from.now }
{
    for i in 0..from.len() {
        to[i] = from[i];
    }
}

// 20 and 23: so many blocks, each after its lead bytes, taken apart.
pub(crate) fn blocks(
    part: &[u8],
    lead: usize,
    size: usize,
    count: usize,
    blocks: &mut [u8],
    locks: &mut [u8],
) -> Reading
    requires size_bound { count * size ≤ 8192 }
    requires size_in_bounds { count * (lead + size) ≤ length part.now }
    requires size_in_bounds_2 { count * size ≤ length blocks.old }
    requires lead_in_bounds { count * lead ≤ length locks.old }
    ensures { Splits part.now lead size count blocks.old locks.old result blocks.new locks.new }
{
    for i in 0..count {
        let at = i * (lead + size);
        copy(part, at, lead, locks, i * lead);
        copy(part, at + lead, size, blocks, i * size);
    }
    Reading::Blocks((count * size) as u32)
}

// 2C: the part is the lock bytes.
#[tactic(auto, unfolding(lent::specs::Lent::over))]
pub(crate) fn locks(part: &[u8], locks: &mut [u8]) -> Reading
    requires part_len_bound { length part.now ≤ 256 }
    requires part_in_bounds { length part.now ≤ length locks.old }
    ensures { Copies part.now locks.old result locks.new }
{
    let n = part.len();
    copy_all(&mut locks[..n], part);
    Reading::Locks(n as u32)
}

// 2B: what the tag says of itself.
#[tactic(auto, unfolding(crate::specs::Reading::information_in))]
pub(crate) fn information(part: &[u8]) -> Reading
    requires { 14 ≤ length part.now }
    ensures { result ≡ Reading.System (information_in part.now) }
{
    Reading::System(Information {
        uid: frames::field(part, 1, 8),
        blocks: u16::from(part[11]) + 1,
        size: u16::from(part[12]) + 1,
        dsfid: part[9],
        afi: part[10],
        ic_reference: part[13],
        flags: part[0],
    })
}

// 21, 22 and 25 to 2A: the part has no byte, and says that it was done.
pub(crate) fn nothing(part: &[u8]) -> Reading
    requires { length part.now ≡ 0 }
    ensures { result ≡ Reading.Done }
{
    Reading::Done
}
