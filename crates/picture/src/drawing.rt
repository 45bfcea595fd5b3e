// What is drawn, put together in a lent buffer.
ghost use Rattle.std.specs.Prelude.{◌≡◌, true, cond, [], ◌∷◌, ◌+◌, ◌≤◌, eqb, length, take};
ghost use Rattle.lent.specs.Puts.{Puts, PutsAt};
ghost use Rattle.walk.specs.Record.{is_accepted};
ghost use Rattle.picture.specs.Drawn.{sign, tail_shown, line_head, slot_drawn, twins_line, drawn};

use crate::line::{ends_line, round, sign};
use digits::{put_bytes, put_digits};
use row::play::{deal, fresh, goes_on, slot};
use row::{Air, Desk};
use walk::Walk;

// A tail: the digits that are free, and those of the mask.
fn put_tail(level: usize, mask: u64, out: &mut [u8], at: usize) -> usize
    requires level_bound { level ≤ 16 }
    requires at_in_bounds { at + 16 ≤ length out.old }
    ensures { PutsAt at (tail_shown level mask) out.old result out.new }
{
    let free = [b'-'; 16];
    let place = put_bytes(&free[..16 - level], out, at).unwrap();
    put_digits(mask, level, out, place).unwrap()
}

// What a line begins with, before slot 0.
fn put_head(walk: Walk, out: &mut [u8], at: usize) -> usize
    requires walk_value { is_accepted walk ≡ true }
    requires at_in_bounds { at + 23 ≤ length out.old }
    ensures { PutsAt at (cond (eqb walk.slot 0) (line_head walk) []) out.old result out.new }
{
    if walk.slot != 0 {
        return at;
    }
    let number = round(u64::from(walk.rounds));
    let place = put_bytes(&number, out, at).unwrap();
    let next = put_tail(usize::from(walk.level), walk.mask(), out, place);
    put_bytes(b" ", out, next).unwrap()
}

// A sign, and the line's end where it ends.
fn put_sign(sign: u8, ends: bool, out: &mut [u8], at: usize) -> usize
    requires { at + 2 ≤ length out.old }
    ensures { PutsAt at (sign ∷ cond ends (0x0a ∷ []) []) out.old result out.new }
{
    out[at] = sign;
    if ends {
        out[at + 1] = b'\n';
        return at + 2;
    }
    at + 1
}

// What a slot adds.
fn put_slot(walk: Walk, air: Air, next: Walk, out: &mut [u8], at: usize) -> usize
    requires walk_value { is_accepted walk ≡ true }
    requires at_in_bounds { at + 25 ≤ length out.old }
    ensures { PutsAt at (slot_drawn walk air next) out.old result out.new }
{
    let place = put_head(walk, out, at);
    put_sign(sign(air), ends_line(walk, next), out, place)
}

// The UID that two cards share, where the walk ended in twins.
fn put_twins(desk: Desk, out: &mut [u8], at: usize) -> usize
    requires walk_value { is_accepted desk.walk ≡ true }
    requires at_in_bounds { at + 23 ≤ length out.old }
    ensures { PutsAt at (twins_line desk) out.old result out.new }
{
    let walk = desk.walk;
    if walk.ending != 2 {
        return at;
    }
    let place = put_bytes(b"twins ", out, at).unwrap();
    let uid = (0xe0 << 56) + (u64::from(walk.slot) << 52) + walk.mask();
    let next = put_digits(uid, 16, out, place).unwrap();
    put_bytes(b"\n", out, next).unwrap()
}

// All that is drawn of a walk over the cards of the first n UIDs.
pub(crate) fn draw(uids: [u64; 100], n: usize, out: &mut [u8]) -> usize
    requires { 17943 ≤ length out.old }
    ensures { Puts (drawn (take n uids)) out.old result out.new }
{
    let mut at = put_bytes(b"round tail             0123456789ABCDEF\n", out, 0).unwrap();
    let mut row = deal(uids);
    let mut desk = fresh();
    let mut count = 0;
    while goes_on(desk, count) {
        let next = slot(row, n, desk);
        let after = next.desk;
        at = put_slot(desk.walk, next.air, after.walk, out, at);
        row = next.row;
        desk = after;
        count += 1;
    }
    put_twins(desk, out, at)
}
