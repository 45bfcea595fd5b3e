// What is printed, put together in a lent buffer.
ghost use Rattle.std.specs.Prelude.{◌≡◌, true, ◌++◌, ◌+◌, ◌*◌, ◌<◌, ◌≤◌, length};
ghost use Rattle.lent.specs.Puts.{Puts, PutsAt};
ghost use Rattle.walk.specs.Record.{is_accepted};
ghost use Rattle.digits.specs.Decimal.{decimal};
ghost use Rattle.report.specs.Output.{word, uid_lines, verdict_line, heading, report, complaint};

use digits::{put_bytes, put_decimal, put_digits};
use row::Desk;
use walk::Walk;

// The word for an ending.
#[tactic(auto, unfolding(crate::specs::Output::word))]
fn word(ending: u8) -> &'static [u8]
    ensures { result.now ≡ word ending }
{
    match ending {
        1 => b"complete",
        2 => b"twins",
        3 => b"full",
        _ => b"overrun",
    }
}

// The UIDs, 16 hex digits each, a line each.
fn put_list(uids: &[u64], out: &mut [u8], at: usize) -> usize
    requires { at + 17 * length uids.now ≤ length out.old }
    ensures { PutsAt at (uid_lines uids.now) out.old result out.new }
{
    let mut next = at;
    for uid in uids {
        let end = put_digits(*uid, 16, out, next).unwrap();
        out[end] = b'\n';
        next = end + 1;
    }
    next
}

// A name and a number.
fn put_named(name: &[u8], n: u64, out: &mut [u8], at: usize) -> usize
    requires n_bound { n < 1000 }
    requires name_in_bounds { at + length name.now + 3 ≤ length out.old }
    ensures puts_at { PutsAt at (name.now ++ decimal n) out.old result out.new }
    ensures upper_bound { result ≤ at + length name.now + 3 }
{
    let next = put_bytes(name, out, at).unwrap();
    put_decimal(n, out, next).unwrap()
}

// The verdict.
fn put_verdict(ending: u8, out: &mut [u8]) -> usize
    requires { 16 ≤ length out.old }
    ensures puts_at { PutsAt 0 (verdict_line ending) out.old result out.new }
    ensures upper_bound { result ≤ 16 }
{
    let next = put_bytes(b"verdict ", out, 0).unwrap();
    put_bytes(word(ending), out, next).unwrap()
}

// What is printed before the list.
fn put_heading(walk: &Walk, out: &mut [u8]) -> usize
    requires walk_value { is_accepted walk.now ≡ true }
    requires in_bounds { 1200 ≤ length out.old }
    ensures puts_at { PutsAt 0 (heading walk.now) out.old result out.new }
    ensures upper_bound { result ≤ 37 }
{
    let at = put_verdict(walk.ending, out);
    let next = put_named(b"\nrounds ", u64::from(walk.rounds), out, at);
    put_named(b"\ncards ", u64::from(walk.count), out, next)
}

// What is printed of a walk that has ended.
pub(crate) fn put_report(desk: &Desk, out: &mut [u8]) -> usize
    requires walk_value { is_accepted desk.now.walk ≡ true }
    requires in_bounds { 1200 ≤ length out.old }
    ensures { Puts (report desk.now) out.old result out.new }
{
    let at = put_heading(&desk.walk, out);
    let next = put_bytes(b"\n", out, at).unwrap();
    put_list(&desk.list[..usize::from(desk.walk.count)], out, next)
}

// What is printed of a wrong line.
pub(crate) fn put_complaint(n: usize, out: &mut [u8]) -> usize
    requires n_bound { n < 1000 }
    requires in_bounds { 1200 ≤ length out.old }
    ensures { Puts (complaint n) out.old result out.new }
{
    let at = put_named(b"bad line ", n as u64, out, 0);
    put_bytes(b"\n", out, at).unwrap()
}
