// The walk from C: the record is lent by reference and changed where it stands. Each call hands it on by value, and stores the walk that comes back.
ghost use Rattle.std.specs.Prelude.{◌≡◌, []};
ghost use Rattle.lent.specs.Lent.{refused};
ghost use Rattle.refusals.specs.Number.{number, number_of};
ghost use Rattle.walk.specs.Record.{started};
ghost use Rattle.walk.specs.Hear.{hearing, walk_of};
ghost use Rattle.walk.specs.Ask.{asking};
ghost use Rattle.walk.specs.declared.Kind.TheVariants.{Silence, Clash, Bytes};
ghost use Rattle.board.specs.Walked.{length_of, HearsInPlace, AsksInPlace};

use refusals::Refusal;
use walk::{Kind, Send, Walk};

// Minus the number of a refusal.
pub(crate) fn minus(refusal: Refusal) -> i64
    ensures { result ≡ refused (number refusal) }
{
    -i64::from(refusal.number())
}

// The next walk where it stands, and 0; a refusal leaves the walk that stood there.
#[tactic(auto, unfolding(walk::specs::Hear::walk_of, refusals::specs::Number::number_of))]
pub(crate) fn step(walk: &mut Walk, next: Result<Walk, Refusal>) -> i64
    ensures after { walk.new ≡ walk_of walk.old next }
    ensures told { result ≡ refused (number_of next) }
{
    match next {
        Ok(next) => {
            *walk = next;
            0
        }
        Err(refusal) => minus(refusal),
    }
}

// A request's length, 1 for a slot mark, 0 for nothing.
fn length_of(send: Send) -> usize
    ensures { result ≡ length_of send }
{
    match send {
        Send::Nothing => 0,
        Send::Mark => 1,
        Send::Request(length) => length,
    }
}

fn ask(walk: Walk, room: &mut [u8]) -> i64
    ensures { AsksInPlace (asking walk room.old) result room.new }
{
    match walk.ask(room) {
        Ok(asked) => length_of(asked.send) as i64,
        Err(refused) => minus(refused),
    }
}

pub fn ek_walk_start(walk: &mut Walk, family: u16)
    ensures { walk.new ≡ started family }
{
    *walk = Walk::start(family);
}

pub fn ek_walk_hear_silence(walk: &mut Walk, list: &mut [u64]) -> i64
    ensures { HearsInPlace (hearing walk.old Silence [] list.old) result walk.new list.new }
{
    let next = walk.hear(Kind::Silence, &[], list);
    step(walk, next)
}

pub fn ek_walk_hear_clash(walk: &mut Walk, list: &mut [u64]) -> i64
    ensures { HearsInPlace (hearing walk.old Clash [] list.old) result walk.new list.new }
{
    let next = walk.hear(Kind::Clash, &[], list);
    step(walk, next)
}

pub fn ek_walk_hear_bytes(walk: &mut Walk, bytes: &[u8], list: &mut [u64]) -> i64
    ensures { HearsInPlace (hearing walk.old Bytes bytes.now list.old) result walk.new list.new }
{
    let next = walk.hear(Kind::Bytes, bytes, list);
    step(walk, next)
}

pub fn ek_walk_ask(walk: &Walk, room: &mut [u8]) -> i64
    ensures { AsksInPlace (asking walk.now room.old) result room.new }
{
    ask(*walk, room)
}
