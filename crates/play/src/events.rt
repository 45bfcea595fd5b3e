// A frame, a slot mark, power off.
ghost use Rattle.std.specs.Prelude.{Ok, ◌+◌, ◌≤◌, length};
ghost use Rattle.play.specs.Steps.{DeedReady, Finishes};
ghost use Rattle.play.specs.Events.{carried_out, frame_event, mark_event, off_event, Leaves};

use crate::Served;
use crate::answer::{put_brief, put_reply};
use crate::effects::take_effect;
use crate::refusal::accept;
use card::{Card, Turn};
use commands::Deed;
use refusals::Refusal;

// The check put behind n bytes of an answer, and its length; nothing for silence.
fn finish(n: usize, answer: &mut [u8]) -> usize
    requires { n + 2 ≤ length answer.old }
    ensures { Finishes n answer.old result answer.new }
{
    if n == 0 {
        return 0;
    }
    frames::seal(answer, n).unwrap()
}

// A deed over memory and locks, and its answer.
fn carry_out(
    deed: Deed,
    frame: &[u8],
    memory: &mut [u8],
    locks: &mut [u8],
    answer: &mut [u8],
) -> Served
    requires { DeedReady frame.now deed (length memory.old) (length locks.old) (length answer.old) }
    ensures { Leaves deed.card (carried_out deed frame.now memory.old locks.old answer.old) (Ok result) memory.new locks.new answer.new }
{
    take_effect(deed.card, frame, deed.effect, memory, locks);
    let n = put_reply(deed.card, memory, locks, deed.reply, answer);
    Served {
        card: deed.card,
        length: finish(n, answer),
    }
}

// A frame arrives.
pub fn frame(
    card: Card,
    frame: &[u8],
    memory: &mut [u8],
    locks: &mut [u8],
    answer: &mut [u8],
) -> Result<Served, Refusal>
    ensures { Leaves card (frame_event card frame.now memory.old locks.old answer.old) result memory.new locks.new answer.new }
{
    accept(card, memory.len(), locks, answer.len())?;
    let deed = commands::decide(card, locks, frame);
    Ok(carry_out(deed, frame, memory, locks, answer))
}

// A slot mark arrives.
pub fn mark(card: Card, memory: &[u8], locks: &[u8], answer: &mut [u8]) -> Result<Served, Refusal>
    ensures { Leaves card (mark_event card memory.now locks.now answer.old) result memory.now locks.now answer.new }
{
    accept(card, memory.len(), locks, answer.len())?;
    let Turn { card, reply } = card.hear_mark();
    let n = put_brief(card, reply, answer);
    let length = finish(n, answer);
    Ok(Served { card, length })
}

// Power goes off.
pub fn power_off(card: Card, memory: &[u8], locks: &[u8], answer: &[u8]) -> Result<Served, Refusal>
    ensures { Leaves card (off_event card memory.now locks.now answer.now) result memory.now locks.now answer.now }
{
    accept(card, memory.len(), locks, answer.len())?;
    let off = card.power_off();
    Ok(Served {
        card: off,
        length: 0,
    })
}
