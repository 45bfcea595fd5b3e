// The refusals 1 to 4 of a call, in their order.
ghost use Rattle.std.specs.Prelude.{◌≡◌, ◌&&◌, leb};
ghost use Rattle.refusals.specs.Number.{number_of};
ghost use Rattle.play.specs.Refusal.{lengths_fit, locks_fit, room_fits, refusal};

use card::Card;
use refusals::Refusal;

#[tactic(auto, unfolding(crate::specs::Refusal::lengths_fit))]
fn lengths_fit(card: Card, memory: usize, locks: usize) -> bool
    ensures { result ≡ lengths_fit card memory locks }
{
    let blocks = card.blocks as usize;
    let size = card.size as usize;
    memory == blocks * size && locks == blocks
}

// Whether the highest lock byte is 0 or 1. Looked for to the end, so that the compiler takes many bytes at a time.
fn locks_fit(locks: &[u8]) -> bool
    ensures { result ≡ locks_fit locks.now }
{
    let mut highest = 0u8;
    for lock in locks {
        highest = highest.max(*lock);
    }
    highest <= 1
}

#[tactic(auto, unfolding(crate::specs::Refusal::room_fits, crate::specs::Refusal::room_asked))]
fn room_fits(card: Card, room: usize) -> bool
    ensures { result ≡ room_fits card room }
{
    let blocks = card.blocks as usize;
    let size = card.size as usize;
    usize::max(32, 3 + blocks * (size + 1)) <= room
}

// Tests in the order of the numbers.
#[tactic(auto, unfolding(crate::specs::Refusal::refusal, refusals::specs::Number::number, refusals::specs::Number::number_of))]
pub(crate) fn accept(card: Card, memory: usize, locks: &[u8], room: usize) -> Result<(), Refusal>
    ensures { number_of result ≡ refusal card memory locks.now room }
{
    if !card.is_accepted() {
        return Err(Refusal::CardRecord);
    }
    if !lengths_fit(card, memory, locks.len()) {
        return Err(Refusal::Lengths);
    }
    if !locks_fit(locks) {
        return Err(Refusal::LockByte);
    }
    if !room_fits(card, room) {
        return Err(Refusal::AnswerRoom);
    }
    Ok(())
}
