// What any frame makes of a card, of its memory and of its lock bytes: to whom a request goes, its faults in order, the table of commands.
#![tactic(auto)]

ghost use Rattle.std.specs.Prelude.{◌≡◌};
ghost use Rattle.commands.specs.Frame.{decided};

mod request;
mod verdict;

use crate::request::request;
use card::{Card, Reply, Turn};
use frames::{Flags, byte_at};

// What a frame does to memory and locks: nothing; into so many blocks from the first on the data at a place of the frame; a block locked.
#[derive(Clone, Copy)]
pub enum Effect {
    Leave,
    Write(u32, u32, u32),
    Lock(u32),
}

// What a frame makes of a record, of memory and locks, and what is answered.
#[derive(Clone, Copy)]
pub struct Deed {
    pub card: Card,
    pub effect: Effect,
    pub reply: Reply,
}

// What a frame makes of a card.
#[tactic(auto, using(crate::proofs::Rules::inventory_frame, crate::proofs::Rules::other_frame))]
pub fn decide(card: Card, locks: &[u8], frame: &[u8]) -> Deed
    ensures { result ≡ decided card locks.now frame.now }
{
    let f = Flags::of(byte_at(frame, 0));
    if f.b3 {
        let Turn { card, reply } = card.hear_inventory(frame);
        return Deed {
            card,
            effect: Effect::Leave,
            reply,
        };
    }
    let card = card.cleared();
    request(&card, locks, f, frame).carry(card)
}
