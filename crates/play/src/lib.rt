// The three events of a card over its memory, its lock bytes and the room for its answer.
#![tactic(auto)]

mod answer;
mod effects;
pub mod events;
mod refusal;

use card::Card;

// What an event that is served returns: the next record, and the answer's length, 0 for silence.
#[derive(Clone, Copy)]
pub struct Served {
    pub card: Card,
    pub length: usize,
}
