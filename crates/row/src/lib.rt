// The bench's row of cards, and the slots of a walk over it.
#![tactic(auto)]

pub mod play;
pub mod row;

use card::Card;
use walk::{Send, Walk};

// What is in the air of a slot: how many cards answer, 2 for two or more, and the first one's DSFID and UID.
#[derive(Clone, Copy)]
pub struct Air {
    pub answers: u8,
    pub dsfid: u8,
    pub uid: u64,
}

// The walk with its list.
#[derive(Clone, Copy)]
pub struct Desk {
    pub walk: Walk,
    pub list: [u64; 64],
}

// A row and a desk after a slot, and what was in the air.
#[derive(Clone, Copy)]
pub struct Slotted {
    pub row: [Card; 100],
    pub desk: Desk,
    pub air: Air,
}

// What the walk sends in a slot, and the bytes of a request.
#[derive(Clone, Copy)]
struct Sent {
    send: Send,
    bytes: [u8; 14],
}
