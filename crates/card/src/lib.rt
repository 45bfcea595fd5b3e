// The card's record and what needs no memory: what an inventory request, a slot mark and power off make of a card.
#![tactic(auto)]

ghost use Rattle.std.specs.Prelude.{◌≡◌};
ghost use Rattle.card.specs.Inventory.{still};

mod frame;
mod inventory;
mod mark;
mod record;

// Ready answers, Quiet is silent unless addressed, Selected answers to Select.
#[derive(Clone, Copy)]
pub enum Mode {
    Ready,
    Quiet,
    Selected,
}

// A slot sequence: its slot, the length of its mask in bits, and the mask.
#[derive(Clone, Copy)]
pub enum Sequence {
    Idle,
    Running(u8, u8, u64),
}

// An answer that waits for a slot mark.
#[derive(Clone, Copy)]
pub enum Held {
    Free,
    Success,
    Code(u8),
}

#[derive(Clone, Copy)]
pub struct Card {
    pub blocks: u32,
    pub size: u32,
    pub uid: u64,
    pub afi: u8,
    pub dsfid: u8,
    pub afi_locked: bool,
    pub dsfid_locked: bool,
    pub ic_reference: u8,
    pub mode: Mode,
    pub sequence: Sequence,
    pub held: Held,
}

// What a card answers. Blocks and Status hold the first block and how many; Blocks also whether each comes with its lock byte.
#[derive(Clone, Copy)]
pub enum Reply {
    Silence,
    Error(u8),
    Done,
    Present,
    Blocks(u32, u32, bool),
    Status(u32, u32),
    Information,
}

// What a frame or a mark makes of a record, and what is answered.
#[derive(Clone, Copy)]
pub struct Turn {
    pub card: Card,
    pub reply: Reply,
}

impl Turn {
    // No answer.
    fn still(card: Card) -> Turn
        ensures { result ≡ still card }
    {
        Turn {
            card,
            reply: Reply::Silence,
        }
    }
}
