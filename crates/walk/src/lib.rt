// The reader's inventory walk: which request a round sends, what each slot makes of the walk, and how it ends.
#![tactic(auto)]

ghost use Rattle.std.specs.Prelude.{◌≡◌, true};
ghost use Rattle.walk.specs.Record.{is_accepted};

mod ask;
mod hear;
mod marks;
mod record;
mod shared;

// The levels of a walk: its marks have a number for each.
pub const LEVELS: usize = 14;
// The most rounds of a walk of so many levels.
pub const MOST_ROUNDS: u16 = 32 * (LEVELS as u16) - 31;
// The level whose clash is twins.
const LAST_LEVEL: u8 = (LEVELS as u8) - 1;

// The record that the board keeps, 44 bytes; every value of every field has a meaning. Marks has a number for each level, whose bit s says that
// slot s clashed and waits. The mask is two halves of 32 bits, since one number of 64 would make the record a multiple of eight bytes. Family 0 to
// 255 is an AFI, all else none. Ending 0 is running, 1 complete, 2 twins, 3 full, all else overrun.
#[repr(C)]
#[derive(Clone, Copy)]
pub struct Walk {
    pub marks: [u16; LEVELS],
    pub rounds: u16,
    pub family: u16,
    pub mask_low: u32,
    pub mask_high: u32,
    pub level: u8,
    pub slot: u8,
    pub count: u8,
    pub ending: u8,
}

// A record that number 10 does not refuse.
#[derive(Clone, Copy)]
pub(crate) struct AcceptedWalk {
    pub walk: Walk,
    ghost fits: { is_accepted walk ≡ true },
}

// What the radio says of a slot. Bytes are looked at for the third only.
#[derive(Clone, Copy)]
pub enum Kind {
    Silence,
    Clash,
    Bytes,
}

// What the walk makes of it: a clean reply with its UID, or a clash.
#[derive(Clone, Copy)]
pub enum Slot {
    Silent,
    Clashed,
    Clean(u64),
}

// How a walk ends, by the number of its record.
#[derive(Clone, Copy)]
pub(crate) enum Ending {
    Complete = 1,
    Twins = 2,
    Full = 3,
    Overrun = 4,
}

// What to send: a request of so many bytes, a slot mark, or nothing after an ending.
#[derive(Clone, Copy)]
pub enum Send {
    Nothing,
    Mark,
    Request(usize),
}

// What asking returns: the walk, which stays, and what to send.
#[derive(Clone, Copy)]
pub struct Asked {
    pub walk: Walk,
    pub send: Send,
}
