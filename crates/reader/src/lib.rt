// The reader's half of the block commands: the bytes of a request, and what its answer says.
#![tactic(auto)]

mod answers;
mod made;
mod owners;

// What is asked of a tag; every value of every field has a meaning. Mode 0 speaks to every tag that is not Quiet, 1 to the one with the UID, all
// else to the Selected one. Option 0 is not set, all else is. Size is that of the tag's blocks. First is the block of 20 to 23 and 2C, n the blocks
// after it of 23 and 2C, and value the byte of 27 and 29; a command that has none of these does not look at them.
#[repr(C)]
#[derive(Clone, Copy)]
pub struct Request {
    pub uid: u64,
    pub size: u16,
    pub command: u8,
    pub mode: u8,
    pub option: u8,
    pub first: u8,
    pub n: u8,
    pub value: u8,
}

// What a tag says of itself. Flags are those of the information, and tell which of its fields were there: 0F, all.
#[repr(C)]
#[derive(Clone, Copy)]
pub struct Information {
    pub uid: u64,
    pub blocks: u16,
    pub size: u16,
    pub dsfid: u8,
    pub afi: u8,
    pub ic_reference: u8,
    pub flags: u8,
}

// What was read: an error's code; success with nothing more; so many bytes of blocks, with their lock bytes where Option asked for them; so many
// lock bytes; or what the tag says of itself.
#[derive(Clone, Copy)]
pub enum Reading {
    Error(u8),
    Done,
    Blocks(u32),
    Locks(u32),
    System(Information),
}
