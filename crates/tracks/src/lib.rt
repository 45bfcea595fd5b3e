// Frames as pulse tracks, in both codings, and back. A track packs eight intervals into a byte, the earliest in the top bit.
#![tactic(auto)]

pub mod coder;
pub mod decoder;
mod pulse;
