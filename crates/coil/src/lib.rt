// A card's answers as subcarrier tracks, and back. A track packs eight units of 18.88 µs into a byte, the earliest in the top bit.
#![tactic(auto)]

pub mod coder;
pub mod decoder;
mod pulse;
