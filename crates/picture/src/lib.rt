// The walk over the bench's cards as a person would draw it, and then what the bench prints.
#![tactic(auto)]

mod drawing;
mod line;
pub mod picture;
