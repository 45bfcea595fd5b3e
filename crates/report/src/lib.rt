// The bench: what is printed of a walk over the cards of an input.
#![tactic(auto)]

pub mod bench;
mod output;
