//! Graphs of numbers: what is reached from a number.
#![tactic(auto)]

mod edging;
mod reach;

pub use edging::edges;
pub use reach::mark_from;
