//! Cycles of classes that extend one another, and the numbers of classes.
#![tactic(auto)]

mod back;
mod beginnings;
mod circuit;
mod cycle;
mod known;
mod levels;
mod linked;
mod once;
mod others;
mod place;

pub use cycle::first_cycle;
pub use others::{class_number, other_classes};
