//! Slots by number: each slot of a program has one, in the order in which they are first seen.
#![tactic(auto)]

mod key;
mod numbering;
mod numbers;

pub use numbering::{listed_numbers, slot_numbers};
pub use numbers::SlotNumbers;
pub use program_names::SlotId;
