//! Reports, handed to sinks: one to each in turn, and at the end each is finished.
#![tactic(auto)]

mod sinks;
mod slot;

pub use sinks::{SinkStop, hand_out};
pub use slot::Slot;
