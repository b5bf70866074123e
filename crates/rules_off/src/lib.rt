//! Rules on syntax that are off, and what is written without them.
#![tactic(auto)]

mod laws;

pub use laws::rules_off;
