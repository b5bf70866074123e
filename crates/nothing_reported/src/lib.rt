//! A file in which the rules on syntax report nothing that stops compiling.
#![tactic(auto)]

mod laws;

pub use laws::nothing_reported;
