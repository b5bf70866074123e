//! Names of PHP trees: where code stands, as far as names go.
#![tactic(auto)]

mod numbers;

pub use numbers::declarations_are_numbered;
