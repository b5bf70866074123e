//! What the rewriting of a 7.4 file keeps of its shape: the rewritten file has the shape of the 8.3 grammar, and bounded depth.
#![tactic(auto)]

pub mod paired_laws;
mod shallow;
mod shape;

pub use shallow::rewritten_is_shallow;
pub use shape::rewritten_has_shape;
