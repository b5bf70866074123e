//! What the names of a program stand for: resolved once, and then read by number.
#![tactic(auto)]

mod all_files;
mod class_kinds;
mod file_names;
mod files;
mod found;
mod found_nodes;
mod index;
mod names;
mod names_fault;
mod node_uses;
mod ranges;
mod resolve;

pub use names::Names;
pub use names_fault::NamesFault;
pub use program_names::{NodeRef, Program, SlotId};
