//! The names of a whole program: its files, what each node names, and which declarations a name stands for.
#![tactic(auto)]

mod places;
mod program;
mod slot_id;
mod telling;

pub use file_declarations::{Declaration, NodeRef, Told};
pub use program::Program;
pub use slot_id::SlotId;
pub use telling::program_told;
