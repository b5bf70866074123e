//! The entries of a program, and the names that one run would declare twice.
#![tactic(auto)]

mod asking;
mod clash;
mod completing;
mod declaring;
mod entries;
mod entries_fault;
mod includes;
mod keys;
mod later;
mod marks;
mod meeting;
mod running;
mod twice;

pub use asking::entry_files;
pub use clash::first_clash;
pub use entries::Entries;
pub use entries_fault::EntriesFault;
pub use twice::Twice;
