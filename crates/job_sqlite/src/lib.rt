//! A keeper of jobs over a file that SQLite reads.
#![tactic(auto)]

mod calls;
mod jobs;
mod keeper;
mod kept_jobs;
mod numbers;
mod place;
mod refusal;
mod reports;
mod store;
mod tables;

pub use job_core::{KeepFault, Keeper};
pub use keeper::{KeeperAt, SqliteKeeper};
pub use place::{FilePlace, Place};
pub use refusal::Refusal;
