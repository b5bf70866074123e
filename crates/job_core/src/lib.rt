//! The jobs of a review: what is stored of an upgrade, the machine that stores it, and its keepers.
#![tactic(auto)]

mod calm;
mod command;
mod fault;
mod job;
mod jobs;
mod keeper;
mod laws;
mod machine;
mod memory;
mod owner_jobs;
mod reads;
mod work;

pub use calm::CalmKeeper;
pub use command::{Command, Reply};
pub use fault::{KeepFault, WorkFault};
pub use io_ports::{Bytes, PathText, Report, Span, Weight};
pub use job::{Job, JobFile, JobHead, Judged, Made, Verdict};
pub use jobs::Jobs;
pub use keeper::Keeper;
pub use laws::{
    closing_again_changes_nothing, order_between_owners_is_unseen, owners_are_apart,
    repeated_keys_act_once,
};
pub use machine::MAX_JOBS;
pub use memory::MemoryKeeper;
pub use work::Work;
