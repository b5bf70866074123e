//! Bodies of requests to a review: the files of a new job, and a verdict with its note.
#![tactic(auto)]

mod json;
mod judgement;
mod upload;

pub use io_ports::PathText;
pub use job_core::Verdict;
pub use judgement::{Judgement, read_judgement};
pub use upload::{Upload, read_upload};
