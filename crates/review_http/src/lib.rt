//! A request of a review, read from a connection, answered over a keeper of jobs and work on files.
#![tactic(auto)]

mod refusals;
mod replies;
mod serve;

pub use job_replies::Answer;
pub use refusals::{code_of, refusal_reply};
pub use replies::reply;
pub use serve::{ServeFault, serve_one};
