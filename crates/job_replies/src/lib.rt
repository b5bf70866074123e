//! What a request of a review is answered with, over any keeper of jobs and any work on files.
#![tactic(auto)]

mod add;
mod answer;
mod change;
mod received;
mod show;

pub use add::add_reply;
pub use answer::Answer;
pub use change::{close_reply, judge_reply};
pub use show::{file_reply, head_reply, reports_reply};
