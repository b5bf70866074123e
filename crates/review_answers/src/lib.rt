//! The answers of the review service, byte for byte.
#![tactic(auto)]

mod bodies;
mod code;
mod report_list;
mod whole;

pub use bodies::{error_body, file_body, head_body, judged_body, made_body};
pub use code::Code;
pub use report_list::reports_body;
pub use whole::answer;
