//! Uploaded files in the order of their paths, or that a path is none or stands twice.
#![tactic(auto)]

mod order;
mod paths;

pub use io_ports::PathText;
pub use order::in_path_order;
