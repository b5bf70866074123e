//! The words of the command line: which command they ask for.
#![tactic(auto)]

mod serve_words;
mod settings_option;
mod words;

pub use serve_words::{Serving, read_serving};
pub use words::{Command, WordsFault, read_words};
