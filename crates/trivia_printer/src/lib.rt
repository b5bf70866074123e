//! Trees written back as bytes: the lead and the text of each token, in order, so that no byte is lost.
#![tactic(auto)]

mod into;
mod law;
mod whole;

pub use into::{print_into, print_len};
pub use law::tokens_are_printed;
pub use whole::print;
