//! Trees of whole files.
#![tactic(auto)]

mod end;
mod laws;
mod whole;

pub use laws::files_have_one_tree;
pub use php_exprs::ParseFault;
pub use whole::{bound, parse, parse_marks};
