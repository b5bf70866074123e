//! Reading trees by the tables of the grammar.
#![tactic(auto)]

mod build;
mod engine;
mod expr;
mod fault;
mod read;
mod statements;

pub use build::{Closed, Reach};
pub use expr::{ExprFault, parse_expr};
pub use fault::ParseFault;
pub use read::read_node;
pub use statements::read_statements;
