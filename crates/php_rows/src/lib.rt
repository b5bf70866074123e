//! Trees as rows: each node stands before those inside it.
#![tactic(auto)]

mod file;
mod flat;
mod inner;
mod next;
mod nodes;
mod parts;
mod row;
mod views;

pub use file::RowTree;
pub use flat::Flat;
pub use nodes::{node_with, nodes_of};
pub use parts::{Parts, Step};
pub use row::Row;
