//! Bytes read as trees of PHP 7.4 and 8.3.
#![tactic(auto)]

mod fault;
mod laws;
mod reader;
mod rows;

pub use fault::ReadFault;
pub use laws::{a_tree_is_printed_as_its_bytes, bytes_have_one_tree};
pub use reader::read;
pub use rows::read_rows;
