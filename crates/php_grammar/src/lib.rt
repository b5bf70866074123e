//! The grammar of both versions as tables: the form with which a node begins, the parts of a group, and the form that goes
//! on behind a node, each by the tokens that come.
#![tactic(auto)]

mod asks;
mod bases;
mod edges;
mod indents;
mod levels;
mod operands;
mod tables;
mod tails;

pub use asks::accepts;
pub use edges::edge;
pub use indents::is_misindented;
pub use php_forms::item::{ANY, Form, Group, Item, Sort};
pub use php_terminals::terminal::Terminal;
pub use tables::{form_of, parts_of, tail_of};
