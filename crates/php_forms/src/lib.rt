//! The forms of PHP's grammar as rows of items: statements, declarations, names, lists, quoted texts, and what begins an
//! expression by its first token.
#![tactic(auto)]

pub mod atoms;
pub mod declarations;
pub mod forms;
pub mod heads;
pub mod item;
pub mod lists;
pub mod names;
pub mod quoted;
pub mod statements;
