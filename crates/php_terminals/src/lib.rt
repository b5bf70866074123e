//! What tokens are to the grammar of PHP: the class of each, words told by their texts, what stands ahead, and the
//! indentation of heredocs.
#![tactic(auto)]

pub mod classify;
pub mod indents;
mod lookahead;
mod looks;
pub mod mark;
pub mod marked;
pub mod marking;
pub mod marks;
pub mod terminal;
pub mod tokens;
pub mod words;
