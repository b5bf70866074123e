//! The tokens of PHP 7.4 and 8.3, each the longest of its mode, with no byte lost.
#![tactic(auto)]

mod code;
mod fault;
mod heredocs;
mod laws;
mod lexer;
mod marks;
mod modes;
mod rows;
mod scan;
mod shapes;
mod walks;

pub use fault::LexFault;
pub use laws::{no_byte_is_lost, one_fault, one_token_list, tokens_or_fault, utf8_is_kept};
pub use lexer::{lex, lex_marks};
