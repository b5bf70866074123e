//! Tokens and trees of PHP sources. No byte is lost: a token carries the trivia before it.
#![tactic(auto)]

mod clone;
mod file;
mod kind;
mod measure;
mod node;
mod place;
mod search;
mod token;
mod version;

pub use clone::clone_node;
pub use file::FileTree;
pub use kind::NodeKind;
pub use node::{Node, Part};
pub use token::{Token, TokenKind};
pub use version::Version;
