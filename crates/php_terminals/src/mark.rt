// Tokens as places in their source.
use crate::terminal::Terminal;
use php_tree::TokenKind;

/// A token by its places: its trivia begin at `lead`, its text at `start`, and it ends at `end`. Beside its kind stands its
/// class.
#[derive(Clone, Copy, Debug, PartialEq, Eq)]
pub struct Mark {
    pub kind: TokenKind,
    pub class: Terminal,
    pub lead: u32,
    pub start: u32,
    pub end: u32,
}
