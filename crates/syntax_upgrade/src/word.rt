// A token, as the walk sees it.
ghost use Rattle.std.specs.Prelude.{◌≡◌};
ghost use Rattle.php_terminals.specs.Classify.{terminal_by};

use php_terminals::terminal::Terminal;
use php_tree::TokenKind;

/// A token of the source: its kind and its class, its trivia and its text, and the place where the text begins.
#[derive(Clone, Copy)]
pub(crate) struct Word<'a> {
    pub(crate) kind: TokenKind,
    pub(crate) class: Terminal,
    pub(crate) lead: &'a [u8],
    pub(crate) text: &'a [u8],
    pub(crate) start: u32,
    ghost classed: { class ≡ terminal_by kind text.now },
}
