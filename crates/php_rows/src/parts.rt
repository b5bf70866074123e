// The parts of a node in a row, from the first on.
ghost use Rattle.std.specs.Prelude.{◌≤◌, ◌<◌, ◌+◌, ◌^◌, IsTrue, length};
ghost use Rattle.php_rows.specs.Flatten.{fits};

use crate::flat::Flat;
use php_terminals::mark::Mark;
use php_terminals::tokens::Tokens;
use php_tree::NodeKind;

/// The tokens and nodes of a node itself that are still to come, among the tokens of a file. `number` is that of the
/// next node.
#[derive(Clone, Copy)]
pub struct Parts<'a> {
    pub(crate) tokens: Tokens<'a>,
    pub(crate) nodes: &'a [Flat],
    pub(crate) number: u32,
    pub(crate) at: u32,
    pub(crate) end: u32,
    ghost small: { end < 2 ^ 32 },
    ghost within: { end ≤ length tokens.marks.now },
    ghost nested: { IsTrue (fits (length nodes.now) at end nodes.now) },
    ghost few: { number + length nodes.now < 2 ^ 32 },
}

/// A part: a token, or a node by its kind, its number and its parts.
#[derive(Clone, Copy)]
pub enum Step<'a> {
    Leaf(Mark),
    Child(NodeKind, u32, Parts<'a>),
}
