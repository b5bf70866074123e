// Tokens of a file, read by their places.
ghost use Rattle.std.specs.Prelude.{All};
ghost use Rattle.php_terminals.specs.Marked.{IsMark};
ghost use Rattle.std.proofs.Props.{props};

use crate::mark::Mark;

/// Some tokens of a file in order, by their places among its bytes.
#[derive(Clone, Copy)]
pub struct Tokens<'a> {
    pub bytes: &'a [u8],
    pub marks: &'a [Mark],
    pub ghost marked: { All (IsMark bytes.now) marks.now } by { Prim.hlevel props },
}
