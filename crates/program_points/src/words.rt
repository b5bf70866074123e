// What stands before and behind words of a node.
ghost use Rattle.std.specs.Prelude.{◌≡◌, ◌≤◌, ◌-◌, length, take};
ghost use Rattle.program_points.specs.Chosen.{is_this as is_that, pieces_of};
ghost use Rattle.program_points.specs.Pieces as spec;

use crate::piece::Piece;

/// Whether a text is this word, whatever its case.
pub(crate) fn is_word(word: &[u8], text: &[u8]) -> bool
    ensures { result ≡ spec.is_word word.now text.now }
{
    word.eq_ignore_ascii_case(text)
}

/// Whether a piece is this word, whatever its case.
pub(crate) fn is_this(word: &[u8], piece: Piece) -> bool
    ensures { result ≡ is_that word.now piece.entry }
{
    match piece {
        Piece::Word(text) => is_word(word, text),
        Piece::Expr(_) | Piece::Stmt(_) | Piece::Other(_, _, _) => false,
    }
}

/// Whether this word is among them.
#[tactic(auto, using(crate::proofs::WordLemmas::has_piece))]
pub(crate) fn has_word(word: &[u8], pieces: &[Piece]) -> bool
    ensures { result ≡ spec.has_word word.now (pieces_of pieces.now) }
{
    let mut left = pieces;
    while let [piece, behind @ ..] = left {
        if is_this(word, *piece) {
            return true;
        }
        left = behind;
    }
    false
}

/// What stands behind the first such word; nothing where there is none.
#[tactic(auto, using(crate::proofs::WordLemmas::behind_piece))]
pub(crate) fn behind<'a, 'b>(word: &[u8], pieces: &'b [Piece<'a>]) -> &'b [Piece<'a>]
    ensures { pieces_of result.now ≡ spec.behind word.now (pieces_of pieces.now) }
{
    let mut left = pieces;
    while let [piece, rest @ ..] = left {
        if is_this(word, *piece) {
            return rest;
        }
        left = rest;
    }
    left
}

// What stands before what is left.
fn before<'a, 'b>(pieces: &'b [Piece<'a>], left: &[Piece<'a>]) -> &'b [Piece<'a>]
    requires { length left.now ≤ length pieces.now }
    ensures { result.now ≡ take (length pieces.now - length left.now) pieces.now }
{
    let (front, _) = pieces.split_at(pieces.len() - left.len());
    front
}

/// What stands before the first such word; all where there is none.
#[tactic(auto, using(crate::proofs::WordLemmas::cut_first, crate::proofs::WordLemmas::cut_found, crate::proofs::WordLemmas::cut_last))]
pub(crate) fn up_to<'a, 'b>(word: &[u8], pieces: &'b [Piece<'a>]) -> &'b [Piece<'a>]
    ensures { pieces_of result.now ≡ spec.up_to word.now (pieces_of pieces.now) }
{
    let mut left = pieces;
    while let [piece, behind @ ..] = left {
        if is_this(word, *piece) {
            return before(pieces, left);
        }
        left = behind;
    }
    pieces
}
