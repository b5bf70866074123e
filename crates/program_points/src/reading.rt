// The parts of a node, read as pieces.
ghost use Rattle.std.specs.Prelude.{◌≡◌, ◌++◌, OnOk, suc};
ghost use Rattle.php_terminals.specs.Marked.{IsMark, token_at};
ghost use Rattle.php_rows.specs.Reading.{forest_in};
ghost use Rattle.program_points.specs.Chosen.{kept, piece_to, pieces_of, pieces_to, word_to};
ghost use Rattle.program_points.specs.Pieces.{Pieces, and_then, exprs, piece_before, pieces as spec_pieces, stmts};

use crate::kinds::{Sort, sort_of};
use crate::piece::Piece;
use php_rows::{Parts, Step};
use php_terminals::mark::Mark;
use php_terminals::marked::text_of;
use php_tree::NodeKind;
use std::alloc::AllocError;

// A piece behind those that were read.
#[tactic(auto, using(crate::proofs::ReadingLemmas::pieces_push))]
fn add_piece<'a>(pieces: &mut Vec<Piece<'a>>, piece: Piece<'a>) -> Result<(), AllocError>
    ensures { OnOk result ((ps : Pieces) → pieces_to pieces.new.items ps
        ≡ pieces_to pieces.old.items (piece_to piece.entry ps)) }
{
    pieces.push(piece)?;
    Ok(())
}

// A word, where words are wanted.
fn add_word<'a>(
    pieces: &mut Vec<Piece<'a>>,
    has_words: bool,
    bytes: &'a [u8],
    mark: Mark,
) -> Result<(), AllocError>
    requires { IsMark bytes.now mark }
    ensures { OnOk result ((ps : Pieces) → pieces_to pieces.new.items ps
        ≡ pieces_to pieces.old.items (word_to has_words (token_at bytes.entry.now mark).text ps)) }
{
    if !has_words {
        return Ok(());
    }
    add_piece(pieces, Piece::Word(text_of(bytes, mark)))?;
    Ok(())
}

/// The parts of a node, in order, behind what was read before; without words where these aren't wanted. The only error
/// is want of memory.
#[cycle(read)]
pub(crate) fn read_parts<'a>(
    pieces: &mut Vec<Piece<'a>>,
    has_words: bool,
    parts: Parts<'a>,
) -> Result<(), AllocError>
    ensures { OnOk result ((ps : Pieces) → pieces_to pieces.new.items ps
        ≡ pieces_to pieces.old.items (and_then (kept has_words (spec_pieces parts.entry.number
        (forest_in parts.entry))) ps)) }
{
    let bytes = parts.bytes();
    let mut left = parts;
    'parts: loop {
        match left.next() {
            None => return Ok(()),
            Some(Step::Leaf(mark)) => add_word(pieces, has_words, bytes, mark)?,
            Some(Step::Child(kind, number, inner)) => add_child(pieces, kind, number, inner)?,
        }
    }
}

// A node, or the pieces of one that is looked through.
#[cycle(read)]
fn add_child<'a>(
    pieces: &mut Vec<Piece<'a>>,
    kind: NodeKind,
    number: u32,
    parts: Parts<'a>,
) -> Result<(), AllocError>
    requires { parts.number ≡ suc number }
    ensures { OnOk result ((ps : Pieces) → pieces_to pieces.new.items ps
        ≡ pieces_to pieces.old.items (piece_before kind number (spec_pieces (suc number) (forest_in parts.entry)) ps)) }
{
    match sort_of(kind) {
        Sort::Expression => add_piece(pieces, Piece::Expr(number))?,
        Sort::Statement => add_piece(pieces, Piece::Stmt(number))?,
        Sort::LookedThrough => read_parts(pieces, false, parts)?,
        Sort::Other => add_piece(pieces, Piece::Other(kind, number, parts))?,
    }
    Ok(())
}

/// The pieces of a node, in place of what was read before. The only error is want of memory.
#[tactic(auto, using(crate::proofs::ReadingLemmas::and_then_end))]
pub(crate) fn read<'a>(pieces: &mut Vec<Piece<'a>>, parts: Parts<'a>) -> Result<(), AllocError>
    ensures { OnOk result (pieces_of pieces.new.items ≡ spec_pieces parts.entry.number (forest_in parts.entry)) }
{
    pieces.clear();
    read_parts(pieces, true, parts)?;
    Ok(())
}

/// The pieces of a node, behind what was read before. The only error is want of memory.
#[tactic(auto, using(crate::proofs::ReadingLemmas::exprs_behind, crate::proofs::ReadingLemmas::stmts_behind))]
pub(crate) fn read_inner<'a>(
    pieces: &mut Vec<Piece<'a>>,
    parts: Parts<'a>,
) -> Result<(), AllocError>
    ensures exprs { OnOk result (exprs (pieces_of pieces.new.items)
        ≡ exprs (pieces_of pieces.old.items) ++ exprs (spec_pieces parts.entry.number (forest_in parts.entry))) }
    ensures stmts { OnOk result (stmts (pieces_of pieces.new.items)
        ≡ stmts (pieces_of pieces.old.items) ++ stmts (spec_pieces parts.entry.number (forest_in parts.entry))) }
{
    read_parts(pieces, true, parts)?;
    Ok(())
}
