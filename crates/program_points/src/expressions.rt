// Edges of expressions.
ghost use Rattle.std.specs.Prelude.{◌≡◌, ◌++◌, IfOk, OnOk, option_to_list};
ghost use Rattle.program_points.specs.Chosen.{chosen, pair_of, pick as pick_of, pieces_of, three_of};
ghost use Rattle.program_points.specs.Rows as rows;

use crate::chains::{add, in_order, next_of, pick};
use crate::file_edge::FileEdge;
use crate::piece::{Piece, Which};
use crate::point::Point;
use crate::words::has_word;
use std::alloc::AllocError;

// The only two.
fn pair(which: Which, pieces: &[Piece]) -> Option<(u32, u32)>
    ensures { result ≡ pair_of (chosen which (pieces_of pieces.now)) }
{
    match next_of(which, pieces) {
        None => None,
        Some((first, behind)) => match next_of(which, behind) {
            None => None,
            Some((second, rest)) => match next_of(which, rest) {
                None => Some((first, second)),
                Some(_) => None,
            },
        },
    }
}

// The only three.
fn three(which: Which, pieces: &[Piece]) -> Option<(u32, u32, u32)>
    ensures { result ≡ three_of (chosen which (pieces_of pieces.now)) }
{
    match next_of(which, pieces) {
        None => None,
        Some((first, behind)) => match next_of(which, behind) {
            None => None,
            Some((second, rest)) => match next_of(which, rest) {
                None => None,
                Some((third, last)) => match next_of(which, last) {
                    None => Some((first, second, third)),
                    Some(_) => None,
                },
            },
        },
    }
}

/// The second only if the first asks for it.
#[tactic(auto, using(crate::proofs::ExpressionLemmas::second_of_pair, crate::proofs::ExpressionLemmas::second_of_none))]
pub(crate) fn maybe_second(
    edges: &mut Vec<FileEdge>,
    node: u32,
    which: Which,
    pieces: &[Piece],
) -> Result<(), AllocError>
    ensures { OnOk result (edges.new.items ≡ edges.old.items
        ++ rows.maybe_second node (chosen which (pieces_of pieces.now))) }
{
    match pair(which, pieces) {
        None => in_order(edges, node, which, pieces)?,
        Some((first, second)) => {
            add(edges, node, Point::Before(node), Point::Before(first))?;
            add(edges, node, Point::After(first), Point::Before(second))?;
            add(edges, node, Point::After(first), Point::After(node))?;
            add(edges, node, Point::After(second), Point::After(node))?;
        }
    }
    Ok(())
}

/// The second or the third, by the first.
#[tactic(auto, using(crate::proofs::ExpressionLemmas::one_of_three, crate::proofs::ExpressionLemmas::one_of_none))]
pub(crate) fn one_of_two(
    edges: &mut Vec<FileEdge>,
    node: u32,
    which: Which,
    pieces: &[Piece],
) -> Result<(), AllocError>
    ensures { OnOk result (edges.new.items ≡ edges.old.items
        ++ rows.one_of_two node (chosen which (pieces_of pieces.now))) }
{
    match three(which, pieces) {
        None => in_order(edges, node, which, pieces)?,
        Some((test, first, second)) => {
            add(edges, node, Point::Before(node), Point::Before(test))?;
            add(edges, node, Point::After(test), Point::Before(first))?;
            add(edges, node, Point::After(first), Point::After(node))?;
            add(edges, node, Point::After(test), Point::Before(second))?;
            add(edges, node, Point::After(second), Point::After(node))?;
        }
    }
    Ok(())
}

// To a piece, where it is meant, and from behind it to the end.
fn test(
    edges: &mut Vec<FileEdge>,
    node: u32,
    from: Point,
    which: Which,
    piece: Piece,
) -> Result<Point, AllocError>
    ensures edges { OnOk result (edges.new.items ≡ edges.old.items
        ++ rows.until_missing node from (option_to_list (pick_of which piece.entry))) }
    ensures last { IfOk result (λ p. p ≡ rows.last_or (option_to_list (pick_of which piece.entry)) from) }
{
    match pick(which, piece) {
        None => Ok(from),
        Some(next) => {
            add(edges, node, from, Point::Before(next))?;
            add(edges, node, Point::After(next), Point::After(node))?;
            Ok(Point::After(next))
        }
    }
}

/// Up to the first that isn't there.
#[tactic(auto, using(crate::proofs::ChainLemmas::until_piece))]
pub(crate) fn until_missing(
    edges: &mut Vec<FileEdge>,
    node: u32,
    which: Which,
    pieces: &[Piece],
) -> Result<(), AllocError>
    ensures { OnOk result (edges.new.items ≡ edges.old.items
        ++ rows.until_missing node (Point.Before node) (chosen which (pieces_of pieces.now))) }
{
    let mut at = Point::Before(node);
    let mut left = pieces;
    while let [piece, behind @ ..] = left {
        at = test(edges, node, at, which, *piece)?;
        left = behind;
    }
    Ok(())
}

// Whether the operator may leave out its right side.
fn is_short(pieces: &[Piece]) -> bool
    ensures { result ≡ rows.is_short (pieces_of pieces.now) }
{
    has_word(b"&&", pieces)
        || has_word(b"||", pieces)
        || has_word(b"and", pieces)
        || has_word(b"or", pieces)
        || has_word(b"??", pieces)
        || has_word(b"??=", pieces)
}

/// An operator with its two sides.
pub(crate) fn by_operator(
    edges: &mut Vec<FileEdge>,
    node: u32,
    pieces: &[Piece],
) -> Result<(), AllocError>
    ensures { OnOk result (edges.new.items ≡ edges.old.items ++ rows.by_operator node (pieces_of pieces.now)) }
{
    if is_short(pieces) {
        maybe_second(edges, node, Which::Steps, pieces)?;
        return Ok(());
    }
    in_order(edges, node, Which::Steps, pieces)?;
    Ok(())
}
