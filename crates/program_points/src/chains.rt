// Edges through nodes, one after another.
ghost use Rattle.std.specs.Prelude.{◌≡◌, ◌++◌, IfOk, OnOk, option_to_list};
ghost use Rattle.program_points.specs.Chosen.{IsNextOf, chosen, pick as pick_of, pieces_of};
ghost use Rattle.program_points.specs.Rows as rows;
ghost use Rattle.program_points.specs.Rows.{head_of};

use crate::file_edge::FileEdge;
use crate::piece::{Piece, Which};
use crate::point::Point;
use std::alloc::AllocError;

/// One edge. The only error here and below is want of memory.
pub(crate) fn add(
    edges: &mut Vec<FileEdge>,
    node: u32,
    from: Point,
    to: Point,
) -> Result<(), AllocError>
    ensures { OnOk result (edges.new.items ≡ edges.old.items ++ rows.edge node from to) }
{
    edges.push(FileEdge { from, to, node })?;
    Ok(())
}

/// The number of a piece, where it is one of those that are meant.
pub(crate) fn pick(which: Which, piece: Piece) -> Option<u32>
    ensures { result ≡ pick_of which piece.entry }
{
    match which {
        Which::Exprs => match piece {
            Piece::Expr(number) => Some(number),
            Piece::Word(_) | Piece::Stmt(_) | Piece::Other(_, _, _) => None,
        },
        Which::Stmts => match piece {
            Piece::Stmt(number) => Some(number),
            Piece::Word(_) | Piece::Expr(_) | Piece::Other(_, _, _) => None,
        },
        Which::Steps => match piece {
            Piece::Expr(number) | Piece::Stmt(number) => Some(number),
            Piece::Word(_) | Piece::Other(_, _, _) => None,
        },
    }
}

// From a point to a piece, where it is meant, and behind it.
fn pass(
    edges: &mut Vec<FileEdge>,
    node: u32,
    from: Point,
    which: Which,
    piece: Piece,
) -> Result<Point, AllocError>
    ensures edges { OnOk result (edges.new.items ≡ edges.old.items
        ++ rows.run node from (option_to_list (pick_of which piece.entry))) }
    ensures last { IfOk result (λ p. p ≡ rows.last_or (option_to_list (pick_of which piece.entry)) from) }
{
    match pick(which, piece) {
        None => Ok(from),
        Some(next) => {
            add(edges, node, from, Point::Before(next))?;
            Ok(Point::After(next))
        }
    }
}

// The point behind a piece, where it is meant, or else the one given.
fn behind_piece(which: Which, piece: Piece, from: Point) -> Point
    ensures { result ≡ rows.last_or (option_to_list (pick_of which piece.entry)) from }
{
    match pick(which, piece) {
        None => from,
        Some(number) => Point::After(number),
    }
}

/// From a point through those of some pieces that are meant; the point behind the last of them, or else the one given.
#[tactic(auto, using(crate::proofs::ChainLemmas::run_piece, crate::proofs::ChainLemmas::last_piece))]
pub(crate) fn run(
    edges: &mut Vec<FileEdge>,
    node: u32,
    from: Point,
    which: Which,
    pieces: &[Piece],
) -> Result<Point, AllocError>
    ensures edges { OnOk result (edges.new.items ≡ edges.old.items
        ++ rows.run node from (chosen which (pieces_of pieces.now))) }
    ensures last { IfOk result (λ p. p ≡ rows.last_or (chosen which (pieces_of pieces.now)) from) }
{
    let mut at = from;
    let mut left = pieces;
    while let [piece, behind @ ..] = left {
        at = pass(edges, node, at, which, *piece)?;
        left = behind;
    }
    Ok(at)
}

/// From a point through those of some pieces that are meant, to a point.
#[tactic(auto, using(crate::proofs::ChainLemmas::chain_after))]
pub(crate) fn chain(
    edges: &mut Vec<FileEdge>,
    node: u32,
    from: Point,
    which: Which,
    pieces: &[Piece],
    to: Point,
) -> Result<(), AllocError>
    ensures { OnOk result (edges.new.items ≡ edges.old.items
        ++ rows.chain node from (chosen which (pieces_of pieces.now)) to) }
{
    let last = run(edges, node, from, which, pieces)?;
    add(edges, node, last, to)?;
    Ok(())
}

/// The point behind the last of those that are meant, or else the one given.
#[tactic(auto, using(crate::proofs::ChainLemmas::last_piece))]
pub(crate) fn last_or(which: Which, pieces: &[Piece], from: Point) -> Point
    ensures { result ≡ rows.last_or (chosen which (pieces_of pieces.now)) from }
{
    let mut at = from;
    let mut left = pieces;
    while let [piece, behind @ ..] = left {
        at = behind_piece(which, *piece, at);
        left = behind;
    }
    at
}

/// From left to right.
pub(crate) fn in_order(
    edges: &mut Vec<FileEdge>,
    node: u32,
    which: Which,
    pieces: &[Piece],
) -> Result<(), AllocError>
    ensures { OnOk result (edges.new.items ≡ edges.old.items
        ++ rows.in_order node (chosen which (pieces_of pieces.now))) }
{
    chain(
        edges,
        node,
        Point::Before(node),
        which,
        pieces,
        Point::After(node),
    )?;
    Ok(())
}

/// The first of those that are meant, and the pieces behind it.
#[tactic(auto, using(crate::proofs::ChainLemmas::chosen_piece))]
pub(crate) fn next_of<'a, 'b>(
    which: Which,
    pieces: &'b [Piece<'a>],
) -> Option<(u32, &'b [Piece<'a>])>
    ensures { IsNextOf which result (chosen which (pieces_of pieces.now)) }
{
    let mut left = pieces;
    while let [piece, behind @ ..] = left {
        if let Some(first) = pick(which, *piece) {
            return Some((first, behind));
        }
        left = behind;
    }
    None
}

/// The first of those that are meant.
#[tactic(auto, using(crate::proofs::ChainLemmas::head_piece))]
pub(crate) fn first_of(which: Which, pieces: &[Piece]) -> Option<u32>
    ensures { result ≡ head_of (chosen which (pieces_of pieces.now)) }
{
    let mut left = pieces;
    while let [piece, behind @ ..] = left {
        if let Some(first) = pick(which, *piece) {
            return Some(first);
        }
        left = behind;
    }
    None
}

/// The point before the first of those that are meant, or else the one given.
#[tactic(auto, using(crate::proofs::ChainLemmas::first_piece))]
pub(crate) fn first_or(which: Which, pieces: &[Piece], to: Point) -> Point
    ensures { result ≡ rows.first_or (chosen which (pieces_of pieces.now)) to }
{
    let mut left = pieces;
    while let [piece, behind @ ..] = left {
        if let Some(first) = pick(which, *piece) {
            return Point::Before(first);
        }
        left = behind;
    }
    to
}
