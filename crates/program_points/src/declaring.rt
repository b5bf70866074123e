// Edges of functions, and of `static`.
ghost use Rattle.std.specs.Prelude.{◌≡◌, ◌++◌, IfOk, OnOk};
ghost use Rattle.program_points.specs.Chosen.{chosen, piece_to, pieces_of};
ghost use Rattle.program_points.specs.Edges as spec;
ghost use Rattle.program_points.specs.Pieces.{defaults, end, exprs};
ghost use Rattle.program_points.specs.Rows as rows;

use crate::chains::{add, first_of, in_order, next_of, run};
use crate::file_edge::FileEdge;
use crate::kinds::is_param;
use crate::piece::{Piece, Which};
use crate::point::Point;
use crate::reading::read_inner;
use std::alloc::{AllocError, Global};

/// Initial values are evaluated once, and later left out.
pub(crate) fn statics_of(
    edges: &mut Vec<FileEdge>,
    node: u32,
    pieces: &[Piece],
) -> Result<(), AllocError>
    ensures { OnOk result (edges.new.items ≡ edges.old.items ++ spec.statics_of node (exprs (pieces_of pieces.now))) }
{
    in_order(edges, node, Which::Exprs, pieces)?;
    match next_of(Which::Exprs, pieces) {
        None => Ok(()),
        Some(_) => {
            add(edges, node, Point::Before(node), Point::After(node))?;
            Ok(())
        }
    }
}

// What the pieces of a parameter are, behind others: only its default is meant.
fn add_default<'a>(all: &mut Vec<Piece<'a>>, piece: Piece<'a>) -> Result<(), AllocError>
    ensures { OnOk result (exprs (pieces_of all.new.items) ≡ exprs (pieces_of all.old.items)
        ++ defaults (piece_to piece.entry end)) }
{
    match piece {
        Piece::Word(_) | Piece::Expr(_) | Piece::Stmt(_) => Ok(()),
        Piece::Other(kind, _, parts) => {
            if !is_param(kind) {
                return Ok(());
            }
            read_inner(all, parts)?;
            Ok(())
        }
    }
}

// The defaults of parameters.
#[tactic(auto, using(crate::proofs::DeclaringLemmas::defaults_piece))]
fn defaults_of<'a>(alloc: Global, pieces: &[Piece<'a>]) -> Result<Vec<Piece<'a>>, AllocError>
    ensures { IfOk result (λ all. exprs (pieces_of all.items) ≡ defaults (pieces_of pieces.now)) }
{
    let mut all = Vec::new(alloc);
    let mut left = pieces;
    while let [piece, behind @ ..] = left {
        add_default(&mut all, *piece)?;
        left = behind;
    }
    Ok(all)
}

// From a default on, and then the body.
fn from_default(
    edges: &mut Vec<FileEdge>,
    node: u32,
    default: u32,
    behind: &[Piece],
    which: Which,
    pieces: &[Piece],
) -> Result<(), AllocError>
    ensures { OnOk result (edges.new.items ≡ edges.old.items
        ++ rows.from_default node default (exprs (pieces_of behind.now)) (chosen which (pieces_of pieces.now))) }
{
    let last = run(edges, node, Point::After(default), Which::Exprs, behind)?;
    match first_of(which, pieces) {
        None => Ok(()),
        Some(first) => {
            add(edges, node, last, Point::Before(first))?;
            Ok(())
        }
    }
}

/// The defaults in turn, and then the body.
pub(crate) fn then_body<'a>(
    alloc: Global,
    edges: &mut Vec<FileEdge>,
    node: u32,
    which: Which,
    pieces: &[Piece<'a>],
) -> Result<(), AllocError>
    ensures { OnOk result (edges.new.items ≡ edges.old.items
        ++ rows.then_body node (defaults (pieces_of pieces.now)) (chosen which (pieces_of pieces.now))) }
{
    let defaults = defaults_of(alloc, pieces)?;
    match next_of(Which::Exprs, defaults.as_slice()) {
        None => Ok(()),
        Some((default, behind)) => {
            from_default(edges, node, default, behind, which, pieces)?;
            Ok(())
        }
    }
}

/// A declaration, with what its parameters and its body begin with.
pub(crate) fn declared<'a>(
    alloc: Global,
    edges: &mut Vec<FileEdge>,
    node: u32,
    which: Which,
    pieces: &[Piece<'a>],
) -> Result<(), AllocError>
    ensures { OnOk result (edges.new.items ≡ edges.old.items
        ++ spec.declared node (defaults (pieces_of pieces.now)) (chosen which (pieces_of pieces.now))) }
{
    add(edges, node, Point::Before(node), Point::After(node))?;
    then_body(alloc, edges, node, which, pieces)?;
    Ok(())
}
