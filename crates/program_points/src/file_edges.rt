// The edges of a file.
ghost use Rattle.std.specs.Prelude.{◌≡◌, ◌++◌, IfOk, OnOk, option_to_list, unwrap_or};
ghost use Rattle.php_rows.specs.File.{file_in};
ghost use Rattle.program_points.specs.Chosen.{pick as pick_of, pieces_of};
ghost use Rattle.program_points.specs.Edges as spec;
ghost use Rattle.program_points.specs.Pieces.{stmts};

use crate::around::nothing;
use crate::chains::{add, next_of, pick};
use crate::file_edge::FileEdge;
use crate::piece::{Piece, Which};
use crate::point::Point;
use crate::reading::read;
use crate::walk::walk_parts;
use php_rows::RowTree;
use std::alloc::{AllocError, Global};

// From a statement of a file to a piece, if that is one; the number of the last one.
fn follow(edges: &mut Vec<FileEdge>, last: u32, piece: Piece) -> Result<u32, AllocError>
    ensures edges { OnOk result (edges.new.items ≡ edges.old.items
        ++ spec.between_behind last (option_to_list (pick_of Which.Stmts piece.entry))) }
    ensures last { IfOk result (λ n. n ≡ unwrap_or (pick_of Which.Stmts piece.entry) last) }
{
    match pick(Which::Stmts, piece) {
        None => Ok(last),
        Some(next) => {
            add(edges, next, Point::After(last), Point::Before(next))?;
            Ok(next)
        }
    }
}

// From a statement of a file to the next, and so on.
#[tactic(auto, using(crate::proofs::FileLemmas::between_piece))]
fn follow_all(edges: &mut Vec<FileEdge>, first: u32, pieces: &[Piece]) -> Result<(), AllocError>
    ensures { OnOk result (edges.new.items ≡ edges.old.items
        ++ spec.between_behind first (stmts (pieces_of pieces.now))) }
{
    let mut last = first;
    let mut left = pieces;
    while let [piece, behind @ ..] = left {
        last = follow(edges, last, *piece)?;
        left = behind;
    }
    Ok(())
}

// From each statement of a file to the next.
fn between(edges: &mut Vec<FileEdge>, pieces: &[Piece]) -> Result<(), AllocError>
    ensures { OnOk result (edges.new.items ≡ edges.old.items ++ spec.between (stmts (pieces_of pieces.now))) }
{
    match next_of(Which::Stmts, pieces) {
        None => Ok(()),
        Some((first, behind)) => {
            follow_all(edges, first, behind)?;
            Ok(())
        }
    }
}

/// The edges of a file. The only error is want of memory.
pub(crate) fn edges_of(alloc: Global, tree: &RowTree) -> Result<Vec<FileEdge>, AllocError>
    ensures { IfOk result (λ es. es.items ≡ spec.file_edges (file_in tree.now).statements) }
{
    let mut edges = Vec::new(alloc);
    let mut room = Vec::new(alloc);
    read(&mut room, tree.statements())?;
    between(&mut edges, room.as_slice())?;
    let mut stacks = nothing(alloc);
    walk_parts(alloc, &mut edges, &mut stacks, &mut room, tree.statements())?;
    Ok(edges)
}
