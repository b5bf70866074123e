// Edges of conditions with their statements.
ghost use Rattle.std.specs.Prelude.{◌≡◌, ◌++◌, OnOk};
ghost use Rattle.program_points.specs.Chosen.{pieces_of};
ghost use Rattle.program_points.specs.Rows as rows;

use crate::chains::{add, chain, next_of};
use crate::file_edge::FileEdge;
use crate::piece::{Piece, Which};
use crate::point::Point;
use crate::words::{behind, has_word, up_to};
use std::alloc::AllocError;

// A condition and what stands behind it, up to the next `elseif` or `else`.
fn first_branch<'a, 'b>(pieces: &'b [Piece<'a>]) -> &'b [Piece<'a>]
    ensures { pieces_of result.now ≡ rows.first_branch (pieces_of pieces.now) }
{
    up_to(b"else", up_to(b"elseif", pieces))
}

/// Conditions in turn, each with its statements.
#[tactic(auto, using(crate::proofs::BranchLemmas::branches_done))]
pub(crate) fn branches(
    edges: &mut Vec<FileEdge>,
    node: u32,
    pieces: &[Piece],
) -> Result<(), AllocError>
    ensures { OnOk result (edges.new.items ≡ edges.old.items
        ++ rows.branches (rows.size (pieces_of pieces.now)) node (Point.Before node) (pieces_of pieces.now)) }
{
    let mut from = Point::Before(node);
    let mut left = pieces;
    'branches: loop {
        let front = first_branch(left);
        let condition = match next_of(Which::Exprs, front) {
            None => return Ok(()),
            Some((condition, _)) => condition,
        };
        add(edges, node, from, Point::Before(condition))?;
        from = Point::After(condition);
        chain(edges, node, from, Which::Stmts, front, Point::After(node))?;
        if !has_word(b"elseif", left) {
            let last = behind(b"else", left);
            chain(edges, node, from, Which::Stmts, last, Point::After(node))?;
            return Ok(());
        }
        left = behind(b"elseif", left);
    }
}
