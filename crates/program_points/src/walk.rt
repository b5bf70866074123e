// One walk over the nodes of a file: the edges of each.
ghost use Rattle.std.specs.Prelude.{◌≡◌, ◌++◌, IfOk, OnOk, ℕ, suc, reverse};
ghost use Rattle.php_tree.specs.Tree.{alone};
ghost use Rattle.php_rows.specs.Reading.{forest_in};
ghost use Rattle.program_points.specs.Edges as spec;
ghost use Rattle.program_points.specs.Flows.{flow_of as flow_of_kind};
ghost use Rattle.program_points.specs.Pieces.{pieces as spec_pieces};
ghost use Rattle.program_points.specs.Walked.{around_in, around_of};

use crate::around::{Stacks, enter_loop, heights, loop_of, lower, nothing};
use crate::chains::add;
use crate::file_edge::FileEdge;
use crate::flow::{Flow, flow_of};
use crate::frame::{Frame, Handler};
use crate::kinds::{has_points, is_elsewhere, is_try};
use crate::own::own_edges;
use crate::parts_around::{Tried, enter_part};
use crate::piece::Piece;
use crate::point::Point;
use crate::reading::read;
use crate::tries::{body_of, catches_of, last_of};
use php_rows::{Parts, Step};
use php_tree::NodeKind;
use std::alloc::{AllocError, Global};

// From both points of a node to each later part of the statements around it, the innermost last.
#[tactic(auto, using(crate::proofs::WalkLemmas::last_handler))]
fn handled(edges: &mut Vec<FileEdge>, node: u32, handlers: &[Handler]) -> Result<(), AllocError>
    ensures { OnOk result (edges.new.items ≡ edges.old.items ++ spec.handled node (reverse handlers.now)) }
{
    let mut count = handlers.len();
    while count > 0 {
        count -= 1;
        let handler = handlers[count];
        add(
            edges,
            handler.of,
            Point::Before(node),
            Point::Before(handler.start),
        )?;
        add(
            edges,
            handler.of,
            Point::After(node),
            Point::Before(handler.start),
        )?;
    }
    Ok(())
}

// The edges of a node's own; and the loop or switch that it is to the jumps inside it.
fn own_row<'a>(
    alloc: Global,
    edges: &mut Vec<FileEdge>,
    frames: &[Frame],
    room: &mut Vec<Piece<'a>>,
    flow: Flow,
    node: u32,
    parts: Parts<'a>,
) -> Result<Option<Frame>, AllocError>
    requires { parts.number ≡ suc node }
    ensures edges { OnOk result (edges.new.items ≡ edges.old.items
        ++ spec.by_flow flow node (forest_in parts.entry) (spec_pieces (suc node) (forest_in parts.entry))
        (reverse frames.now)) }
    ensures frame { IfOk result (λ f. f ≡ spec.loop_of flow node (spec_pieces (suc node) (forest_in parts.entry))) }
{
    if let Flow::Nowhere = flow {
        return Ok(None);
    }
    read(room, parts)?;
    own_edges(alloc, edges, flow, node, parts, room.as_slice(), frames)?;
    Ok(loop_of(flow, node, room.as_slice()))
}

// The edges of a node; and the loop or switch that it is to the jumps inside it.
fn row_edges<'a>(
    alloc: Global,
    edges: &mut Vec<FileEdge>,
    stacks: &Stacks,
    room: &mut Vec<Piece<'a>>,
    kind: NodeKind,
    node: u32,
    parts: Parts<'a>,
) -> Result<Option<Frame>, AllocError>
    requires { parts.number ≡ suc node }
    ensures edges { OnOk result (edges.new.items ≡ edges.old.items
        ++ spec.row kind node (forest_in parts.entry) (around_of stacks.now)) }
    ensures frame { IfOk result (λ f. f ≡ spec.loop_of (flow_of_kind kind) node (spec_pieces (suc node)
        (forest_in parts.entry))) }
{
    let frame = own_row(
        alloc,
        edges,
        stacks.frames.as_slice(),
        room,
        flow_of(kind),
        node,
        parts,
    )?;
    if !has_points(kind) {
        return Ok(frame);
    }
    handled(edges, node, stacks.handlers.as_slice())?;
    Ok(frame)
}

/// The parts of a node that have the same around them, each after the one before it. The only error here and below is
/// want of memory.
#[tactic(auto, using(crate::proofs::WalkLemmas::walked_first, crate::proofs::WalkLemmas::walked_leaf, crate::proofs::WalkLemmas::walked_last))]
#[cycle(walk)]
pub(crate) fn walk_parts<'a>(
    alloc: Global,
    edges: &mut Vec<FileEdge>,
    stacks: &mut Stacks,
    room: &mut Vec<Piece<'a>>,
    parts: Parts<'a>,
) -> Result<(), AllocError>
    ensures edges { OnOk result (edges.new.items ≡ edges.old.items
        ++ spec.edges (λ (m : ℕ). around_of stacks.old) parts.entry.number (forest_in parts.entry)) }
    ensures frames { OnOk result (stacks.new.frames.items ≡ stacks.old.frames.items) }
    ensures handlers { OnOk result (stacks.new.handlers.items ≡ stacks.old.handlers.items) }
{
    let mut left = parts;
    'parts: loop {
        match left.next() {
            None => return Ok(()),
            Some(Step::Leaf(_)) => {}
            Some(Step::Child(kind, number, inner)) => {
                walk_node(alloc, edges, stacks, room, kind, number, inner)?;
            }
        }
    }
}

// The parts of a `try`.
#[tactic(auto, using(crate::proofs::WalkLemmas::walked_first, crate::proofs::WalkLemmas::walked_leaf, crate::proofs::WalkLemmas::walked_last))]
#[cycle(walk)]
fn walk_try<'a>(
    alloc: Global,
    edges: &mut Vec<FileEdge>,
    stacks: &mut Stacks,
    room: &mut Vec<Piece<'a>>,
    tried: Tried<'_, 'a>,
    parts: Parts<'a>,
) -> Result<(), AllocError>
    ensures edges { OnOk result (edges.new.items ≡ edges.old.items
        ++ spec.edges (around_in tried.entry (around_of stacks.old)) parts.entry.number (forest_in parts.entry)) }
    ensures frames { OnOk result (stacks.new.frames.items ≡ stacks.old.frames.items) }
    ensures handlers { OnOk result (stacks.new.handlers.items ≡ stacks.old.handlers.items) }
{
    let mut left = parts;
    'parts: loop {
        match left.next() {
            None => return Ok(()),
            Some(Step::Leaf(_)) => {}
            Some(Step::Child(kind, number, inner)) => {
                let outside = heights(stacks);
                enter_part(stacks, tried, number)?;
                walk_node(alloc, edges, stacks, room, kind, number, inner)?;
                lower(stacks, outside);
            }
        }
    }
}

// The parts of a node in a loop, if it is one.
#[cycle(walk)]
fn walk_loop<'a>(
    alloc: Global,
    edges: &mut Vec<FileEdge>,
    stacks: &mut Stacks,
    room: &mut Vec<Piece<'a>>,
    frame: Option<Frame>,
    parts: Parts<'a>,
) -> Result<(), AllocError>
    ensures edges { OnOk result (edges.new.items ≡ edges.old.items
        ++ spec.edges (λ (m : ℕ). spec.in_loop frame (around_of stacks.old)) parts.entry.number
        (forest_in parts.entry)) }
    ensures frames { OnOk result (stacks.new.frames.items ≡ stacks.old.frames.items) }
    ensures handlers { OnOk result (stacks.new.handlers.items ≡ stacks.old.handlers.items) }
{
    let outside = heights(stacks);
    enter_loop(stacks, frame)?;
    walk_parts(alloc, edges, stacks, room, parts)?;
    lower(stacks, outside);
    Ok(())
}

// A node, and those inside it.
#[cycle(walk)]
fn walk_node<'a>(
    alloc: Global,
    edges: &mut Vec<FileEdge>,
    stacks: &mut Stacks,
    room: &mut Vec<Piece<'a>>,
    kind: NodeKind,
    number: u32,
    parts: Parts<'a>,
) -> Result<(), AllocError>
    requires { parts.number ≡ suc number }
    ensures edges { OnOk result (edges.new.items ≡ edges.old.items
        ++ spec.edges (λ (m : ℕ). around_of stacks.old) number (alone (kind, forest_in parts.entry))) }
    ensures frames { OnOk result (stacks.new.frames.items ≡ stacks.old.frames.items) }
    ensures handlers { OnOk result (stacks.new.handlers.items ≡ stacks.old.handlers.items) }
{
    let frame = row_edges(alloc, edges, stacks, room, kind, number, parts)?;
    if is_elsewhere(kind) {
        let mut fresh = nothing(alloc);
        walk_parts(alloc, edges, &mut fresh, room, parts)?;
        return Ok(());
    }
    if is_try(kind) {
        let mut pieces = Vec::new(alloc);
        read(&mut pieces, parts)?;
        let tried = Tried {
            node: number,
            body: body_of(pieces.as_slice()),
            catches: catches_of(pieces.as_slice()),
            last: last_of(pieces.as_slice()),
        };
        walk_try(alloc, edges, stacks, room, tried, parts)?;
        return Ok(());
    }
    walk_loop(alloc, edges, stacks, room, frame, parts)?;
    Ok(())
}
