// Edges of `try`.
ghost use Rattle.std.specs.Prelude.{◌≡◌, ◌++◌, IfOk, OnOk, option_to_list, reverse};
ghost use Rattle.php_tree.specs.Tree.{alone};
ghost use Rattle.php_rows.specs.Reading.{forest_in};
ghost use Rattle.program_points.specs.Chosen.{pick as pick_of, pieces_of};
ghost use Rattle.program_points.specs.Edges as spec;
ghost use Rattle.program_points.specs.Pieces.{stmts};
ghost use Rattle.program_points.specs.Rows as rows;

use crate::chains::{add, first_of, first_or, pick, run};
use crate::file_edge::FileEdge;
use crate::frame::Frame;
use crate::jumps::jump;
use crate::kinds::{is_body, is_loop, jump_of};
use crate::levels::level_of;
use crate::piece::{Piece, Which};
use crate::point::Point;
use crate::words::{behind, is_word, up_to};
use php_rows::{Parts, Step};
use php_terminals::marked::text_of;
use php_tree::NodeKind;
use std::alloc::AllocError;

/// The body of a `try`, among its pieces.
pub(crate) fn body_of<'a, 'b>(pieces: &'b [Piece<'a>]) -> &'b [Piece<'a>]
    ensures { stmts (pieces_of result.now) ≡ rows.try_body (pieces_of pieces.now) }
{
    up_to(b"finally", up_to(b"catch", pieces))
}

/// Its `catch` parts.
pub(crate) fn catches_of<'a, 'b>(pieces: &'b [Piece<'a>]) -> &'b [Piece<'a>]
    ensures { stmts (pieces_of result.now) ≡ rows.catches (pieces_of pieces.now) }
{
    up_to(b"finally", behind(b"catch", pieces))
}

/// Its last part.
pub(crate) fn last_of<'a, 'b>(pieces: &'b [Piece<'a>]) -> &'b [Piece<'a>]
    ensures { stmts (pieces_of result.now) ≡ rows.finally_of (pieces_of pieces.now) }
{
    behind(b"finally", pieces)
}

// From behind a part to a point.
fn end(edges: &mut Vec<FileEdge>, node: u32, piece: Piece, to: Point) -> Result<(), AllocError>
    ensures { OnOk result (edges.new.items ≡ edges.old.items
        ++ rows.ends node (option_to_list (pick_of Which.Stmts piece.entry)) to) }
{
    match pick(Which::Stmts, piece) {
        None => Ok(()),
        Some(part) => {
            add(edges, node, Point::After(part), to)?;
            Ok(())
        }
    }
}

// From behind each part to a point.
#[tactic(auto, using(crate::proofs::TryLemmas::ends_piece))]
fn ends(edges: &mut Vec<FileEdge>, node: u32, pieces: &[Piece], to: Point) -> Result<(), AllocError>
    ensures { OnOk result (edges.new.items ≡ edges.old.items ++ rows.ends node (stmts (pieces_of pieces.now)) to) }
{
    let mut left = pieces;
    while let [piece, behind @ ..] = left {
        end(edges, node, *piece, to)?;
        left = behind;
    }
    Ok(())
}

/// Where jumps out of the parts of a `try` start, and what is around it.
#[derive(Clone, Copy)]
struct Exit<'a> {
    node: u32,
    from: Point,
    frames: &'a [Frame],
}

// A jump that goes over more loops than are around it in the `try`.
fn beyond(
    edges: &mut Vec<FileEdge>,
    exit: Exit,
    is_break: bool,
    depth: u32,
    level: u32,
) -> Result<(), AllocError>
    ensures { OnOk result (edges.new.items ≡ edges.old.items
        ++ rows.to_each exit.entry.node exit.entry.from (spec.targets (reverse exit.entry.frames.now)
        (spec.beyond is_break depth level))) }
{
    if level <= depth {
        return Ok(());
    }
    jump(
        edges,
        exit.node,
        exit.from,
        is_break,
        level - depth,
        exit.frames,
    )?;
    Ok(())
}

// What a node itself leads out by.
fn leave_by(
    edges: &mut Vec<FileEdge>,
    exit: Exit,
    depth: u32,
    kind: NodeKind,
    parts: Parts,
) -> Result<(), AllocError>
    ensures { OnOk result (edges.new.items ≡ edges.old.items
        ++ rows.to_each exit.entry.node exit.entry.from (spec.targets (reverse exit.entry.frames.now)
        (spec.leaves_by kind depth (forest_in parts.entry)))) }
{
    match jump_of(kind) {
        None => Ok(()),
        Some(is_break) => {
            beyond(edges, exit, is_break, depth, level_of(parts))?;
            Ok(())
        }
    }
}

// Over how many loops what stands in a node has to go besides those around it.
fn within(kind: NodeKind, depth: u32) -> Result<u32, AllocError>
    ensures { IfOk result (λ d. d ≡ spec.loops_within kind depth) }
{
    if !is_loop(kind) {
        return Ok(depth);
    }
    depth.checked_add(1).ok_or(AllocError)
}

// The jumps out of the parts of a node.
#[tactic(auto, using(crate::proofs::TryLemmas::out_step))]
#[cycle(leave)]
fn leave_parts(
    edges: &mut Vec<FileEdge>,
    exit: Exit,
    depth: u32,
    parts: Parts,
) -> Result<(), AllocError>
    ensures { OnOk result (edges.new.items ≡ edges.old.items
        ++ rows.to_each exit.entry.node exit.entry.from (spec.targets (reverse exit.entry.frames.now)
        (spec.leaving depth (forest_in parts.entry)))) }
{
    let mut left = parts;
    'parts: loop {
        match left.next() {
            None => return Ok(()),
            Some(Step::Leaf(_)) => {}
            Some(Step::Child(kind, _, inner)) => leave_node(edges, exit, depth, kind, inner)?,
        }
    }
}

// The jumps out of a node.
#[tactic(auto, using(crate::proofs::TryLemmas::out_node, crate::proofs::TryLemmas::out_body))]
#[cycle(leave)]
fn leave_node(
    edges: &mut Vec<FileEdge>,
    exit: Exit,
    depth: u32,
    kind: NodeKind,
    parts: Parts,
) -> Result<(), AllocError>
    ensures { OnOk result (edges.new.items ≡ edges.old.items
        ++ rows.to_each exit.entry.node exit.entry.from (spec.targets (reverse exit.entry.frames.now)
        (spec.leaving depth (alone (kind, forest_in parts.entry))))) }
{
    if is_body(kind) {
        return Ok(());
    }
    leave_by(edges, exit, depth, kind, parts)?;
    let within = within(kind, depth)?;
    leave_parts(edges, exit, within, parts)?;
    Ok(())
}

// The jumps out of the parts of a `try` before its last one.
fn leave_try(edges: &mut Vec<FileEdge>, exit: Exit, parts: Parts) -> Result<(), AllocError>
    ensures { OnOk result (edges.new.items ≡ edges.old.items ++ rows.to_each exit.entry.node exit.entry.from
        (spec.targets (reverse exit.entry.frames.now) (spec.leaving 0 (spec.before_finally (forest_in parts.entry))))) }
{
    let bytes = parts.bytes();
    let mut left = parts;
    'parts: loop {
        match left.next() {
            None => return Ok(()),
            Some(Step::Leaf(mark)) => {
                if is_word(b"finally", text_of(bytes, mark)) {
                    return Ok(());
                }
            }
            Some(Step::Child(kind, _, inner)) => leave_node(edges, exit, 0, kind, inner)?,
        }
    }
}

// From the last part, where there is one, to where jumps out of the others go on.
fn leave(
    edges: &mut Vec<FileEdge>,
    node: u32,
    last: &[Piece],
    parts: Parts,
    frames: &[Frame],
) -> Result<(), AllocError>
    ensures { OnOk result (edges.new.items ≡ edges.old.items ++ rows.leave node (stmts (pieces_of last.now))
        (spec.targets (reverse frames.now) (spec.leaving 0 (spec.before_finally (forest_in parts.entry))))) }
{
    match first_of(Which::Stmts, last) {
        None => Ok(()),
        Some(part) => {
            let exit = Exit {
                node,
                from: Point::After(part),
                frames,
            };
            leave_try(edges, exit, parts)?;
            Ok(())
        }
    }
}

/// The parts of a `try` in order, by its pieces and its parts, among what is around it.
pub(crate) fn try_of(
    edges: &mut Vec<FileEdge>,
    node: u32,
    pieces: &[Piece],
    parts: Parts,
    frames: &[Frame],
) -> Result<(), AllocError>
    ensures { OnOk result (edges.new.items ≡ edges.old.items ++ rows.try_of node (pieces_of pieces.now)
        (spec.targets (reverse frames.now) (spec.leaving 0 (spec.before_finally (forest_in parts.entry))))) }
{
    let body = body_of(pieces);
    let catches = catches_of(pieces);
    let last = last_of(pieces);
    let to = first_or(Which::Stmts, last, Point::After(node));
    run(edges, node, Point::Before(node), Which::Stmts, body)?;
    ends(edges, node, body, to)?;
    ends(edges, node, catches, to)?;
    ends(edges, node, last, Point::After(node))?;
    leave(edges, node, last, parts, frames)?;
    Ok(())
}
