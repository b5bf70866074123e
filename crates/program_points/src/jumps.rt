// Edges of jumps.
ghost use Rattle.std.specs.Prelude.{◌≡◌, ◌++◌, OnOk, reverse};
ghost use Rattle.program_points.specs.Rows as rows;

use crate::chains::add;
use crate::file_edge::FileEdge;
use crate::frame::{Again, Frame};
use crate::point::Point;
use std::alloc::AllocError;

// To where `continue` goes on.
fn to_each(
    edges: &mut Vec<FileEdge>,
    node: u32,
    from: Point,
    again: Again,
) -> Result<(), AllocError>
    ensures { OnOk result (edges.new.items ≡ edges.old.items ++ rows.to_each node from (rows.ways again)) }
{
    match again {
        Again::Nowhere => Ok(()),
        Again::To(point) => {
            add(edges, node, from, point)?;
            Ok(())
        }
        Again::Either(first, second) => {
            add(edges, node, from, first)?;
            add(edges, node, from, second)?;
            Ok(())
        }
    }
}

// To where a jump goes on that aims at a loop.
fn land(
    edges: &mut Vec<FileEdge>,
    node: u32,
    from: Point,
    is_break: bool,
    out: Point,
    again: Again,
) -> Result<(), AllocError>
    ensures { OnOk result (edges.new.items ≡ edges.old.items
        ++ rows.to_each node from (rows.landing is_break out again)) }
{
    if is_break {
        add(edges, node, from, out)?;
        return Ok(());
    }
    to_each(edges, node, from, again)?;
    Ok(())
}

/// To where a jump over so many loops goes on, the innermost of what is around it last.
#[tactic(auto, using(crate::proofs::TryLemmas::jump_here, crate::proofs::TryLemmas::jump_over, crate::proofs::TryLemmas::last_frame))]
pub(crate) fn jump(
    edges: &mut Vec<FileEdge>,
    node: u32,
    from: Point,
    is_break: bool,
    level: u32,
    frames: &[Frame],
) -> Result<(), AllocError>
    ensures { OnOk result (edges.new.items ≡ edges.old.items
        ++ rows.to_each node from (rows.jump is_break level (reverse frames.now))) }
{
    let mut level = level;
    let mut count = frames.len();
    while count > 0 {
        count -= 1;
        match frames[count] {
            Frame::Finally(part) => {
                add(edges, node, from, Point::Before(part))?;
                return Ok(());
            }
            Frame::Loop(out, again) => {
                if level <= 1 {
                    land(edges, node, from, is_break, out, again)?;
                    return Ok(());
                }
                level -= 1;
            }
        }
    }
    Ok(())
}
