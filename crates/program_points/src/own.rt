// The edges of a node's own.
ghost use Rattle.std.specs.Prelude.{◌≡◌, ◌++◌, OnOk, reverse};
ghost use Rattle.php_rows.specs.Reading.{forest_in};
ghost use Rattle.program_points.specs.Chosen.{pieces_of};
ghost use Rattle.program_points.specs.Edges as spec;

use crate::branches::branches;
use crate::chains::{add, in_order, run};
use crate::declaring::{declared, statics_of, then_body};
use crate::expressions::{by_operator, maybe_second, one_of_two, until_missing};
use crate::file_edge::FileEdge;
use crate::flow::Flow;
use crate::frame::Frame;
use crate::jumps::jump;
use crate::levels::level_of;
use crate::loops::{do_loop, for_of, foreach_of, while_loop};
use crate::piece::{Piece, Which};
use crate::point::Point;
use crate::switch::switch_of;
use crate::tries::try_of;
use php_rows::Parts;
use std::alloc::{AllocError, Global};

/// The edges of a node's own, by how evaluation runs through it, its parts and its pieces, among what is around it, the
/// innermost last. The only error is want of memory.
pub(crate) fn own_edges<'a>(
    alloc: Global,
    edges: &mut Vec<FileEdge>,
    flow: Flow,
    node: u32,
    parts: Parts<'a>,
    pieces: &[Piece<'a>],
    frames: &[Frame],
) -> Result<(), AllocError>
    ensures { OnOk result (edges.new.items ≡ edges.old.items
        ++ spec.by_flow flow node (forest_in parts.entry) (pieces_of pieces.now) (reverse frames.now)) }
{
    let start = Point::Before(node);
    match flow {
        Flow::InOrder => in_order(edges, node, Which::Steps, pieces),
        Flow::Ends => {
            run(edges, node, start, Which::Steps, pieces)?;
            Ok(())
        }
        Flow::Nowhere => Ok(()),
        Flow::Alone => add(edges, node, start, Point::After(node)),
        Flow::Branches => branches(edges, node, pieces),
        Flow::While => while_loop(edges, node, pieces),
        Flow::DoWhile => do_loop(edges, node, pieces),
        Flow::For => for_of(edges, node, pieces),
        Flow::Foreach => foreach_of(edges, node, pieces),
        Flow::Switch => switch_of(alloc, edges, node, pieces),
        Flow::Try => try_of(edges, node, pieces, parts, frames),
        Flow::Break => jump(edges, node, start, true, level_of(parts), frames),
        Flow::Continue => jump(edges, node, start, false, level_of(parts), frames),
        Flow::Statics => statics_of(edges, node, pieces),
        Flow::Function => declared(alloc, edges, node, Which::Stmts, pieces),
        Flow::Arrow => declared(alloc, edges, node, Which::Exprs, pieces),
        Flow::Method => then_body(alloc, edges, node, Which::Stmts, pieces),
        Flow::Ternary => one_of_two(edges, node, Which::Exprs, pieces),
        Flow::Second => maybe_second(edges, node, Which::Exprs, pieces),
        Flow::Isset => until_missing(edges, node, Which::Exprs, pieces),
        Flow::Operator => by_operator(edges, node, pieces),
    }
}
