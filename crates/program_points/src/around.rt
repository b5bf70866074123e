// What is around a node, as a walk over a file has it.
ghost use Rattle.std.specs.Prelude.{◌≡◌, [], OnOk, length, take};
ghost use Rattle.program_points.specs.Chosen.{pieces_of};
ghost use Rattle.program_points.specs.Edges as spec;
ghost use Rattle.program_points.specs.Pieces.{exprs};
ghost use Rattle.program_points.specs.Rows as rows;
ghost use Rattle.program_points.specs.Walked.{IsAbove, around_of};

use crate::chains::first_or;
use crate::flow::Flow;
use crate::frame::{Again, Frame, Handler};
use crate::loops::{first_pass, targets};
use crate::piece::{Piece, Which};
use crate::point::Point;
use crate::words::{behind, up_to};
use std::alloc::{AllocError, Global};

/// What jumps and thrown values may lead to, the innermost last.
#[derive(Drop)]
pub(crate) struct Stacks {
    pub(crate) frames: Vec<Frame>,
    pub(crate) handlers: Vec<Handler>,
}

/// Nothing, at the start of a body.
pub(crate) fn nothing(alloc: Global) -> Stacks
    ensures frames { result.frames.items ≡ [] }
    ensures handlers { result.handlers.items ≡ [] }
{
    Stacks {
        frames: Vec::new(alloc),
        handlers: Vec::new(alloc),
    }
}

/// How high the two stacks are.
pub(crate) fn heights(stacks: &Stacks) -> (usize, usize)
    ensures frames { result.0 ≡ length stacks.now.frames.items }
    ensures handlers { result.1 ≡ length stacks.now.handlers.items }
{
    (stacks.frames.len(), stacks.handlers.len())
}

/// What stands higher is taken off.
pub(crate) fn lower(stacks: &mut Stacks, heights: (usize, usize))
    ensures frames { stacks.new.frames.items ≡ take heights.0 stacks.old.frames.items }
    ensures handlers { stacks.new.handlers.items ≡ take heights.1 stacks.old.handlers.items }
{
    stacks.frames.truncate(heights.0);
    stacks.handlers.truncate(heights.1);
}

/// In a loop, if there is one. The only error is want of memory.
#[tactic(auto, using(crate::proofs::AroundLemmas::loop_on, crate::proofs::AroundLemmas::loop_above, crate::proofs::AroundLemmas::above_itself))]
pub(crate) fn enter_loop(stacks: &mut Stacks, frame: Option<Frame>) -> Result<(), AllocError>
    ensures around { OnOk result (around_of stacks.new ≡ spec.in_loop frame (around_of stacks.old)) }
    ensures above { OnOk result (IsAbove stacks.old stacks.new) }
{
    match frame {
        None => Ok(()),
        Some(frame) => {
            stacks.frames.push(frame)?;
            Ok(())
        }
    }
}

// Where `continue` goes on in a `for`.
fn for_again(pieces: &[Piece]) -> Again
    ensures { result ≡ spec.for_again (pieces_of pieces.now) }
{
    let rest = behind(b";", pieces);
    match first_pass(behind(b";", rest), up_to(b";", rest), pieces) {
        None => Again::Nowhere,
        Some(first) => Again::To(Point::Before(first)),
    }
}

// Where it does in a `foreach`.
fn foreach_again(node: u32, pieces: &[Piece]) -> Again
    ensures { result ≡ spec.foreach_again node (pieces_of pieces.now) }
{
    let (value, key) = targets(pieces);
    match first_pass(value, key, pieces) {
        None => Again::To(Point::After(node)),
        Some(first) => Again::Either(Point::Before(first), Point::After(node)),
    }
}

// A loop that goes on at its condition.
fn tested(node: u32, pieces: &[Piece]) -> Frame
    ensures { result ≡ Frame.Loop (Point.After node) (Again.To (rows.first_or (exprs (pieces_of pieces.now))
        (Point.Before node))) }
{
    let test = first_or(Which::Exprs, pieces, Point::Before(node));
    Frame::Loop(Point::After(node), Again::To(test))
}

/// The loop or switch that a node is to the jumps inside it.
pub(crate) fn loop_of(flow: Flow, node: u32, pieces: &[Piece]) -> Option<Frame>
    ensures { result ≡ spec.loop_of flow node (pieces_of pieces.now) }
{
    let out = Point::After(node);
    match flow {
        Flow::While | Flow::DoWhile => Some(tested(node, pieces)),
        Flow::For => Some(Frame::Loop(out, for_again(pieces))),
        Flow::Foreach => Some(Frame::Loop(out, foreach_again(node, pieces))),
        Flow::Switch => Some(Frame::Loop(out, Again::To(out))),
        Flow::InOrder
        | Flow::Ends
        | Flow::Nowhere
        | Flow::Alone
        | Flow::Branches
        | Flow::Try
        | Flow::Break
        | Flow::Continue
        | Flow::Statics
        | Flow::Function
        | Flow::Arrow
        | Flow::Method
        | Flow::Ternary
        | Flow::Second
        | Flow::Isset
        | Flow::Operator => None,
    }
}
