// What is around the parts of a `try`.
ghost use Rattle.std.specs.Prelude.{◌≡◌, ◌++◌, [], OnOk, option_to_list, reverse};
ghost use Rattle.program_points.specs.Chosen.{is_stmt, pick as pick_of, pieces_of};
ghost use Rattle.program_points.specs.Edges as spec;
ghost use Rattle.program_points.specs.Pieces.{stmts};
ghost use Rattle.program_points.specs.Walked.{IsAbove, around_in, around_of};

use crate::around::Stacks;
use crate::chains::{next_of, pick};
use crate::frame::{Frame, Handler};
use crate::piece::{Piece, Which};
use std::alloc::AllocError;

/// The parts of a `try` with a number: its body, its `catch` parts and its last part.
#[derive(Clone, Copy)]
pub(crate) struct Tried<'b, 'a> {
    pub(crate) node: u32,
    pub(crate) body: &'b [Piece<'a>],
    pub(crate) catches: &'b [Piece<'a>],
    pub(crate) last: &'b [Piece<'a>],
}

// A part that thrown values may lead to.
fn push_handler(handlers: &mut Vec<Handler>, of: u32, piece: Piece) -> Result<(), AllocError>
    ensures { OnOk result (handlers.new.items ≡ handlers.old.items
        ++ reverse (spec.handlers_of of (option_to_list (pick_of Which.Stmts piece.entry)))) }
{
    match pick(Which::Stmts, piece) {
        None => Ok(()),
        Some(start) => {
            handlers.push(Handler { of, start })?;
            Ok(())
        }
    }
}

// The parts that thrown values may lead to, the first one last.
#[tactic(auto, using(crate::proofs::AroundLemmas::handlers_step, crate::proofs::AroundLemmas::handlers_first))]
fn push_handlers(handlers: &mut Vec<Handler>, of: u32, pieces: &[Piece]) -> Result<(), AllocError>
    ensures { OnOk result (handlers.new.items ≡ handlers.old.items
        ++ reverse (spec.handlers_of of (stmts (pieces_of pieces.now)))) }
{
    let mut count = pieces.len();
    while count > 0 {
        count -= 1;
        push_handler(handlers, of, pieces[count])?;
    }
    Ok(())
}

// The last part, through which jumps go, if there is one.
fn push_finally(frames: &mut Vec<Frame>, last: &[Piece]) -> Result<(), AllocError>
    ensures { OnOk result (frames.new.items ≡ frames.old.items
        ++ spec.through_finally (stmts (pieces_of last.now)) []) }
{
    match next_of(Which::Stmts, last) {
        None => Ok(()),
        Some((part, _)) => {
            frames.push(Frame::Finally(part))?;
            Ok(())
        }
    }
}

// What is around a part of a `try` that has a last part and such later ones.
#[tactic(auto, using(crate::proofs::AroundLemmas::entered, crate::proofs::AroundLemmas::entered_above))]
fn enter(stacks: &mut Stacks, node: u32, parts: &[Piece], last: &[Piece]) -> Result<(), AllocError>
    ensures around { OnOk result (around_of stacks.new
        ≡ spec.before_parts node (stmts (pieces_of parts.now)) (stmts (pieces_of last.now)) (around_of stacks.old)) }
    ensures above { OnOk result (IsAbove stacks.old stacks.new) }
{
    push_finally(&mut stacks.frames, last)?;
    push_handlers(&mut stacks.handlers, node, last)?;
    push_handlers(&mut stacks.handlers, node, parts)?;
    Ok(())
}

// Whether a statement is among some pieces.
#[tactic(auto, using(crate::proofs::AroundLemmas::among_piece))]
fn is_among(number: u32, pieces: &[Piece]) -> bool
    ensures { result ≡ spec.is_among number (stmts (pieces_of pieces.now)) }
{
    let mut left = pieces;
    while let [piece, behind @ ..] = left {
        if is_statement(number, *piece) {
            return true;
        }
        left = behind;
    }
    false
}

// What stands behind a statement.
#[tactic(auto, using(crate::proofs::AroundLemmas::later_piece))]
fn later<'a, 'b>(number: u32, pieces: &'b [Piece<'a>]) -> &'b [Piece<'a>]
    ensures { stmts (pieces_of result.now) ≡ spec.later number (stmts (pieces_of pieces.now)) }
{
    let mut left = pieces;
    while let [piece, behind @ ..] = left {
        if is_statement(number, *piece) {
            return behind;
        }
        left = behind;
    }
    left
}

// Whether a piece is the statement with a number.
fn is_statement(number: u32, piece: Piece) -> bool
    ensures { result ≡ is_stmt number piece.entry }
{
    match piece {
        Piece::Stmt(other) => number == other,
        Piece::Word(_) | Piece::Expr(_) | Piece::Other(_, _, _) => false,
    }
}

/// What is around the part of a `try` with a number.
#[tactic(auto, using(crate::proofs::AroundLemmas::in_body, crate::proofs::AroundLemmas::in_catch, crate::proofs::AroundLemmas::in_none, crate::proofs::AroundLemmas::above_itself))]
pub(crate) fn enter_part(stacks: &mut Stacks, tried: Tried, number: u32) -> Result<(), AllocError>
    ensures around { OnOk result (around_of stacks.new ≡ around_in tried.entry (around_of stacks.old) number) }
    ensures above { OnOk result (IsAbove stacks.old stacks.new) }
{
    if is_among(number, tried.body) {
        enter(stacks, tried.node, tried.catches, tried.last)?;
        return Ok(());
    }
    if is_among(number, tried.catches) {
        enter(stacks, tried.node, later(number, tried.catches), tried.last)?;
        return Ok(());
    }
    Ok(())
}
