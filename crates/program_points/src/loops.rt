// Edges of loops.
ghost use Rattle.std.specs.Prelude.{◌≡◌, ◌++◌, OnOk, []};
ghost use Rattle.program_points.specs.Chosen.{pieces_of};
ghost use Rattle.program_points.specs.Pieces.{exprs, stmts};
ghost use Rattle.program_points.specs.Rows as rows;
ghost use Rattle.program_points.specs.Rows.{head_of};

use crate::chains::{add, first_of, first_or, last_or, next_of, run};
use crate::file_edge::FileEdge;
use crate::piece::{Piece, Which};
use crate::point::Point;
use crate::words::{behind, has_word, up_to};
use std::alloc::AllocError;

/// The condition, then the statements, and again.
pub(crate) fn while_loop(
    edges: &mut Vec<FileEdge>,
    node: u32,
    pieces: &[Piece],
) -> Result<(), AllocError>
    ensures { OnOk result (edges.new.items ≡ edges.old.items
        ++ rows.while_loop node (exprs (pieces_of pieces.now)) (stmts (pieces_of pieces.now))) }
{
    let start = Point::Before(node);
    let body = first_or(Which::Stmts, pieces, start);
    let again = first_or(Which::Exprs, pieces, body);
    let tested = run(edges, node, start, Which::Exprs, pieces)?;
    let passed = run(edges, node, tested, Which::Stmts, pieces)?;
    add(edges, node, passed, again)?;
    add(edges, node, tested, Point::After(node))?;
    Ok(())
}

/// The statements, then the condition, and again.
pub(crate) fn do_loop(
    edges: &mut Vec<FileEdge>,
    node: u32,
    pieces: &[Piece],
) -> Result<(), AllocError>
    ensures { OnOk result (edges.new.items ≡ edges.old.items
        ++ rows.do_loop node (stmts (pieces_of pieces.now)) (exprs (pieces_of pieces.now))) }
{
    let start = Point::Before(node);
    let test = first_or(Which::Exprs, pieces, start);
    let again = first_or(Which::Stmts, pieces, test);
    let passed = run(edges, node, start, Which::Stmts, pieces)?;
    let end = run(edges, node, passed, Which::Exprs, pieces)?;
    add(edges, node, end, again)?;
    let tested = last_or(Which::Exprs, pieces, start);
    add(edges, node, tested, Point::After(node))?;
    Ok(())
}

// The way on from a test, where there is one.
fn exit_of(edges: &mut Vec<FileEdge>, node: u32, tests: &[Piece]) -> Result<(), AllocError>
    ensures { OnOk result (edges.new.items ≡ edges.old.items ++ rows.exit_of node (exprs (pieces_of tests.now))) }
{
    match next_of(Which::Exprs, tests) {
        None => Ok(()),
        Some((test, behind)) => {
            let last = last_or(Which::Exprs, behind, Point::After(test));
            add(edges, node, last, Point::After(node))?;
            Ok(())
        }
    }
}

// The first step that a `for` repeats: of its conditions, its statements, or its last part.
#[tactic(auto, using(crate::proofs::ChainLemmas::head_append))]
fn repeated(tests: &[Piece], statements: &[Piece], steps: &[Piece]) -> Option<u32>
    ensures { result ≡ head_of (exprs (pieces_of tests.now)
        ++ stmts (pieces_of statements.now) ++ exprs (pieces_of steps.now)) }
{
    match first_of(Which::Exprs, tests) {
        Some(first) => Some(first),
        None => match first_of(Which::Stmts, statements) {
            Some(first) => Some(first),
            None => first_of(Which::Exprs, steps),
        },
    }
}

// First ones; then conditions, statements and steps, and again.
fn for_loop(
    edges: &mut Vec<FileEdge>,
    node: u32,
    first: &[Piece],
    tests: &[Piece],
    statements: &[Piece],
    steps: &[Piece],
) -> Result<(), AllocError>
    ensures { OnOk result (edges.new.items ≡ edges.old.items ++ rows.for_loop node (exprs (pieces_of first.now))
        (exprs (pieces_of tests.now)) (stmts (pieces_of statements.now)) (exprs (pieces_of steps.now))) }
{
    let begun = run(edges, node, Point::Before(node), Which::Exprs, first)?;
    let again = match repeated(tests, statements, steps) {
        None => return Ok(()),
        Some(again) => again,
    };
    let tested = run(edges, node, begun, Which::Exprs, tests)?;
    let passed = run(edges, node, tested, Which::Stmts, statements)?;
    let stepped = run(edges, node, passed, Which::Exprs, steps)?;
    add(edges, node, stepped, Point::Before(again))?;
    exit_of(edges, node, tests)?;
    Ok(())
}

/// The three parts of a `for`, and its statements.
pub(crate) fn for_of(
    edges: &mut Vec<FileEdge>,
    node: u32,
    pieces: &[Piece],
) -> Result<(), AllocError>
    ensures { OnOk result (edges.new.items ≡ edges.old.items ++ rows.for_of node (pieces_of pieces.now)) }
{
    let rest = behind(b";", pieces);
    let tests = up_to(b";", rest);
    let steps = behind(b";", rest);
    for_loop(edges, node, up_to(b";", pieces), tests, pieces, steps)?;
    Ok(())
}

/// The targets of a `foreach`, in the order in which they are written.
pub(crate) fn targets<'a, 'b>(pieces: &'b [Piece<'a>]) -> (&'b [Piece<'a>], &'b [Piece<'a>])
    ensures { exprs (pieces_of result.0.now)
        ++ exprs (pieces_of result.1.now) ++ stmts (pieces_of pieces.now) ≡ rows.passes (pieces_of pieces.now) }
{
    let all = behind(b"as", pieces);
    if has_word(b"=>", all) {
        return (behind(b"=>", all), up_to(b"=>", all));
    }
    (all, none_of(all))
}

// No pieces.
fn none_of<'a, 'b>(pieces: &'b [Piece<'a>]) -> &'b [Piece<'a>]
    ensures { result.now ≡ [] }
{
    let (none, _) = pieces.split_at(0);
    none
}

/// The subject, and then each pass.
pub(crate) fn foreach_of(
    edges: &mut Vec<FileEdge>,
    node: u32,
    pieces: &[Piece],
) -> Result<(), AllocError>
    ensures { OnOk result (edges.new.items ≡ edges.old.items ++ rows.foreach_of node (pieces_of pieces.now)) }
{
    let subject = up_to(b"as", pieces);
    let (value, key) = targets(pieces);
    let begun = run(edges, node, Point::Before(node), Which::Exprs, subject)?;
    let again = match first_pass(value, key, pieces) {
        None => {
            add(edges, node, begun, Point::After(node))?;
            return Ok(());
        }
        Some(again) => again,
    };
    let written = run(edges, node, begun, Which::Exprs, value)?;
    let ready = run(edges, node, written, Which::Exprs, key)?;
    let passed = run(edges, node, ready, Which::Stmts, pieces)?;
    add(edges, node, passed, Point::Before(again))?;
    add(edges, node, begun, Point::After(node))?;
    add(edges, node, passed, Point::After(node))?;
    Ok(())
}

/// The first step of a pass of a `foreach`: of its targets, or of its statements.
#[tactic(auto, using(crate::proofs::ChainLemmas::head_append))]
pub(crate) fn first_pass(value: &[Piece], key: &[Piece], statements: &[Piece]) -> Option<u32>
    ensures { result ≡ head_of (exprs (pieces_of value.now)
        ++ exprs (pieces_of key.now) ++ stmts (pieces_of statements.now)) }
{
    match first_of(Which::Exprs, value) {
        Some(first) => Some(first),
        None => match first_of(Which::Exprs, key) {
            Some(first) => Some(first),
            None => first_of(Which::Stmts, statements),
        },
    }
}
