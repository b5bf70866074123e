// Edges of `switch`.
ghost use Rattle.std.specs.Prelude.{◌≡◌, ◌++◌, ◌∷◌, [], IfOk, OnOk, reverse};
ghost use Rattle.program_points.specs.Chosen.{default_behind, piece_to, pieces_of};
ghost use Rattle.program_points.specs.Pieces.{end, stmts};
ghost use Rattle.program_points.specs.Rows as rows;

use crate::case::{Case, Entry};
use crate::chains::{add, chain, first_of, next_of, run};
use crate::file_edge::FileEdge;
use crate::kinds::is_case;
use crate::piece::{Piece, Which};
use crate::point::Point;
use crate::reading::{read, read_inner};
use std::alloc::{AllocError, Global};

// A case by its pieces.
fn case_of(pieces: &[Piece]) -> Case
    ensures { result ≡ rows.case_of (pieces_of pieces.now) }
{
    Case {
        value: first_of(Which::Exprs, pieces),
        first: first_of(Which::Stmts, pieces),
    }
}

// A case behind others, if a piece is one.
fn add_case<'a>(
    cases: &mut Vec<Case>,
    inner: &mut Vec<Piece<'a>>,
    piece: Piece<'a>,
) -> Result<(), AllocError>
    ensures { OnOk result (cases.new.items ≡ cases.old.items ++ rows.cases (piece_to piece.entry end)) }
{
    match piece {
        Piece::Word(_) | Piece::Expr(_) | Piece::Stmt(_) => Ok(()),
        Piece::Other(kind, _, parts) => {
            if !is_case(kind) {
                return Ok(());
            }
            read(inner, parts)?;
            cases.push(case_of(inner.as_slice()))?;
            Ok(())
        }
    }
}

// The cases among some pieces, in order.
#[tactic(auto, using(crate::proofs::SwitchLemmas::cases_piece))]
fn cases_of<'a>(alloc: Global, pieces: &[Piece<'a>]) -> Result<Vec<Case>, AllocError>
    ensures { IfOk result (λ cs. cs.items ≡ rows.cases (pieces_of pieces.now)) }
{
    let mut cases = Vec::new(alloc);
    let mut inner = Vec::new(alloc);
    let mut left = pieces;
    while let [piece, behind @ ..] = left {
        add_case(&mut cases, &mut inner, *piece)?;
        left = behind;
    }
    Ok(cases)
}

// Where evaluation goes on from the front of a case before others.
fn start(case: Case, behind: Point) -> Point
    ensures { result ≡ rows.before_or case.first behind }
{
    match case.first {
        None => behind,
        Some(first) => Point::Before(first),
    }
}

// The cases with where each goes on from its front, the last one first.
#[tactic(auto, using(crate::proofs::SwitchLemmas::entries_pop))]
fn entries_of(alloc: Global, node: u32, cases: Vec<Case>) -> Result<Vec<Entry>, AllocError>
    ensures { IfOk result (λ es. reverse es.items ≡ rows.entries cases.items (Point.After node)) }
{
    let mut left = cases;
    let mut at = Point::After(node);
    let mut entries = Vec::new(alloc);
    while let Some(case) = left.pop() {
        at = start(case, at);
        entries.push(Entry {
            value: case.value,
            start: at,
        })?;
    }
    Ok(entries)
}

// The test of a case, if it has a value.
fn test(
    edges: &mut Vec<FileEdge>,
    node: u32,
    from: Point,
    entry: Entry,
) -> Result<Point, AllocError>
    ensures edges { OnOk result (edges.new.items ≡ edges.old.items ++ rows.tests node from (entry ∷ [])) }
    ensures from { IfOk result (λ p. p ≡ rows.untested from (entry ∷ [])) }
{
    match entry.value {
        None => Ok(from),
        Some(value) => {
            add(edges, node, from, Point::Before(value))?;
            add(edges, node, Point::After(value), entry.start)?;
            Ok(Point::After(value))
        }
    }
}

// Where evaluation goes on if no value was the subject's: at the first default.
fn default_of(found: Option<Point>, entry: Entry) -> Option<Point>
    ensures { result ≡ default_behind found (entry ∷ []) }
{
    match found {
        Some(point) => Some(point),
        None => match entry.value {
            Some(_) => None,
            None => Some(entry.start),
        },
    }
}

// The tests of some cases, the last one first, and the step behind them.
#[tactic(auto, using(crate::proofs::SwitchLemmas::tests_pop, crate::proofs::SwitchLemmas::untested_pop, crate::proofs::SwitchLemmas::default_pop))]
fn test_all(
    edges: &mut Vec<FileEdge>,
    node: u32,
    from: Point,
    entries: Vec<Entry>,
) -> Result<(), AllocError>
    ensures { OnOk result (edges.new.items ≡ edges.old.items ++ (rows.tests node from (reverse entries.items)
        ++ rows.edge node (rows.untested from (reverse entries.items)) (rows.default_start
        (reverse entries.items) (Point.After node)))) }
{
    let mut left = entries;
    let mut at = from;
    let mut default = None;
    while let Some(entry) = left.pop() {
        at = test(edges, node, at, entry)?;
        default = default_of(default, entry);
    }
    add(edges, node, at, default.unwrap_or(Point::After(node)))?;
    Ok(())
}

// The statements of a case, behind others.
fn add_statements<'a>(all: &mut Vec<Piece<'a>>, piece: Piece<'a>) -> Result<(), AllocError>
    ensures { OnOk result (stmts (pieces_of all.new.items) ≡ stmts (pieces_of all.old.items)
        ++ rows.all_statements (piece_to piece.entry end)) }
{
    match piece {
        Piece::Word(_) | Piece::Expr(_) | Piece::Stmt(_) => Ok(()),
        Piece::Other(kind, _, parts) => {
            if !is_case(kind) {
                return Ok(());
            }
            read_inner(all, parts)?;
            Ok(())
        }
    }
}

// The statements of all cases.
#[tactic(auto, using(crate::proofs::SwitchLemmas::statements_piece))]
fn statements_of<'a>(alloc: Global, pieces: &[Piece<'a>]) -> Result<Vec<Piece<'a>>, AllocError>
    ensures { IfOk result (λ all. stmts (pieces_of all.items) ≡ rows.all_statements (pieces_of pieces.now)) }
{
    let mut all = Vec::new(alloc);
    let mut left = pieces;
    while let [piece, behind @ ..] = left {
        add_statements(&mut all, *piece)?;
        left = behind;
    }
    Ok(all)
}

// From the first on, each statement goes on to the next.
fn falls(edges: &mut Vec<FileEdge>, node: u32, pieces: &[Piece]) -> Result<(), AllocError>
    ensures { OnOk result (edges.new.items ≡ edges.old.items
        ++ rows.falls node (stmts (pieces_of pieces.now)) (Point.After node)) }
{
    match next_of(Which::Stmts, pieces) {
        None => Ok(()),
        Some((first, behind)) => {
            chain(
                edges,
                node,
                Point::After(first),
                Which::Stmts,
                behind,
                Point::After(node),
            )?;
            Ok(())
        }
    }
}

/// The subject, the values in turn, and the statements of each case.
pub(crate) fn switch_of<'a>(
    alloc: Global,
    edges: &mut Vec<FileEdge>,
    node: u32,
    pieces: &[Piece<'a>],
) -> Result<(), AllocError>
    ensures { OnOk result (edges.new.items ≡ edges.old.items ++ rows.switch_of node (pieces_of pieces.now)) }
{
    let from = run(edges, node, Point::Before(node), Which::Exprs, pieces)?;
    let cases = cases_of(alloc, pieces)?;
    let entries = entries_of(alloc, node, cases)?;
    test_all(edges, node, from, entries)?;
    let statements = statements_of(alloc, pieces)?;
    falls(edges, node, statements.as_slice())?;
    Ok(())
}
