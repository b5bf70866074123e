// Names that one run would declare twice.
ghost use Rattle.std.specs.Prelude.{◌≡◌, ◌<◌, ◌+◌, false, length, IfOk, OnOk};
ghost use Rattle.std.specs.Option.{ForSome};
ghost use Rattle.graph_search.specs.Graph.{graph_of};
ghost use Rattle.graph_search.specs.Marks.{AreBelow};
ghost use Rattle.program_names.specs.Table.{table_of};
ghost use Rattle.program_names.specs.Told.{all_told};
ghost use Rattle.program_names.specs.Whole.{files_of};
ghost use Rattle.declared_twice.specs.FirstPair.{IsFirstPair};
ghost use Rattle.declared_twice.specs.FirstTwice.{IsFirstOf, IsFirstTwice};
ghost use Rattle.declared_twice.specs.Keys.{AreInFiles, AreNext, ClashAt, HasKey, HasNoNext, IsMetAt, Key, lent};
ghost use Rattle.declared_twice.specs.Later.{IsFirstAt};
ghost use Rattle.declared_twice.specs.Runs.{AreMet, AreRuns};

use crate::declaring::{declaration_at, declared};
use crate::keys::next_same;
use crate::later::value_at;
use crate::marks::is_marked;
use crate::meeting::{Met, met_with};
use crate::running::{Runs, run_graphs};
use crate::twice::Twice;
use program_names::{Declaration, Program, Told};
use std::alloc::{AllocError, Global};

// The first declaration in a file that is marked, among one and the next ones of its name.
fn first_met(
    later: &[Option<usize>],
    declared: &[&Declaration],
    marks: &[bool],
    first: usize,
) -> Option<usize>
    requires next { AreNext (lent declared.now) later.now }
    requires files { AreInFiles (length marks.now) (lent declared.now) }
    requires first { first < length declared.now }
    ensures { (k : Key) → HasKey (lent declared.now) k first
        → IsFirstAt (IsMetAt (lent declared.now) marks.now k) first result }
{
    let mut place = first;
    loop {
        if is_marked(marks, declaration_at(declared, place).at.file) {
            return Some(place);
        }
        match value_at(later, place) {
            Some(next) => place = next,
            None => return None,
        }
    }
}

// The first later declaration that clashes with the one at a place. What runs reach together with a file is kept for
// the next declaration of that file.
fn second_at(
    alloc: Global,
    runs: &Runs,
    entries: &[u32],
    declared: &[&Declaration],
    later: &[Option<usize>],
    place: usize,
    known: &mut Option<Met>,
) -> Result<Option<usize>, AllocError>
    requires runs { AreRuns (graph_of runs.now.next.items) (graph_of runs.now.before.items) entries.now }
    requires next { AreNext (lent declared.now) later.now }
    requires files { AreInFiles (length (graph_of runs.now.next.items)) (lent declared.now) }
    requires place { place < length declared.now }
    requires known { ForSome known.old (λ m. AreMet (graph_of runs.now.next.items) entries.now m.file m.marks.items) }
    ensures second { IfOk result (λ o. IsFirstAt
        (ClashAt (lent declared.now) (graph_of runs.now.next.items) entries.now place) (place + 1) o) }
    ensures known { OnOk result
        (ForSome known.new (λ m. AreMet (graph_of runs.now.next.items) entries.now m.file m.marks.items)) }
{
    let next = match value_at(later, place) {
        Some(next) => next,
        None => return Ok(None),
    };
    let file = declaration_at(declared, place).at.file;
    let met = met_with(alloc, runs, entries, file, known.take())?;
    let second = first_met(later, declared, met.marks.as_slice(), next);
    *known = Some(met);
    Ok(second)
}

// The first two declarations that clash.
fn first_pair(
    alloc: Global,
    runs: &Runs,
    entries: &[u32],
    declared: &[&Declaration],
    later: &[Option<usize>],
) -> Result<Option<(usize, usize)>, AllocError>
    requires runs { AreRuns (graph_of runs.now.next.items) (graph_of runs.now.before.items) entries.now }
    requires next { AreNext (lent declared.now) later.now }
    requires files { AreInFiles (length (graph_of runs.now.next.items)) (lent declared.now) }
    ensures { IfOk result (λ o. IsFirstPair
        (ClashAt (lent declared.now) (graph_of runs.now.next.items) entries.now) o) }
{
    let mut known = None;
    for place in 0..declared.len() {
        let second = second_at(alloc, runs, entries, declared, later, place, &mut known)?;
        match second {
            Some(later_one) => return Ok(Some((place, later_one))),
            None => continue,
        }
    }
    Ok(None)
}

// The first two declarations that clash, themselves.
fn first_twice<'a>(
    alloc: Global,
    runs: &Runs,
    entries: &[u32],
    declared: &[&'a Declaration],
    later: &[Option<usize>],
) -> Result<Option<Twice<'a>>, AllocError>
    requires runs { AreRuns (graph_of runs.now.next.items) (graph_of runs.now.before.items) entries.now }
    requires next { AreNext (lent declared.now) later.now }
    requires files { AreInFiles (length (graph_of runs.now.next.items)) (lent declared.now) }
    ensures { IfOk result (λ o. IsFirstOf (lent declared.now)
        (ClashAt (lent declared.now) (graph_of runs.now.next.items) entries.now) o) }
{
    let pair = first_pair(alloc, runs, entries, declared, later)?;
    match pair {
        Some((one, other)) => Ok(Some(Twice {
            first: declaration_at(declared, one),
            second: declaration_at(declared, other),
        })),
        None => Ok(None),
    }
}

// Whether a declaration has a next one of its name.
fn has_next(later: &[Option<usize>]) -> bool
    ensures { result ≡ false → HasNoNext later.now }
{
    for place in 0..later.len() {
        if value_at(later, place).is_some() {
            return true;
        }
    }
    false
}

/// The first two unconditional declarations of one function, class or constant that one run begins with, by the first
/// and then the second in the order of paths and places; none exactly where there are no two. Told is what the files of
/// the program tell; a run reaches what its entry includes, and what the file before each entry includes. The only
/// error is want of memory.
pub fn first_clash<'a>(
    alloc: Global,
    program: &Program,
    told: &'a [Told],
    entries: &[u32],
    prepend: Option<u32>,
) -> Result<Option<Twice<'a>>, AllocError>
    requires told { told.now ≡ all_told (table_of (files_of program.now)) }
    requires entries { AreBelow entries.now (length (files_of program.now)) }
    requires prepend { ForSome prepend (λ p. p < length (files_of program.now)) }
    ensures { IfOk result (λ o. IsFirstTwice (files_of program.now) entries.now prepend o) }
{
    let all = declared(alloc, told)?;
    let later = next_same(alloc, all.as_slice())?;
    if !has_next(later.as_slice()) {
        return Ok(None);
    }
    let graph = run_graphs(alloc, program, told, entries, prepend)?;
    let twice = first_twice(alloc, &graph, entries, all.as_slice(), later.as_slice())?;
    Ok(twice)
}
