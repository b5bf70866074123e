// The resolution of a program's names.
ghost use Rattle.std.specs.Prelude.{◌≡◌, ◌<◌, length, option_copied, IfOk, IfErr, MatchResult};
ghost use Rattle.std.specs.Option.{ForSome};
ghost use Rattle.graph_search.specs.Marks.{AreBelow};
ghost use Rattle.program_names.specs.Entries.{absent, paths_of};
ghost use Rattle.program_names.specs.Table.{table_of};
ghost use Rattle.program_names.specs.Told.{all_told};
ghost use Rattle.program_names.specs.Whole.{files_of};
ghost use Rattle.declared_twice.specs.Asked.{AreEntriesOf};
ghost use Rattle.resolved_names.specs.Refusals.{IsClashFault, IsCycleFault, IsNoFile};
ghost use Rattle.resolved_names.specs.Reads.{AreNames, entries_of, prepend_of};
ghost use Rattle.resolved_names.specs.Resolved.{HasNoCycle, IsDeclaredOnce, IsLaterFault, IsNamesFault, IsResolved, IsUnrefused};

use crate::files::all_names;
use crate::index::indexed;
use crate::names::Names;
use crate::names_fault::NamesFault;
use class_cycles::{first_cycle, other_classes};
use declared_twice::{Entries, EntriesFault, entry_files, first_clash};
use program_names::{Program, Told, program_told};
use span_edits::PathText;
use std::alloc::{AllocError, Global};

// The entries, or the path that no file has.
fn asked_entries(
    alloc: Global,
    program: &Program,
    told: &[Told],
    listed: Option<&[PathText]>,
    prepend: Option<&PathText>,
) -> Result<Entries, NamesFault>
    requires { told.now ≡ all_told (table_of (files_of program.now)) }
    ensures { MatchResult result
        (λ e. AreEntriesOf (files_of program.now) (option_copied listed.entry) (option_copied prepend.entry) e)
        (λ f. IsNoFile (absent (paths_of (files_of program.now)) (option_copied listed.entry) (option_copied prepend.entry)) f) }
{
    match entry_files(alloc, program, told, listed, prepend) {
        Ok(entries) => Ok(entries),
        Err(EntriesFault::NoFile(path)) => Err(NamesFault::NoFile(path)),
        Err(EntriesFault::Memory) => Err(NamesFault::Memory),
    }
}

// Refuses two declarations of one name that one run begins with.
fn check_once(
    alloc: Global,
    program: &Program,
    told: &[Told],
    entries: &[u32],
    prepend: Option<u32>,
) -> Result<(), NamesFault>
    requires told { told.now ≡ all_told (table_of (files_of program.now)) }
    requires entries { AreBelow entries.now (length (files_of program.now)) }
    requires prepend { ForSome prepend (λ p. p < length (files_of program.now)) }
    ensures { MatchResult result
        (λ _. IsDeclaredOnce (paths_of (files_of program.now)) (table_of (files_of program.now)) entries.now prepend)
        (λ f. IsClashFault (paths_of (files_of program.now)) (table_of (files_of program.now)) entries.now prepend f) }
{
    match first_clash(alloc, program, told, entries, prepend) {
        Ok(None) => Ok(()),
        Ok(Some(twice)) => match twice.first.name.text.copy(alloc) {
            Ok(name) => Err(NamesFault::Twice {
                name,
                first: twice.first.at,
                second: twice.second.at,
            }),
            Err(_) => Err(NamesFault::Memory),
        },
        Err(_) => Err(NamesFault::Memory),
    }
}

// Refuses classes that extend one another in a cycle.
fn check_cycles(alloc: Global, program: &Program, told: &[Told]) -> Result<(), NamesFault>
    requires { told.now ≡ all_told (table_of (files_of program.now)) }
    ensures { MatchResult result
        (λ _. HasNoCycle (table_of (files_of program.now)))
        (λ f. IsCycleFault (table_of (files_of program.now)) f) }
{
    let _program = program;
    match first_cycle(alloc, told) {
        Ok(None) => Ok(()),
        Ok(Some(classes)) => Err(NamesFault::Cycle(classes)),
        Err(_) => Err(NamesFault::Memory),
    }
}

// Refuses what one run would declare twice, and then classes in a cycle.
fn check_names(
    alloc: Global,
    program: &Program,
    told: &[Told],
    entries: &[u32],
    prepend: Option<u32>,
) -> Result<(), NamesFault>
    requires told { told.now ≡ all_told (table_of (files_of program.now)) }
    requires entries { AreBelow entries.now (length (files_of program.now)) }
    requires prepend { ForSome prepend (λ p. p < length (files_of program.now)) }
    ensures { MatchResult result
        (λ _. IsDeclaredOnce (paths_of (files_of program.now)) (table_of (files_of program.now)) entries.now prepend
        × HasNoCycle (table_of (files_of program.now)))
        (λ f. IsLaterFault (paths_of (files_of program.now)) (table_of (files_of program.now)) entries.now prepend f) }
{
    check_once(alloc, program, told, entries, prepend)?;
    check_cycles(alloc, program, told)
}

// The same, of entries.
fn check_entries(
    alloc: Global,
    program: &Program,
    told: &[Told],
    listed: Option<&[PathText]>,
    prepend: Option<&PathText>,
    asked: &Entries,
) -> Result<(), NamesFault>
    requires told { told.now ≡ all_told (table_of (files_of program.now)) }
    requires asked { AreEntriesOf (files_of program.now) (option_copied listed) (option_copied prepend) asked.now }
    ensures { MatchResult result
        (λ _. IsDeclaredOnce (paths_of (files_of program.now)) (table_of (files_of program.now)) asked.now.files.items asked.now.prepend
        × HasNoCycle (table_of (files_of program.now)))
        (λ f. IsNamesFault (paths_of (files_of program.now)) (table_of (files_of program.now)) (option_copied listed.entry) (option_copied prepend.entry) f) }
{
    let _listed = listed;
    let _prepend = prepend;
    check_names(alloc, program, told, asked.files.as_slice(), asked.prepend)
}

// Whether the names of a program whose files tell this are refused.
fn checked_told(
    alloc: Global,
    program: &Program,
    told: &[Told],
    entries: Option<&[PathText]>,
    prepend: Option<&PathText>,
) -> Result<(), NamesFault>
    requires { told.now ≡ all_told (table_of (files_of program.now)) }
    ensures unrefused { IfOk result (λ _. IsUnrefused (paths_of (files_of program.now)) (table_of (files_of program.now)) (option_copied entries.entry) (option_copied prepend.entry)) }
    ensures refused { IfErr result (λ e. IsNamesFault (paths_of (files_of program.now)) (table_of (files_of program.now)) (option_copied entries.entry) (option_copied prepend.entry) e) }
{
    let asked = asked_entries(alloc, program, told, entries, prepend)?;
    check_entries(alloc, program, told, entries, prepend, &asked)?;
    Ok(())
}

/// Whether the names of a program are refused.
pub(crate) fn checked(
    alloc: Global,
    program: &Program,
    entries: Option<&[PathText]>,
    prepend: Option<&PathText>,
) -> Result<(), NamesFault>
    ensures unrefused { IfOk result (λ _. IsUnrefused (paths_of (files_of program.now)) (table_of (files_of program.now)) (option_copied entries.entry) (option_copied prepend.entry)) }
    ensures refused { IfErr result (λ e. IsNamesFault (paths_of (files_of program.now)) (table_of (files_of program.now)) (option_copied entries.entry) (option_copied prepend.entry) e) }
{
    let told = program_told(alloc, program)?;
    checked_told(alloc, program, told.as_slice(), entries, prepend)
}

// The names of a program with some entries.
fn built(
    alloc: Global,
    program: &Program,
    told: &[Told],
    asked: Entries,
) -> Result<Names, AllocError>
    requires { told.now ≡ all_told (table_of (files_of program.now)) }
    ensures entries { IfOk result (λ ns. entries_of ns ≡ asked.files.items) }
    ensures prepend { IfOk result (λ ns. prepend_of ns ≡ asked.prepend) }
    ensures names { IfOk result (λ ns. AreNames ns (table_of (files_of program.now))) }
{
    let index = indexed(alloc, told)?;
    let others = other_classes(alloc, told)?;
    let all = all_names(alloc, program, &index, told, others.as_slice())?;
    Ok(Names {
        index,
        files: all.files,
        slots: all.slots,
        entries: asked.files,
        prepend: asked.prepend,
    })
}

// The names of a program whose files tell this, or the first refusal that stands.
fn resolved_told(
    alloc: Global,
    program: &Program,
    told: &[Told],
    entries: Option<&[PathText]>,
    prepend: Option<&PathText>,
) -> Result<Names, NamesFault>
    requires { told.now ≡ all_told (table_of (files_of program.now)) }
    ensures resolved { IfOk result (λ ns. IsResolved (paths_of (files_of program.now)) (table_of (files_of program.now)) (option_copied entries.entry) (option_copied prepend.entry) ns) }
    ensures refused { IfErr result (λ e. IsNamesFault (paths_of (files_of program.now)) (table_of (files_of program.now)) (option_copied entries.entry) (option_copied prepend.entry) e) }
{
    let asked = asked_entries(alloc, program, told, entries, prepend)?;
    check_entries(alloc, program, told, entries, prepend, &asked)?;
    let names = built(alloc, program, told, asked)?;
    Ok(names)
}

/// The names of a program, or the first refusal that stands.
pub(crate) fn resolved(
    alloc: Global,
    program: &Program,
    entries: Option<&[PathText]>,
    prepend: Option<&PathText>,
) -> Result<Names, NamesFault>
    ensures resolved { IfOk result (λ ns. IsResolved (paths_of (files_of program.now)) (table_of (files_of program.now)) (option_copied entries.entry) (option_copied prepend.entry) ns) }
    ensures refused { IfErr result (λ e. IsNamesFault (paths_of (files_of program.now)) (table_of (files_of program.now)) (option_copied entries.entry) (option_copied prepend.entry) e) }
{
    let told = program_told(alloc, program)?;
    resolved_told(alloc, program, told.as_slice(), entries, prepend)
}
