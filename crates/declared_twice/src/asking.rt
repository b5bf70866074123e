// The entries of a program.
ghost use Rattle.std.specs.Prelude.{◌≡◌, Some, slice_get, option_copied, MatchResult};
ghost use Rattle.program_names.specs.Entries.{AreFiles, IsPrepend, absent, first_absent, paths_of};
ghost use Rattle.program_names.specs.Table.{table_of};
ghost use Rattle.program_names.specs.Told.{all_told};
ghost use Rattle.program_names.specs.Whole.{files_of};
ghost use Rattle.declared_twice.specs.Asked.{AreEntriesOf, AreListed, IsAbsent, IsFault, listed_paths, one_path};

use crate::completing::all_entries;
use crate::entries::Entries;
use crate::entries_fault::EntriesFault;
use program_names::{Program, Told};
use span_edits::PathText;
use std::alloc::Global;

// The number of the file with a path.
fn file_at(alloc: Global, program: &Program, path: &PathText) -> Result<u32, EntriesFault>
    ensures { MatchResult result
        (λ f. slice_get (paths_of (files_of program.now)) f ≡ Some path.now)
        (λ e. IsAbsent (paths_of (files_of program.now)) path.now e) }
{
    match program.number_of(path.as_str().as_bytes()) {
        Some(file) => Ok(file),
        None => Err(EntriesFault::NoFile(path.copy(alloc)?)),
    }
}

// The numbers of the files with some paths.
fn files_at(alloc: Global, program: &Program, paths: &[PathText]) -> Result<Vec<u32>, EntriesFault>
    ensures { MatchResult result
        (λ fs. AreFiles (paths_of (files_of program.now)) paths.now fs.items)
        (λ e. IsFault (first_absent (paths_of (files_of program.now)) paths.now) e) }
{
    let mut files = Vec::new(alloc);
    for path in paths {
        let file = file_at(alloc, program, path)?;
        files.push(file)?;
    }
    Ok(files)
}

// The numbers of the files that are listed, if any are.
fn listed_files(
    alloc: Global,
    program: &Program,
    listed: Option<&[PathText]>,
) -> Result<Option<Vec<u32>>, EntriesFault>
    ensures { MatchResult result
        (λ fs. AreListed (paths_of (files_of program.now)) (option_copied listed.entry) fs)
        (λ e. IsFault (first_absent (paths_of (files_of program.now)) (listed_paths (option_copied listed.entry))) e) }
{
    match listed {
        Some(paths) => Ok(Some(files_at(alloc, program, paths)?)),
        None => Ok(None),
    }
}

// The number of the file before each entry, if there is one.
fn prepend_file(
    alloc: Global,
    program: &Program,
    prepend: Option<&PathText>,
) -> Result<Option<u32>, EntriesFault>
    ensures { MatchResult result
        (λ n. IsPrepend (paths_of (files_of program.now)) (option_copied prepend.entry) n)
        (λ e. IsFault (first_absent (paths_of (files_of program.now)) (one_path (option_copied prepend.entry))) e) }
{
    match prepend {
        Some(path) => Ok(Some(file_at(alloc, program, path)?)),
        None => Ok(None),
    }
}

/// The entries of a program by number, told being what its files tell: every file, or the files that are listed and
/// then, in the order of paths, each file that no entry so far reaches by includes; and the number of the file before
/// each entry. NoFile comes exactly where a path that is asked for is no file's: the first one in the order of the list
/// is named, the file before each entry last. Memory is want of memory.
pub fn entry_files(
    alloc: Global,
    program: &Program,
    told: &[Told],
    listed: Option<&[PathText]>,
    prepend: Option<&PathText>,
) -> Result<Entries, EntriesFault>
    requires { told.now ≡ all_told (table_of (files_of program.now)) }
    ensures { MatchResult result
        (λ e. AreEntriesOf (files_of program.now) (option_copied listed.entry) (option_copied prepend.entry) e)
        (λ f. IsFault
        (absent (paths_of (files_of program.now)) (option_copied listed.entry) (option_copied prepend.entry)) f) }
{
    let first = listed_files(alloc, program, listed)?;
    let before = prepend_file(alloc, program, prepend)?;
    let files = all_entries(alloc, program, told, first)?;
    Ok(Entries {
        files,
        prepend: before,
    })
}
