// The names of a program.
ghost use Rattle.std.specs.Prelude.{◌≡◌, ◌+◌, IfOk, IsTrue, length};
ghost use Rattle.std.specs.Bool.{OnTrue};
ghost use Rattle.php_tree.specs.Tree.{leaves};
ghost use Rattle.php_rows.specs.File.{file_in};
ghost use Rattle.program_names.specs.Files as files;
ghost use Rattle.program_names.specs.Whole.{files_of};
ghost use Rattle.upgrade_core.specs.Named as spec;
ghost use Rattle.upgrade_core.specs.Rows.{trees_of};

use crate::fault::UpgradeFault;
use crate::limits::MAX_FILES;
use io_ports::PathText;
use php_rows::RowTree;
use program_names::Program;
use resolved_names::{Names, NamesFault};
use rule_tables::Settings;
use std::alloc::{AllocError, Global};
use std::cmp::Ordering;

// Whether the paths of some files ascend strictly.
fn are_ascending(rows: &[(PathText, RowTree)]) -> bool
    ensures { OnTrue result (IsTrue (files.are_ascending rows.now)) }
{
    let Some((first, rest)) = rows.split_first() else {
        return true;
    };
    let Some((second, _)) = rest.split_first() else {
        return true;
    };
    match first.0.as_str().cmp(second.0.as_str()) {
        Ordering::Less => are_ascending(rest),
        Ordering::Equal | Ordering::Greater => false,
    }
}

// How many tokens a file has, with the one at its end.
fn count_tokens(tree: &RowTree) -> usize
    ensures { result ≡ length (leaves (file_in tree.now).statements) + 1 }
{
    tree.tokens().marks.len()
}

// How many nodes some files have in all, within 64 bits.
fn nodes_in(rows: &[(PathText, RowTree)]) -> Result<u64, AllocError>
    ensures { IfOk result (λ n. n ≡ files.nodes_in rows.now) }
{
    let mut count = 0u64;
    for row in rows {
        count = count.checked_add(row.1.nodes() as u64).ok_or(AllocError)?;
    }
    Ok(count)
}

// How many tokens some files have in all, within 64 bits.
fn tokens_in(rows: &[(PathText, RowTree)]) -> Result<u64, AllocError>
    ensures { IfOk result (λ n. n ≡ files.tokens_in rows.now) }
{
    let mut count = 0u64;
    for row in rows {
        count = count
            .checked_add(count_tokens(&row.1) as u64)
            .ok_or(AllocError)?;
    }
    Ok(count)
}

// Whether these are the files of a program. Within the limits on files and bytes their nodes and tokens are few.
fn are_program(rows: &[(PathText, RowTree)]) -> Result<bool, AllocError>
    ensures { IfOk result (λ b. OnTrue b (spec.AreProgram rows.now)) }
{
    let nodes = nodes_in(rows)?;
    let tokens = tokens_in(rows)?;
    let is_small = rows.len() <= MAX_FILES && nodes < 1 << 31 && tokens < 1 << 30;
    Ok(is_small && are_ascending(rows))
}

/// The program of these files, whose paths ascend.
pub(crate) fn program_of(rows: Vec<(PathText, RowTree)>) -> Result<Program, AllocError>
    ensures { IfOk result (λ p. files_of p ≡ rows.items) }
{
    if !are_program(rows.as_slice())? {
        return Err(AllocError);
    }
    Ok(Program::new(rows))
}

// Why an upgrade is refused where the names are.
fn refused(fault: NamesFault) -> UpgradeFault
    ensures { result ≡ spec.refused fault }
{
    match fault {
        NamesFault::Memory => UpgradeFault::Memory,
        other => UpgradeFault::Names(other),
    }
}

/// Refuses a program by its names, from the entries and with the file before each that the settings name.
pub(crate) fn resolve(
    alloc: Global,
    program: &Program,
    settings: &Settings,
) -> Result<(), UpgradeFault>
    ensures { spec.IsResolving settings.now (trees_of (files_of program.now)) result }
{
    match Names::check(alloc, program, settings.entries(), settings.prepend()) {
        Ok(()) => Ok(()),
        Err(fault) => Err(refused(fault)),
    }
}
