// From the bytes of files to their trees.
ghost use Rattle.std.specs.Prelude.{◌≡◌, ◌≢◌, ◌≤◌, ◌++◌, ◌∷◌, [], IfOk, IfErr, OnOk, length, map, None};
ghost use Rattle.upgrade_core.specs.Files.{file_of};
ghost use Rattle.upgrade_core.specs.Limits.{bytes_limit};
ghost use Rattle.upgrade_core.specs.Rows as spec;

use crate::fault::UpgradeFault;
use crate::file::SourceFile;
use crate::limits::MAX_FILE_BYTES;
use io_ports::PathText;
use php_reading::{ReadFault, read_rows};
use php_rows::RowTree;
use php_tree::Version;
use std::alloc::{AllocError, Global};

// A refusal, unless it is want of memory.
fn refused(fault: ReadFault) -> Result<(), AllocError>
    ensures { OnOk result (fault ≢ ReadFault.Memory) }
{
    match fault {
        ReadFault::Memory => Err(AllocError),
        ReadFault::OpenText(_)
        | ReadFault::OpenComment(_)
        | ReadFault::OpenHeredoc(_)
        | ReadFault::BadByte(_)
        | ReadFault::TooLong
        | ReadFault::NotInGrammar => Ok(()),
    }
}

// The tree that 7.4 reads in the bytes of a file; none exactly where it reads none.
pub(crate) fn tree_of(alloc: Global, bytes: Vec<u8>) -> Result<Option<RowTree>, AllocError>
    requires { length bytes.items ≤ MAX_FILE_BYTES }
    ensures { IfOk result (λ r. spec.MayBeRead bytes.items r) }
{
    match read_rows(alloc, Version::V74, bytes) {
        Ok(tree) => Ok(Some(tree)),
        Err(fault) => {
            refused(fault)?;
            Ok(None)
        }
    }
}

// The tree of a file, by its path.
fn read_file(alloc: Global, file: &SourceFile) -> Result<(PathText, RowTree), UpgradeFault>
    requires { length (file_of file.now).1 ≤ MAX_FILE_BYTES }
    ensures { spec.IsFileReading (file_of file.now) result }
{
    let bytes = Vec::from_slice(alloc, file.bytes.as_slice())?;
    let path = file.path.copy(alloc)?;
    match tree_of(alloc, bytes)? {
        Some(tree) => Ok((path, tree)),
        None => Err(UpgradeFault::Source(path)),
    }
}

// Puts a row behind others.
fn keep(rows: &mut Vec<(PathText, RowTree)>, row: (PathText, RowTree)) -> Result<(), AllocError>
    ensures { OnOk result (rows.new.items ≡ rows.old.items ++ row ∷ []) }
{
    rows.push(row)?;
    Ok(())
}

/// The trees of files within the limits, by their paths. Refuses the first file that has none, by its path; the only
/// other error is want of memory.
pub(crate) fn read_files(
    alloc: Global,
    files: &[SourceFile],
) -> Result<Vec<(PathText, RowTree)>, UpgradeFault>
    requires { bytes_limit 0 (map file_of files.now) ≡ None }
    ensures ok { IfOk result (λ rows. spec.AreRows (map file_of files.now) rows.items) }
    ensures err { IfErr result (λ fault. spec.IsReadFault (map file_of files.now) fault) }
{
    let mut rows = Vec::new(alloc);
    for file in files {
        match read_file(alloc, file) {
            Ok(row) => keep(&mut rows, row)?,
            Err(fault) => return Err(fault),
        }
    }
    Ok(rows)
}
