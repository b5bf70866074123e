// The files of a run.
ghost use Rattle.std.specs.Prelude.{◌≡◌, ◌≤◌, ◌++◌, ◌∷◌, [], map, IfOk, IfSome, IsSome, OnOk};
ghost use Rattle.io_ports.specs.Files.{content, IsTree};
ghost use Rattle.upgrade_core.specs.Files.{file_of};
ghost use Rattle.upgrade_cli.specs.Ready as spec;
ghost use Rattle.upgrade_cli.specs.Run.{SourceCause};

use crate::listing::{list_sources, read_source};
use crate::stop::Stop;
use io_ports::{Bytes, PathText, SourceTree};
use std::alloc::{AllocError, Global};
use upgrade_core::{LimitFault, LimitKind, MAX_ALL_BYTES, SourceFile};

// The bytes so far, with those of one more file. Refuses more than 4,194,304.
fn added(sum: usize, count: usize) -> Result<usize, Stop>
    requires { spec.AreFew sum count }
    ensures { spec.IsAdding sum count result }
{
    if sum + count > MAX_ALL_BYTES {
        return Err(Stop::Limit(LimitFault {
            kind: LimitKind::AllBytes,
            number: MAX_ALL_BYTES as u64 + 1,
        }));
    }
    Ok(sum + count)
}

// Puts a file behind others.
fn keep(files: &mut Vec<SourceFile>, file: SourceFile) -> Result<(), AllocError>
    ensures { OnOk result (files.new.items ≡ files.old.items ++ file ∷ []) }
{
    files.push(file)?;
    Ok(())
}

// The file of a path that was listed, behind others of so many bytes; the bytes so far.
fn read_next<T: SourceTree>(
    alloc: Global,
    source: &mut T,
    path: &PathText,
    sum: usize,
    files: &mut Vec<SourceFile>,
) -> Result<usize, Stop>
    requires few { sum ≤ 4194304 }
    requires there { IfSome (T.files source.old) (λ fs. IsSome (content path.now fs)) }
    ensures told { IfSome (T.files source.old) (λ fs. spec.IsNext path.now (content path.now fs) sum
        (map file_of files.old.items) result (map file_of files.new.items)) }
    ensures few { IfOk result (λ n. n ≤ 4194304) }
    ensures only { spec.IsAnyListing result }
    ensures same { T.files source.new ≡ T.files source.old }
    ensures settled { T.stored source.new ≡ T.stored source.old }
    ensures cause { SourceCause result (T.faults source.old) (T.faults source.new) }
{
    let bytes = match read_source(alloc, source, path.as_str()) {
        Ok(bytes) => bytes,
        Err(stop) => return Err(stop),
    };
    let sum = match added(sum, bytes.len()) {
        Ok(sum) => sum,
        Err(stop) => return Err(stop),
    };
    let path = path.copy(alloc)?;
    let bytes = Bytes::new(bytes);
    keep(files, SourceFile { path, bytes })?;
    Ok(sum)
}

// The files of these paths, which were listed.
fn read_listed<T: SourceTree>(
    alloc: Global,
    source: &mut T,
    paths: &[PathText],
) -> Result<Vec<SourceFile>, Stop>
    requires { IfSome (T.files source.old) (λ fs. IsTree fs × (paths.now ≡ map (λ f. f.0) fs)) }
    ensures told { IfSome (T.files source.old) (λ fs. spec.AreReading fs result) }
    ensures only { spec.IsAnyListing result }
    ensures same { T.files source.new ≡ T.files source.old }
    ensures settled { T.stored source.new ≡ T.stored source.old }
    ensures cause { SourceCause result (T.faults source.old) (T.faults source.new) }
{
    let mut files = Vec::new(alloc);
    let mut sum = 0;
    for path in paths {
        match read_next(alloc, source, path, sum, &mut files) {
            Ok(more) => sum = more,
            Err(stop) => return Err(stop),
        }
    }
    Ok(files)
}

/// The files of the source, by path in byte order. Stops exactly where a size passes its limit, the first of these: the
/// number of files, and then, file by file, its own bytes and the bytes so far; with a fault of the source, or for want
/// of memory.
pub fn read_files<T: SourceTree>(alloc: Global, source: &mut T) -> Result<Vec<SourceFile>, Stop>
    ensures told { IfSome (T.files source.old) (λ fs. spec.IsFiles fs result) }
    ensures only { spec.IsAnyListing result }
    ensures same { T.files source.new ≡ T.files source.old }
    ensures settled { T.stored source.new ≡ T.stored source.old }
    ensures cause { SourceCause result (T.faults source.old) (T.faults source.new) }
{
    match list_sources(alloc, source) {
        Ok(paths) => read_listed(alloc, source, paths.as_slice()),
        Err(stop) => Err(stop),
    }
}
