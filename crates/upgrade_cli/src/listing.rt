// The sources of a run: their paths, and the bytes of one of them.
ghost use Rattle.std.specs.Prelude.{◌≡◌, ◌≤◌, length, map, IfOk, IfSome, IsSome, OnOk};
ghost use Rattle.io_ports.specs.Files.{content, IsSources};
ghost use Rattle.upgrade_cli.specs.Ready as spec;
ghost use Rattle.upgrade_cli.specs.Run.{SourceCause};

use crate::stop::{Stop, source_stop};
use io_ports::{Found, PathText, SourceTree};
use std::alloc::Global;
use upgrade_core::{LimitFault, LimitKind, MAX_FILE_BYTES, MAX_FILES};

// Refuses more than 2,000 files.
fn within(paths: Vec<PathText>) -> Result<Vec<PathText>, Stop>
    ensures { spec.IsWithin paths result }
{
    if paths.len() > MAX_FILES {
        return Err(Stop::Limit(LimitFault {
            kind: LimitKind::Files,
            number: paths.len() as u64,
        }));
    }
    Ok(paths)
}

/// The paths of the sources, in byte order. Stops exactly where there are more than 2,000, with a fault of the source,
/// or for want of memory.
pub fn list_sources<T: SourceTree>(alloc: Global, source: &mut T) -> Result<Vec<PathText>, Stop>
    ensures told { IfSome (T.files source.old) (λ fs. spec.IsListing fs result) }
    ensures only { spec.IsAnyListing result }
    ensures same { T.files source.new ≡ T.files source.old }
    ensures settled { T.stored source.new ≡ T.stored source.old }
    ensures cause { SourceCause result (T.faults source.old) (T.faults source.new) }
{
    match source.paths(alloc) {
        Ok(paths) => within(paths),
        Err(fault) => Err(source_stop(fault)),
    }
}

/// The bytes of a source that was listed. Stops exactly where there are more than 1,048,576, with a fault of the
/// source, or for want of memory.
pub fn read_source<T: SourceTree>(
    alloc: Global,
    source: &mut T,
    path: &str,
) -> Result<Vec<u8>, Stop>
    requires { IfSome (T.files source.old) (λ fs. IsSome (content path.now fs)) }
    ensures told { IfSome (T.files source.old) (λ fs. spec.IsReading (content path.now fs) result) }
    ensures small { spec.IsAnyReading result }
    ensures same { T.files source.new ≡ T.files source.old }
    ensures settled { T.stored source.new ≡ T.stored source.old }
    ensures cause { SourceCause result (T.faults source.old) (T.faults source.new) }
{
    let mut bytes = Vec::new(alloc);
    match source.read(path, MAX_FILE_BYTES as u64, &mut bytes) {
        Ok(Found::Whole) => {
            if bytes.len() > MAX_FILE_BYTES {
                return Err(Stop::Memory);
            }
            Ok(bytes)
        }
        Ok(Found::Longer) => Err(Stop::Limit(LimitFault {
            kind: LimitKind::FileBytes,
            number: MAX_FILE_BYTES as u64 + 1,
        })),
        Ok(Found::Absent) => unreachable!(),
        Err(fault) => Err(source_stop(fault)),
    }
}
