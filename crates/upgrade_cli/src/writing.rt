// What is written to the target.
ghost use Rattle.std.specs.Prelude.{◌≡◌, map, IfSome};
ghost use Rattle.upgrade_core.specs.Files.{file_of};
ghost use Rattle.upgrade_cli.specs.Writing as spec;
ghost use Rattle.upgrade_cli.specs.Run.{TargetCause};

use crate::stop::{Stop, target_stop};
use io_ports::TargetTree;
use upgrade_core::SourceFile;

// Writes one file.
fn write_one<D: TargetTree>(target: &mut D, file: &SourceFile) -> Result<(), Stop>
    ensures told { IfSome (D.files target.old) (λ old. spec.IsPut (file_of file.now) result old (D.files target.new)) }
    ensures only { spec.IsOfWriting result }
    ensures cause { TargetCause result (D.faults target.old) (D.faults target.new) }
{
    match target.put(file.path.as_str(), file.bytes.as_slice()) {
        Ok(()) => Ok(()),
        Err(fault) => Err(target_stop(fault)),
    }
}

/// Writes files, in their order. Stops where the target refuses.
pub fn write_files<D: TargetTree>(target: &mut D, files: &[SourceFile]) -> Result<(), Stop>
    ensures told { IfSome (D.files target.old) (λ old.
        spec.ArePut (map file_of files.now) result old (D.files target.new)) }
    ensures only { spec.IsOfWriting result }
    ensures cause { TargetCause result (D.faults target.old) (D.faults target.new) }
{
    for file in files {
        if let Err(stop) = write_one(target, file) {
            return Err(stop);
        }
    }
    Ok(())
}
