// Why a run stops where the upgrade is refused, its names included.
ghost use Rattle.std.specs.Prelude.{◌≡◌, map, None, IfOk};
ghost use Rattle.upgrade_core.specs.Files.{file_of, Trees};
ghost use Rattle.upgrade_core.specs.Limits.{bytes_limit};
ghost use Rattle.upgrade_core.specs.Trees.{AreRead};
ghost use Rattle.upgrade_cli.specs.Stops as spec;

use crate::stop::{NamesStop, Stop};
use io_ports::Bytes;
use std::alloc::{AllocError, Global};
use upgrade_core::{NamesFault, NodeRef, SourceFile, UpgradeFault, place_of};

// What is told of a name that is declared twice.
fn twice(
    alloc: Global,
    files: &[SourceFile],
    name: Bytes,
    at: (NodeRef, NodeRef),
) -> Result<NamesStop, AllocError>
    requires { bytes_limit 0 (map file_of files.now) ≡ None }
    ensures { IfOk result (λ told. (trees : Trees) → AreRead (map file_of files.now) trees →
        spec.IsToldOf trees (NamesFault.Twice name at.0 at.1) told) }
{
    let first = place_of(alloc, files, at.0)?;
    let second = place_of(alloc, files, at.1)?;
    Ok(NamesStop::Twice {
        name,
        first,
        second,
    })
}

// Why a run stops where the names are refused.
fn names_stop(alloc: Global, files: &[SourceFile], fault: NamesFault) -> Stop
    requires { bytes_limit 0 (map file_of files.now) ≡ None }
    ensures { spec.IsNamesStop (map file_of files.now) fault result }
{
    match fault {
        NamesFault::Twice {
            name,
            first,
            second,
        } => match twice(alloc, files, name, (first, second)) {
            Ok(told) => Stop::Names(told),
            Err(_) => Stop::Memory,
        },
        NamesFault::Cycle(classes) => Stop::Names(NamesStop::Cycle(classes)),
        NamesFault::NoFile(path) => Stop::Names(NamesStop::NoFile(path)),
        NamesFault::Memory => Stop::Memory,
    }
}

/// Why a run stops where the upgrade of these files was refused.
pub fn upgrade_stop(alloc: Global, files: &[SourceFile], fault: UpgradeFault) -> Stop
    requires { spec.AreNamed (map file_of files.now) fault }
    ensures { spec.IsUpgradeStop (map file_of files.now) fault result }
{
    match fault {
        UpgradeFault::Source(path) => Stop::Source(path),
        UpgradeFault::Names(names) => names_stop(alloc, files, names),
        UpgradeFault::Limit(limit) => Stop::Limit(limit),
        UpgradeFault::Sink(_) => Stop::SinkFault,
        UpgradeFault::Memory => Stop::Memory,
    }
}
