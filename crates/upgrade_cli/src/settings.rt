// The settings of a run.
ghost use Rattle.std.specs.Prelude.{◌≡◌, IfSome, Some};
ghost use Rattle.io_ports.specs.Files.{content};
ghost use Rattle.upgrade_cli.specs.Ready as spec;
ghost use Rattle.upgrade_cli.specs.Run.{SourceCause};

use crate::stop::{Stop, settings_stop, source_stop};
use io_ports::{Found, SourceTree};
use rule_tables::Settings;
use std::alloc::Global;
use upgrade_core::{LimitFault, LimitKind};

/// The greatest number of bytes of a settings file.
pub const MAX_SETTINGS_BYTES: usize = 65_536;

/// The bytes of the settings file of this name; none where there is none. Stops exactly where there are more than
/// 65,536, with a fault of the source, or for want of memory.
pub fn read_settings<T: SourceTree>(
    alloc: Global,
    source: &mut T,
    name: &str,
) -> Result<Option<Vec<u8>>, Stop>
    ensures told { IfSome (T.stored source.old) (λ fs. spec.IsSettingsReading (content name.now fs) result) }
    ensures only { spec.IsAnyListing result }
    ensures same { T.files source.new ≡ T.files source.old }
    ensures settled { T.stored source.new ≡ T.stored source.old }
    ensures cause { SourceCause result (T.faults source.old) (T.faults source.new) }
{
    let mut bytes = Vec::new(alloc);
    match source.settings(name, MAX_SETTINGS_BYTES as u64, &mut bytes) {
        Ok(Found::Whole) => Ok(Some(bytes)),
        Ok(Found::Longer) => Err(Stop::Limit(LimitFault {
            kind: LimitKind::SettingsBytes,
            number: MAX_SETTINGS_BYTES as u64 + 1,
        })),
        Ok(Found::Absent) => Ok(None),
        Err(fault) => Err(source_stop(fault)),
    }
}

// The settings of the bytes of their file.
fn settings_in(alloc: Global, bytes: &[u8]) -> Result<Settings, Stop>
    ensures { spec.IsSaid (Some bytes.now) result }
{
    match Settings::parse(alloc, bytes) {
        Ok(settings) => Ok(settings),
        Err(fault) => Err(settings_stop(fault)),
    }
}

/// The settings that these bytes say. Stops exactly where there are none or they are refused, or for want of memory.
pub fn settings_said(alloc: Global, bytes: &Option<Vec<u8>>) -> Result<Settings, Stop>
    ensures { spec.IsSaid (spec.bytes_of bytes.now) result }
{
    match bytes {
        Some(bytes) => settings_in(alloc, bytes.as_slice()),
        None => Err(Stop::NoSettings),
    }
}
