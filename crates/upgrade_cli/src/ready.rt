// All that an upgrade needs of the outside.
ghost use Rattle.std.specs.Prelude.{◌≡◌, IfSome};
ghost use Rattle.io_ports.specs.Files.{content};
ghost use Rattle.upgrade_cli.specs.Ready as spec;
ghost use Rattle.upgrade_cli.specs.Run.{SourceCause};

use crate::files::read_files;
use crate::settings::{read_settings, settings_said};
use crate::stop::Stop;
use io_ports::SourceTree;
use rule_tables::Settings;
use std::alloc::Global;
use upgrade_core::SourceFile;

/// The files of a program, within the limits, and its settings.
#[derive(Drop)]
pub struct Ready {
    pub files: Vec<SourceFile>,
    pub settings: Settings,
}

/// Reads the settings file, lists the sources and reads them. Stops at the first size that passes its limit, and then
/// where the settings are absent or refused; with a fault of the source, or for want of memory.
pub fn read_all<T: SourceTree>(alloc: Global, source: &mut T, name: &str) -> Result<Ready, Stop>
    ensures told { IfSome (T.stored source.old) (λ ss. IfSome (T.files source.old) (λ fs.
        spec.IsReady (content name.now ss) fs result)) }
    ensures only { spec.IsOfReading result }
    ensures cause { SourceCause result (T.faults source.old) (T.faults source.new) }
{
    let bytes = match read_settings(alloc, source, name) {
        Ok(bytes) => bytes,
        Err(stop) => return Err(stop),
    };
    let files = match read_files(alloc, source) {
        Ok(files) => files,
        Err(stop) => return Err(stop),
    };
    match settings_said(alloc, &bytes) {
        Ok(settings) => Ok(Ready { files, settings }),
        Err(stop) => Err(stop),
    }
}
