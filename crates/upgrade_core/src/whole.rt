// The whole upgrade.
ghost use Rattle.std.specs.Prelude.{◌≡◌, ◌<◌, ◌^◌, length, map};
ghost use Rattle.upgrade_core.specs.Named as named;
ghost use Rattle.upgrade_core.specs.Rows.{AreAllRead, trees_of};
ghost use Rattle.upgrade_core.specs.Files.{file_of};
ghost use Rattle.upgrade_core.specs.Meaning.{MeaningStays};
ghost use Rattle.upgrade_core.specs.Outcome as spec;
ghost use Rattle.report_handing.specs.Sinks.{AllOpen, sinks_by};

use crate::fault::UpgradeFault;
use crate::file::SourceFile;
use crate::limits::limit_of;
use crate::names::{program_of, resolve};
use crate::reading::read_files;
use crate::upgraded::{Upgraded, upgrade_rows};
use io_ports::{PathText, PortFault, ReportSink};
use php_rows::RowTree;
use report_handing::{SinkStop, Slot, hand_out};
use rule_tables::Settings;
use std::alloc::Global;

// All behind the reading.
fn upgrade_named(
    alloc: Global,
    rows: Vec<(PathText, RowTree)>,
    settings: &Settings,
) -> Result<Upgraded, UpgradeFault>
    requires { AreAllRead rows.items }
    ensures { named.IsPlanOf settings.now (trees_of rows.items) result }
{
    let program = program_of(rows)?;
    match resolve(alloc, &program, settings) {
        Ok(()) => Ok(upgrade_rows(alloc, program.files(), settings)?),
        Err(fault) => Err(fault),
    }
}

// All but the sinks.
fn upgrade_files(
    alloc: Global,
    files: &[SourceFile],
    settings: &Settings,
) -> Result<Upgraded, UpgradeFault>
    ensures { spec.IsPlan settings.now (map file_of files.now) result }
{
    if let Some(limit) = limit_of(files) {
        return Err(UpgradeFault::Limit(limit));
    }
    match read_files(alloc, files) {
        Ok(rows) => upgrade_named(alloc, rows, settings),
        Err(fault) => Err(fault),
    }
}

// Why an upgrade is refused where a sink refused.
fn refused(stop: SinkStop) -> UpgradeFault
    requires { stop.at < 2 ^ 32 }
    ensures { result ≡ spec.sink_fault stop.fault stop.at }
{
    match stop.fault {
        PortFault::Failed => UpgradeFault::Sink(stop.at as u32),
        PortFault::Memory => UpgradeFault::Memory,
    }
}

/// `upgrade`, with sinks of one type.
pub fn upgrade_into<S: Slot>(
    alloc: Global,
    files: &[SourceFile],
    settings: &Settings,
    sinks: &mut [S],
) -> Result<Upgraded, UpgradeFault>
    requires open { AllOpen (map S.closed sinks.old) }
    requires few { length sinks.old < 2 ^ 32 }
    ensures told { spec.IsOutcome settings.now (map file_of files.now) result }
    ensures means { MeaningStays settings.now (map file_of files.now) }
    ensures sinks { spec.AreLeft settings.now (map file_of files.now) result
        (sinks_by S.reports S.closed S.failures sinks.old) (sinks_by S.reports S.closed S.failures sinks.new) }
    ensures kept { spec.Keeps result (sinks.new ≡ sinks.old) }
{
    let upgraded = upgrade_files(alloc, files, settings)?;
    match hand_out(sinks, upgraded.reports.as_slice()) {
        Ok(()) => Ok(upgraded),
        Err(stop) => Err(refused(stop)),
    }
}

/// Upgrades the files of a program, by path in byte order, by the rules that the settings leave on: each report is
/// handed to each sink, in order, and then each sink is finished.
///
/// `Limit` comes exactly where a size passes its limit, the first of these: the number of files, and then, file by
/// file, its own bytes and the bytes so far. Then `Source` comes exactly where 7.4 reads no tree in some file, the
/// first such; then `Names` exactly where a file that the settings name isn't there, a run would begin with two
/// declarations of one name, or classes extend one another in a cycle. `Sink` comes only where the count of faults of
/// the sink at this position rose in this call. No other refusal calls a sink. Files whose paths don't ascend strictly
/// are answered as where no memory is at hand.
///
/// Rewritten so, the files do in 8.3 what they do in 7.4, from every entry, on every input and for every bound, wherever
/// that run stays inside the profile and asks at no point where the versions differ.
pub fn upgrade(
    alloc: Global,
    files: &[SourceFile],
    settings: &Settings,
    sinks: &mut Vec<Box<dyn ReportSink>>,
) -> Result<Upgraded, UpgradeFault>
    requires open { AllOpen (map ⟦<Box<dyn ReportSink> as Slot>⟧.closed sinks.old.items) }
    requires few { length sinks.old.items < 2 ^ 32 }
    ensures told { spec.IsOutcome settings.now (map file_of files.now) result }
    ensures means { MeaningStays settings.now (map file_of files.now) }
    ensures sinks { spec.AreLeft settings.now (map file_of files.now) result
        (sinks_by ⟦<Box<dyn ReportSink> as Slot>⟧.reports ⟦<Box<dyn ReportSink> as Slot>⟧.closed
        ⟦<Box<dyn ReportSink> as Slot>⟧.failures sinks.old.items)
        (sinks_by ⟦<Box<dyn ReportSink> as Slot>⟧.reports ⟦<Box<dyn ReportSink> as Slot>⟧.closed
        ⟦<Box<dyn ReportSink> as Slot>⟧.failures sinks.new.items) }
{
    upgrade_into(alloc, files, settings, sinks.as_mut_slice())
}
