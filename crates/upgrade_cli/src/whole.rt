// All that a run does but its line.
ghost use Rattle.std.specs.Prelude.{◌≡◌, ◌<◌, ◌^◌, length, map, string_bytes, IfSome, None, false};
ghost use Rattle.io_ports.specs.Files.{content};
ghost use Rattle.command_words.specs.Words.{asked, asked_by};
ghost use Rattle.upgrade_core.specs.Files.{file_of};
ghost use Rattle.report_handing.specs.Sinks.{AllOpen, sinks_by};
ghost use Rattle.upgrade_cli.specs.Outcome as spec;
ghost use Rattle.upgrade_cli.specs.Run.{HaveCauses, Keeps, KeepsSinks, SinkCause};
ghost use Rattle.upgrade_cli.specs.Whole as whole;

use crate::names::upgrade_stop;
use crate::ready::{Ready, read_all};
use crate::stop::{Stop, Summary, words_stop};
use crate::writing::write_files;
use command_words::{Command, read_words};
use io_ports::{SourceTree, TargetTree};
use std::alloc::Global;
use upgrade_core::{Slot, Upgraded, upgrade_into};

// The name of the settings file.
fn name_of(command: &Command) -> &str
    ensures { result.now ≡ spec.name_of (asked_by command.now) }
{
    match command {
        Command::Upgrade(name) => name.as_str(),
        Command::Check(name) => name.as_str(),
    }
}

// Whether the target is written.
fn writes(command: &Command) -> bool
    ensures { result ≡ spec.writes (asked_by command.now) }
{
    match command {
        Command::Upgrade(_) => true,
        Command::Check(_) => false,
    }
}

// What is counted of what was upgraded.
fn summary_of(upgraded: &Upgraded) -> Summary
    ensures { result ≡ whole.summary_of upgraded.now }
{
    Summary {
        files: upgraded.files.len(),
        edits: upgraded.edits,
        reports: upgraded.reports.len(),
        stops: upgraded.stops,
    }
}

// Upgrades what was read, and hands its reports to the sinks.
fn upgrade_ready<S: Slot>(alloc: Global, ready: &Ready, sinks: &mut [S]) -> Result<Upgraded, Stop>
    requires open { AllOpen (map S.closed sinks.old) }
    requires few { length sinks.old < 2 ^ 32 }
    ensures told { whole.IsUpgrading ready.now.settings (map file_of ready.now.files.items) result
        (sinks_by S.reports S.closed S.failures sinks.old) (sinks_by S.reports S.closed S.failures sinks.new) }
    ensures only { whole.IsOfUpgrade result }
    ensures kept { KeepsSinks result (sinks.new ≡ sinks.old) }
    ensures cause { SinkCause result (map S.failures sinks.old) (map S.failures sinks.new) }
{
    match upgrade_into(alloc, ready.files.as_slice(), &ready.settings, sinks) {
        Ok(upgraded) => Ok(upgraded),
        Err(fault) => Err(upgrade_stop(alloc, ready.files.as_slice(), fault)),
    }
}

// Writes the files, where the command writes.
fn write_if<D: TargetTree>(is_asked: bool, target: &mut D, upgraded: &Upgraded) -> Result<(), Stop>
    ensures told { IfSome (D.files target.old) (λ old. whole.IsWriting is_asked (map file_of upgraded.now.files.items)
        result old (D.files target.new)) }
    ensures only { whole.IsOfWriting is_asked result }
    ensures cause { whole.TargetCause result (D.faults target.old) (D.faults target.new) }
    ensures unasked { is_asked ≡ false → target.new ≡ target.old }
{
    if is_asked {
        return write_files(target, upgraded.files.as_slice());
    }
    Ok(())
}

// Does what a command asks for.
fn follow<T: SourceTree, D: TargetTree, S: Slot>(
    alloc: Global,
    command: &Command,
    source: &mut T,
    target: &mut D,
    sinks: &mut [S],
) -> Result<Summary, Stop>
    requires open { AllOpen (map S.closed sinks.old) }
    requires few { length sinks.old < 2 ^ 32 }
    ensures told { IfSome (T.stored source.old) (λ ss. IfSome (T.files source.old) (λ fs.
        whole.IsDoing (asked_by command.now) ss fs result
        (sinks_by S.reports S.closed S.failures sinks.old) (sinks_by S.reports S.closed S.failures sinks.new)
        (D.files target.old) (D.files target.new))) }
    ensures not_usage { whole.IsNotUsage result }
    ensures kept { Keeps result (target.new ≡ target.old) }
    ensures kept_sinks { KeepsSinks result (sinks.new ≡ sinks.old) }
    ensures unasked { spec.writes (asked_by command.now) ≡ false → target.new ≡ target.old }
    ensures cause { HaveCauses result
        (record { source = T.faults source.old; sinks = map S.failures sinks.old; target = D.faults target.old })
        (record { source = T.faults source.new; sinks = map S.failures sinks.new; target = D.faults target.new }) }
{
    let ready = match read_all(alloc, source, name_of(command)) {
        Ok(ready) => ready,
        Err(stop) => return Err(stop),
    };
    let upgraded = match upgrade_ready(alloc, &ready, sinks) {
        Ok(upgraded) => upgraded,
        Err(stop) => return Err(stop),
    };
    match write_if(writes(command), target, &upgraded) {
        Ok(()) => Ok(summary_of(&upgraded)),
        Err(stop) => Err(stop),
    }
}

/// Does what the words ask for.
pub fn outcome<T: SourceTree, D: TargetTree, S: Slot>(
    alloc: Global,
    words: &[String],
    source: &mut T,
    target: &mut D,
    sinks: &mut [S],
) -> Result<Summary, Stop>
    requires open { AllOpen (map S.closed sinks.old) }
    requires few { length sinks.old < 2 ^ 32 }
    ensures usage { whole.IsUsage (asked (map string_bytes words.now)) result }
    ensures source_untouched { asked (map string_bytes words.now) ≡ None → source.new ≡ source.old }
    ensures told { IfSome (asked (map string_bytes words.now)) (λ a.
        IfSome (T.stored source.old) (λ ss. IfSome (T.files source.old) (λ fs. whole.IsDoing a ss fs result
        (sinks_by S.reports S.closed S.failures sinks.old) (sinks_by S.reports S.closed S.failures sinks.new)
        (D.files target.old) (D.files target.new)))) }
    ensures kept { Keeps result (target.new ≡ target.old) }
    ensures kept_sinks { KeepsSinks result (sinks.new ≡ sinks.old) }
    ensures unasked { IfSome (asked (map string_bytes words.now)) (λ a. spec.writes a ≡ false → target.new ≡ target.old) }
    ensures cause { HaveCauses result
        (record { source = T.faults source.old; sinks = map S.failures sinks.old; target = D.faults target.old })
        (record { source = T.faults source.new; sinks = map S.failures sinks.new; target = D.faults target.new }) }
{
    match read_words(alloc, words) {
        Ok(command) => follow(alloc, &command, source, target, sinks),
        Err(fault) => Err(words_stop(fault)),
    }
}
