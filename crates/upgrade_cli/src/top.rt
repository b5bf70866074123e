// The top call.
ghost use Rattle.std.specs.Prelude.{◌≡◌, ◌<◌, ◌^◌, length, map, string_bytes, IfSome, None, false};
ghost use Rattle.command_words.specs.Words.{asked};
ghost use Rattle.report_handing.specs.Sinks.{AllOpen, sinks_by};
ghost use Rattle.upgrade_cli.specs.Headline.{Headline};
ghost use Rattle.upgrade_cli.specs.Outcome.{writes};
ghost use Rattle.upgrade_cli.specs.Run as spec;

use crate::line::line_of;
use crate::stop::{Status, Stop, Summary, status_of};
use crate::whole::outcome;
use io_ports::{PortFault, ReportSink, Sink, SourceTree, TargetTree};
use std::alloc::Global;
use upgrade_core::Slot;
use written_reading::row_laws::written_files_are_read;

// Puts the line of what a run came to, and answers its status unless that fails.
fn answer<O: Sink>(alloc: Global, out: &mut O, came: &Result<Summary, Stop>) -> Status
    ensures answer { spec.Answers result (spec.status_of came.now) }
    ensures line { IfSome (O.held out.old) (λ old.
        spec.LinePut result came.now old (O.held out.new) (O.faults out.old) (O.faults out.new)) }
    ensures cause { spec.OutCause result came.now (O.faults out.old) (O.faults out.new) }
{
    let Ok(line) = line_of(alloc, came) else {
        return Status::Memory;
    };
    match out.put(line.as_slice()) {
        Ok(()) => status_of(came),
        Err(PortFault::Failed) => Status::Fault,
        Err(PortFault::Memory) => Status::Memory,
    }
}

/// `run`, with sinks of one type. Each clause is one line of what is promised.
fn run_into<T: SourceTree, D: TargetTree, O: Sink, S: Slot>(
    alloc: Global,
    words: &[String],
    source: &mut T,
    target: &mut D,
    out: &mut O,
    sinks: &mut [S],
) -> Status
    requires open { AllOpen (map S.closed sinks.old) }
    requires few { length sinks.old < 2 ^ 32 }
    ensures usage { asked (map string_bytes words.now) ≡ None → spec.Answers result Status.Usage }
    ensures usage_only { result ≡ Status.Usage → asked (map string_bytes words.now) ≡ None }
    ensures usage_source { asked (map string_bytes words.now) ≡ None → source.new ≡ source.old }
    ensures usage_line { IfSome (O.held out.old) (λ old.
        result ≡ Status.Usage → spec.Added old (spec.usage_line) (O.held out.new)) }
    ensures told { IfSome (asked (map string_bytes words.now)) (λ a. IfSome (T.stored source.old) (λ ss.
        IfSome (T.files source.old) (λ fs. spec.Told a ss fs
        (record {
          target = D.files target.old;
          sinks = sinks_by S.reports S.closed S.failures sinks.old;
          held = O.held out.old;
          faults = O.faults out.old;
        })
        (record {
          target = D.files target.new;
          sinks = sinks_by S.reports S.closed S.failures sinks.new;
          held = O.held out.new;
          faults = O.faults out.new;
        }) result))) }
    ensures exact { IfSome (asked (map string_bytes words.now)) (λ a. IfSome (T.stored source.old) (λ ss.
        IfSome (T.files source.old) (λ fs. spec.IsExact a ss fs result))) }
    ensures headline { IfSome (asked (map string_bytes words.now)) (λ a. IfSome (T.stored source.old) (λ ss.
        IfSome (T.files source.old) (λ fs. IfSome (D.files target.old) (λ ds. spec.AllDone result →
        Headline a ss fs ds (D.files target.new) (O.held out.old) (O.held out.new) result)))) }
    ensures fault { result ≡ Status.Fault → spec.AnyRose
        (record { source = T.faults source.old; sinks = map S.failures sinks.old; target = D.faults target.old })
        (record { source = T.faults source.new; sinks = map S.failures sinks.new; target = D.faults target.new })
        (O.faults out.old) (O.faults out.new) }
    ensures quiet { spec.Unless result (spec.NoneRose
        (record { source = T.faults source.old; sinks = map S.failures sinks.old; target = D.faults target.old })
        (record { source = T.faults source.new; sinks = map S.failures sinks.new; target = D.faults target.new })
        (O.faults out.old) (O.faults out.new)) }
    ensures fault_line { IfSome (O.held out.old) (λ old. result ≡ Status.Fault → spec.FaultLine
        (record { source = T.faults source.old; sinks = map S.failures sinks.old; target = D.faults target.old })
        (record { source = T.faults source.new; sinks = map S.failures sinks.new; target = D.faults target.new })
        (O.faults out.old) (O.faults out.new) old (O.held out.new)) }
    ensures kept { spec.KeepsAt result (target.new ≡ target.old) }
    ensures kept_sinks { spec.KeepsAt result (sinks.new ≡ sinks.old) }
    ensures unasked { IfSome (asked (map string_bytes words.now)) (λ a. writes a ≡ false → target.new ≡ target.old) }
{
    written_files_are_read();
    let came = outcome(alloc, words, source, target, sinks);
    answer(alloc, out, &came)
}

/// Runs the program with these words, without its name. `upgrade --settings FILE` upgrades the sources into the target,
/// by the settings of the file; `check --settings FILE` does all but write. Reports go to the sinks, none of which is
/// finished; then, or with other words, one line is put to `out`. Each clause is one line of what is promised.
pub fn run<T: SourceTree, D: TargetTree, O: Sink>(
    alloc: Global,
    words: &[String],
    source: &mut T,
    target: &mut D,
    out: &mut O,
    sinks: &mut Vec<Box<dyn ReportSink>>,
) -> Status
    requires open { AllOpen (map ⟦<Box<dyn ReportSink> as Slot>⟧.closed sinks.old.items) }
    requires few { length sinks.old.items < 2 ^ 32 }

    // 64 exactly where the words are not in the grammar; then only `out` is called, with the usage line
    ensures usage { asked (map string_bytes words.now) ≡ None → spec.Answers result Status.Usage }
    ensures usage_only { result ≡ Status.Usage → asked (map string_bytes words.now) ≡ None }
    ensures usage_source { asked (map string_bytes words.now) ≡ None → source.new ≡ source.old }
    ensures usage_line { IfSome (O.held out.old) (λ old.
        result ≡ Status.Usage → spec.Added old (spec.usage_line) (O.held out.new)) }

    // With good words each status only where it should come, with its line, and with what the sinks and the target hold then.
    ensures told { IfSome (asked (map string_bytes words.now)) (λ a. IfSome (T.stored source.old) (λ ss.
        IfSome (T.files source.old) (λ fs. spec.Told a ss fs
        (record {
          target = D.files target.old;
          sinks = sinks_by ⟦<Box<dyn ReportSink> as Slot>⟧.reports ⟦<Box<dyn ReportSink> as Slot>⟧.closed
              ⟦<Box<dyn ReportSink> as Slot>⟧.failures sinks.old.items;
          held = O.held out.old;
          faults = O.faults out.old;
        })
        (record {
          target = D.files target.new;
          sinks = sinks_by ⟦<Box<dyn ReportSink> as Slot>⟧.reports ⟦<Box<dyn ReportSink> as Slot>⟧.closed
              ⟦<Box<dyn ReportSink> as Slot>⟧.failures sinks.new.items;
          held = O.held out.new;
          faults = O.faults out.new;
        }) result))) }

    // .. and wherever it should come, unless a count rose or memory ran out
    ensures exact { IfSome (asked (map string_bytes words.now)) (λ a. IfSome (T.stored source.old) (λ ss.
        IfSome (T.files source.old) (λ fs. spec.IsExact a ss fs result))) }

    // The headline: where all was done, what stands in the target, and that it does in 8.3 what the source does in 7.4.
    ensures headline { IfSome (asked (map string_bytes words.now)) (λ a. IfSome (T.stored source.old) (λ ss.
        IfSome (T.files source.old) (λ fs. IfSome (D.files target.old) (λ ds. spec.AllDone result →
        Headline a ss fs ds (D.files target.new) (O.held out.old) (O.held out.new) result)))) }

    // 74 only where a count rose; where one rose the status is 74 or 71
    ensures fault { result ≡ Status.Fault → spec.AnyRose
        (record {
          source = T.faults source.old;
          sinks = map ⟦<Box<dyn ReportSink> as Slot>⟧.failures sinks.old.items;
          target = D.faults target.old;
        })
        (record {
          source = T.faults source.new;
          sinks = map ⟦<Box<dyn ReportSink> as Slot>⟧.failures sinks.new.items;
          target = D.faults target.new;
        })
        (O.faults out.old) (O.faults out.new) }
    ensures quiet { spec.Unless result (spec.NoneRose
        (record {
          source = T.faults source.old;
          sinks = map ⟦<Box<dyn ReportSink> as Slot>⟧.failures sinks.old.items;
          target = D.faults target.old;
        })
        (record {
          source = T.faults source.new;
          sinks = map ⟦<Box<dyn ReportSink> as Slot>⟧.failures sinks.new.items;
          target = D.faults target.new;
        })
        (O.faults out.old) (O.faults out.new)) }
    ensures fault_line { IfSome (O.held out.old) (λ old. result ≡ Status.Fault → spec.FaultLine
        (record {
          source = T.faults source.old;
          sinks = map ⟦<Box<dyn ReportSink> as Slot>⟧.failures sinks.old.items;
          target = D.faults target.old;
        })
        (record {
          source = T.faults source.new;
          sinks = map ⟦<Box<dyn ReportSink> as Slot>⟧.failures sinks.new.items;
          target = D.faults target.new;
        })
        (O.faults out.old) (O.faults out.new) old (O.held out.new)) }

    // no refusal calls a sink or the target, and `check` never calls the target
    ensures kept { spec.KeepsAt result (target.new ≡ target.old) }
    ensures kept_sinks { spec.KeepsAt result (sinks.new.items ≡ sinks.old.items) }
    ensures unasked { IfSome (asked (map string_bytes words.now)) (λ a. writes a ≡ false → target.new ≡ target.old) }
{
    run_into(alloc, words, source, target, out, sinks.as_mut_slice())
}
