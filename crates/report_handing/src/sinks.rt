// Reports, handed to sinks.
ghost use Rattle.std.specs.Prelude.{◌≡◌, map};
ghost use Rattle.report_handing.specs.Handing as spec;

use crate::slot::Slot;
use io_ports::{PortFault, Report};

/// Why the handing stopped, and at which sink.
#[derive(Clone, Copy, Debug, PartialEq, Eq)]
pub struct SinkStop {
    pub at: usize,
    pub fault: PortFault,
}

// Hands a report to each sink, in order.
fn hand<S: Slot>(sinks: &mut [S], report: &Report) -> Result<(), SinkStop>
    requires { spec.AllOpen (map S.closed sinks.old) }
    ensures { spec.IsHanding report.now result
        (spec.sinks_by S.reports S.closed S.failures sinks.old) (spec.sinks_by S.reports S.closed S.failures sinks.new) }
{
    for at in 0..sinks.len() {
        if let Err(fault) = sinks[at].give(report) {
            return Err(SinkStop { at, fault });
        }
    }
    Ok(())
}

// Finishes each sink, in order.
fn finish<S: Slot>(sinks: &mut [S]) -> Result<(), SinkStop>
    requires { spec.AllOpen (map S.closed sinks.old) }
    ensures { spec.IsFinishing result
        (spec.sinks_by S.reports S.closed S.failures sinks.old) (spec.sinks_by S.reports S.closed S.failures sinks.new) }
{
    for at in 0..sinks.len() {
        if let Err(fault) = sinks[at].close() {
            return Err(SinkStop { at, fault });
        }
    }
    Ok(())
}

/// Hands each report to each sink, in order, and then finishes each sink. Stops where a sink refuses.
pub fn hand_out<S: Slot>(sinks: &mut [S], reports: &[Report]) -> Result<(), SinkStop>
    requires { spec.AllOpen (map S.closed sinks.old) }
    ensures { spec.IsHandingOut reports.now result
        (spec.sinks_by S.reports S.closed S.failures sinks.old) (spec.sinks_by S.reports S.closed S.failures sinks.new) }
{
    for report in reports {
        if let Err(stop) = hand(sinks, report) {
            return Err(stop);
        }
    }
    finish(sinks)
}
