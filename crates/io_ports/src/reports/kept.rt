// The reports that a sink took, with the sink of bytes that it writes to.
ghost use Rattle.std.specs.Prelude.{◌≡◌, [], is_ok};
ghost use Rattle.std.specs.Bool.{IsFalse};
ghost use Rattle.io_ports.specs.Causes.{HasCause};
ghost use Rattle.io_ports.specs.Reports.{PutsText, Takes};

use crate::fault::PortFault;
use crate::report::{Report, keep_copy};
use crate::sink::Sink;
use std::alloc::Global;

/// Copies of the reports that were taken, and the sink of bytes behind them.
#[derive(Drop)]
pub struct Kept<S> {
    pub alloc: Global,
    pub sink: S,
    pub reports: Vec<Report>,
    pub is_finished: bool,
}

impl<S> Kept<S> {
    /// No reports so far.
    pub fn new(alloc: Global, sink: S) -> Kept<S>
        ensures sink { result.sink ≡ sink }
        ensures list { result.reports.items ≡ [] }
        ensures unfinished { IsFalse result.is_finished }
    {
        Kept {
            alloc,
            sink,
            reports: Vec::new(alloc),
            is_finished: false,
        }
    }
}

impl<S: Sink> Kept<S> {
    /// Puts a report's line, and keeps a copy of the report.
    pub fn put_line(&mut self, report: &Report, line: &[u8]) -> Result<(), PortFault>
        ensures list { Takes report.now result self.old.reports.items self.new.reports.items }
        ensures finished { self.new.is_finished ≡ self.old.is_finished }
        ensures bytes { PutsText line.now result (S.held self.old.sink) (S.held self.new.sink) }
        ensures cause { HasCause (S.faults self.old.sink) (S.faults self.new.sink) result }
    {
        keep_copy(self.alloc, &mut self.reports, report)?;
        match self.sink.put(line) {
            Ok(()) => Ok(()),
            Err(fault) => {
                self.reports.pop();
                Err(fault)
            }
        }
    }

    /// Puts the last text, and finishes.
    pub fn close(&mut self, text: &[u8]) -> Result<(), PortFault>
        requires { IsFalse self.old.is_finished }
        ensures list { self.new.reports.items ≡ self.old.reports.items }
        ensures finished { self.new.is_finished ≡ is_ok result }
        ensures bytes { PutsText text.now result (S.held self.old.sink) (S.held self.new.sink) }
        ensures cause { HasCause (S.faults self.old.sink) (S.faults self.new.sink) result }
    {
        self.sink.put(text)?;
        self.is_finished = true;
        Ok(())
    }
}
