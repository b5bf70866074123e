// Standard output.
use io_ports::{PortFault, Sink, refused};
use std::alloc::{AllocError, Global};
use std::io;
use std::io::Write;

/// Standard output.
#[derive(Drop)]
pub struct StdoutSink {
    rt: HostRuntime,
    faults: u64,
}

impl StdoutSink {
    /// Standard output. The only error is want of memory, and none comes.
    pub fn new(rt: HostRuntime, _alloc: Global) -> Result<StdoutSink, AllocError> {
        Ok(StdoutSink { rt, faults: 0 })
    }
}

impl Sink for StdoutSink {
    ghost use Rattle.std.specs.Prelude.{None};

    ghost held = { λ _. None };

    ghost faults = { λ s. s.faults };

    fn put(&mut self, bytes: &[u8]) -> Result<(), PortFault> {
        let mut out = io::writer(&self.rt);
        match out.write_all(bytes) {
            Ok(()) => Ok(()),
            Err(error) => Err(refused(&mut self.faults, error)),
        }
    }
}
