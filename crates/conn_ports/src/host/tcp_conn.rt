// A TCP connection.
ghost use Rattle.std.specs.Prelude.{◌≤◌, vec_len};

use crate::conn::Conn;
use crate::host::faults::refused;
use io_ports::PortFault;
use std::alloc::{AllocError, Global};
use std::io;
use std::io::{Read, Write};
use std::net::{Shutdown, TcpStream};
use std::time::Duration;

// How many bytes are asked of the system at a time.
const BUFFER_BYTES: usize = 16384;

// How often, at most, a connection that was taken back is read to find its end, and how long each
// such read waits.
const LAST_READS: u32 = 64;

const LAST_WAIT_MILLIS: u64 = 50;

/// A TCP connection. Bytes that the system gave beyond those that were asked for are kept for the
/// next read.
#[derive(Drop)]
pub struct TcpConn {
    stream: TcpStream,
    buffer: Vec<u8>,
    at: usize,
    end: usize,
    faults: u64,
    ghost ordered: { at ≤ end },
    ghost within: { end ≤ vec_len buffer },
}

impl TcpConn {
    ghost use Rattle.std.specs.Prelude.{◌≡◌, ◌<◌, None, IfOk, OnErr};
    ghost use Rattle.conn_ports.specs.Link.{Reads};

    /// The connection of a stream, with no fault yet. The only error is want of memory.
    pub fn new(alloc: Global, stream: TcpStream) -> Result<TcpConn, AllocError>
        ensures { IfOk result (λ conn. conn.faults ≡ 0) }
    {
        let buffer = vec![in alloc; 0; BUFFER_BYTES]?;
        Ok(TcpConn {
            stream,
            buffer,
            at: 0,
            end: 0,
            faults: 0,
        })
    }

    /// Ends the connection: says that nothing more is written, and waits a little for the peer to
    /// read what was, since unread input would make the system drop it.
    pub fn close(self) {
        let TcpConn { stream, buffer, .. } = self;
        linger(stream, buffer);
    }

    // Asks the system for bytes, where none are kept.
    fn fill(&mut self) -> io::Result<()>
        ensures { self.new.faults ≡ self.old.faults }
    {
        if self.at == self.end {
            let count = self.stream.read(self.buffer.as_mut_slice())?;
            self.at = 0;
            self.end = count;
        }
        Ok(())
    }

    // Takes at most `max` of the bytes that are kept.
    fn take(&mut self, max: usize, into: &mut Vec<u8>) -> Result<usize, AllocError>
        ensures read { IfOk result (Reads max into.old.items into.new.items None None) }
        ensures bytes { OnErr result (into.new.items ≡ into.old.items) }
        ensures faults { self.new.faults ≡ self.old.faults }
    {
        let count = max.min(self.end - self.at);
        into.extend_from_slice(&self.buffer[self.at..self.at + count])?;
        self.at += count;
        Ok(count)
    }
}

// Writes nothing more, and reads what the peer still sends, for a short time.
fn linger(mut stream: TcpStream, mut buffer: Vec<u8>) {
    if stream.shutdown(Shutdown::Write).is_err() {
        return;
    }
    let wait = Duration::from_millis(LAST_WAIT_MILLIS);
    if stream.set_read_timeout(Some(wait)).is_err() {
        return;
    }
    for _ in 0..LAST_READS {
        match stream.read(buffer.as_mut_slice()) {
            Ok(0) | Err(_) => return,
            Ok(_) => {}
        }
    }
}

impl Conn for TcpConn {
    ghost use Rattle.std.specs.Prelude.{None};

    ghost link = { λ _. None };

    ghost faults = { λ c. c.faults };

    fn read(&mut self, max: usize, into: &mut Vec<u8>) -> Result<usize, PortFault> {
        if let Err(error) = self.fill() {
            return Err(refused(&mut self.faults, error));
        }
        Ok(self.take(max, into)?)
    }

    fn write(&mut self, bytes: &[u8]) -> Result<(), PortFault> {
        match self.stream.write_all(bytes) {
            Ok(()) => Ok(()),
            Err(error) => Err(refused(&mut self.faults, error)),
        }
    }
}
