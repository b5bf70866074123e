// The bytes of a connection in memory.
ghost use Rattle.std.specs.Prelude.{◌≡◌, ◌<◌, ◌≤◌, vec_len};

use std::alloc::AllocError;

/// The input of a connection with the place up to which it was read, the most bytes that a read
/// gives, and the bytes that were written.
#[derive(Drop)]
pub struct Wire {
    input: Vec<u8>,
    at: usize,
    piece: usize,
    written: Vec<u8>,
    ghost within: { at ≤ vec_len input },
    ghost some: { 0 < piece },
}

impl Wire {
    ghost use Rattle.std.specs.Prelude.{[], Some, IfOk, OnOk, OnErr};
    ghost use Rattle.conn_ports.specs.Link.{Reads, with_written};
    ghost use Rattle.conn_ports.specs.Wire.{wire_link};

    /// This input, of which nothing was read. Each read gives at most `piece` bytes.
    pub fn new(input: Vec<u8>, piece: usize) -> Wire
        requires { 0 < piece }
        ensures { wire_link result ≡ record { taken = []; left = input.items; written = [] } }
    {
        let written = Vec::new(*input.allocator());
        Wire {
            input,
            at: 0,
            piece,
            written,
        }
    }

    /// The bytes that were read.
    pub fn taken(&self) -> &[u8]
        ensures { result.now ≡ (wire_link self.now).taken }
    {
        &self.input[..self.at]
    }

    /// The bytes that are still to be read.
    pub fn left(&self) -> &[u8]
        ensures { result.now ≡ (wire_link self.now).left }
    {
        &self.input[self.at..]
    }

    /// The bytes that were written.
    pub fn written(&self) -> &[u8]
        ensures { result.now ≡ (wire_link self.now).written }
    {
        self.written.as_slice()
    }

    /// Appends the next bytes, at most `max`, and answers how many.
    pub fn read(&mut self, max: usize, into: &mut Vec<u8>) -> Result<usize, AllocError>
        requires { 0 < max }
        ensures read { IfOk result (Reads max into.old.items into.new.items (Some (wire_link self.old)) (Some (wire_link self.new))) }
        ensures bytes { OnErr result (into.new.items ≡ into.old.items) }
        ensures link { OnErr result (wire_link self.new ≡ wire_link self.old) }
    {
        let left = self.input.len() - self.at;
        let count = max.min(self.piece).min(left);
        into.extend_from_slice(&self.input[self.at..self.at + count])?;
        self.at += count;
        Ok(count)
    }

    /// Adds bytes to those that were written.
    pub fn write(&mut self, bytes: &[u8]) -> Result<(), AllocError>
        ensures ok { OnOk result (wire_link self.new ≡ with_written bytes.now (wire_link self.old)) }
        ensures err { OnErr result (wire_link self.new ≡ wire_link self.old) }
    {
        self.written.extend_from_slice(bytes)?;
        Ok(())
    }
}
