// Rows of sinks of bytes.
use crate::shown::{put_bytes, put_done};
use crate::words::parts;
use io_ports::{CalmSink, MemorySink, Sink};
use std::alloc::{AllocError, Global};

// The calls of a sink: `put:TEXT` each.
fn put_all<S: Sink>(sink: &mut S, words: &str, out: &mut String) -> Result<(), AllocError> {
    for word in words.split(' ') {
        let (_call, text, _) = parts(word);
        put_done(out, sink.put(text.as_bytes()))?;
    }
    Ok(())
}

/// A sink with one byte that fails at some calls.
pub fn memory_sink(
    alloc: Global,
    failing: Vec<u64>,
    words: &str,
    out: &mut String,
) -> Result<(), AllocError> {
    let mut sink = MemorySink::new(vec![in alloc; b'a']?, failing);
    put_all(&mut sink, words, out)?;
    put_bytes(out, sink.bytes())
}

/// A sink with no byte that never fails.
pub fn calm_sink(alloc: Global, words: &str, out: &mut String) -> Result<(), AllocError> {
    let mut sink = CalmSink::new(Vec::new(alloc));
    put_all(&mut sink, words, out)?;
    put_bytes(out, sink.bytes())
}
