// Rows of listeners in memory.
use crate::shown::{put_bytes, put_done, put_fault};
use conn_ports::{CalmConn, CalmListener, Conn, Listener, MemoryConn, MemoryListener};
use io_ports::PortFault;
use std::alloc::{AllocError, Global};

// The next connection is read once and given back.
fn serve<L: Listener>(listener: &mut L, into: &mut Vec<u8>) -> Result<(), PortFault> {
    let mut conn = listener.next()?;
    let came = conn.read(9, into);
    listener.ended(conn);
    came.map(|_| ())
}

// Adds what the next connection gives.
fn put_next<L: Listener>(
    alloc: Global,
    listener: &mut L,
    out: &mut String,
) -> Result<(), AllocError> {
    let mut into = Vec::new(alloc);
    match serve(listener, &mut into) {
        Ok(()) => put_bytes(out, into.as_slice()),
        Err(fault) => put_fault(out, fault),
    }
}

// The calls of a listener: `open` or `next` each.
fn calls<L: Listener>(
    alloc: Global,
    listener: &mut L,
    words: &str,
    out: &mut String,
) -> Result<(), AllocError> {
    for word in words.split(' ') {
        match word {
            "open" => put_done(out, listener.open(8080))?,
            _ => put_next(alloc, listener, out)?,
        }
    }
    Ok(())
}

/// A listener with two connections that fails at some calls, and what the ones that were given back had given.
pub fn memory(
    alloc: Global,
    failing: Vec<u64>,
    words: &str,
    out: &mut String,
) -> Result<(), AllocError> {
    let first = MemoryConn::new(Vec::from_slice(alloc, b"one")?, 9, Vec::new(alloc));
    let second = MemoryConn::new(Vec::from_slice(alloc, b"two")?, 9, Vec::new(alloc));
    let links = vec![in alloc; first, second]?;
    let mut listener = MemoryListener::new(alloc, links, failing);
    calls(alloc, &mut listener, words, out)?;
    out.push_str(" |")?;
    for conn in listener.given_back() {
        put_bytes(out, conn.taken())?;
    }
    Ok(())
}

/// A listener with one connection that never fails.
pub fn calm(alloc: Global, words: &str, out: &mut String) -> Result<(), AllocError> {
    let only = CalmConn::new(Vec::from_slice(alloc, b"one")?, 9);
    let mut listener = CalmListener::new(alloc, vec![in alloc; only]?);
    calls(alloc, &mut listener, words, out)?;
    out.push_str(" |")?;
    for conn in listener.given_back() {
        put_bytes(out, conn.taken())?;
    }
    Ok(())
}
