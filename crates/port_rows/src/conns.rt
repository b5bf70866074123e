// Rows of connections in memory.
use crate::shown::{put_bytes, put_count, put_done, put_number};
use conn_ports::{CalmConn, Conn, MemoryConn};
use std::alloc::{AllocError, Global};

// One call of a connection: `read:MAX` or `write:TEXT`.
fn call<C: Conn>(
    conn: &mut C,
    word: &str,
    into: &mut Vec<u8>,
    out: &mut String,
) -> Result<(), AllocError> {
    let (name, text) = word.split_once(':').unwrap_or((word, ""));
    if name == "write" {
        return put_done(out, conn.write(text.as_bytes()));
    }
    let max = text.parse::<usize>().unwrap_or(0);
    if max == 0 {
        return Ok(());
    }
    put_count(out, conn.read(max, into))
}

// The calls of a connection, and the bytes that were read.
fn calls<C: Conn>(
    alloc: Global,
    conn: &mut C,
    words: &str,
    out: &mut String,
) -> Result<(), AllocError> {
    let mut into = Vec::new(alloc);
    for word in words.split(' ') {
        call(conn, word, &mut into, out)?;
    }
    put_bytes(out, into.as_slice())
}

/// A connection of `12345`, two bytes a piece, that fails at some calls: at its end what was taken, what is left,
/// what was written, and how often it failed.
pub fn memory(
    alloc: Global,
    failing: Vec<u64>,
    words: &str,
    out: &mut String,
) -> Result<(), AllocError> {
    let input = Vec::from_slice(alloc, b"12345")?;
    let mut conn = MemoryConn::new(input, 2, failing);
    calls(alloc, &mut conn, words, out)?;
    put_bytes(out, conn.taken())?;
    put_bytes(out, conn.left())?;
    put_bytes(out, conn.written())?;
    put_number(out, conn.faults())
}

/// A connection of `123`, eight bytes a piece, that never fails.
pub fn calm(alloc: Global, words: &str, out: &mut String) -> Result<(), AllocError> {
    let input = Vec::from_slice(alloc, b"123")?;
    let mut conn = CalmConn::new(input, 8);
    calls(alloc, &mut conn, words, out)?;
    put_bytes(out, conn.taken())?;
    put_bytes(out, conn.left())?;
    put_bytes(out, conn.written())?;
    put_number(out, conn.faults())
}
