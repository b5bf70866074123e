//! Prints the tokens of each source in `rows.txt`, a row a line. A row is the version, `7` or `8`, a space, and a source
//! in which `\n`, `\r`, `\t`, `\1` and `\\` stand for a line feed, a carriage return, a tab, the byte 1 and a backslash.
#![tactic(auto)]

use php_lexer::{LexFault, lex_marks};
use php_terminals::marked::text_of;
use php_tree::Version;
use std::{fs, io, str};

// The byte that an escaped one stands for.
fn meant(byte: u8) -> u8 {
    match byte {
        b'n' => b'\n',
        b'r' => b'\r',
        b't' => b'\t',
        b'1' => 1,
        _ => byte,
    }
}

// Writes bytes at the end, with line ends, tabs and backslashes escaped.
fn escape(out: &mut Vec<u8>, text: &[u8]) -> io::Result<()> {
    for byte in text {
        match *byte {
            b'\n' => out.extend_from_slice(b"\\n")?,
            b'\r' => out.extend_from_slice(b"\\r")?,
            b'\t' => out.extend_from_slice(b"\\t")?,
            b'\\' => out.extend_from_slice(b"\\\\")?,
            other => out.push(other)?,
        }
    }
    Ok(())
}

// The tokens of a source, each as its kind, its place and its text, or the fault.
fn shown(rt: &HostRuntime, version: Version, source: &[u8]) -> io::Result<Vec<u8>> {
    let mut out = Vec::new(rt.alloc());
    match lex_marks(rt.alloc(), version, source) {
        Err(fault) => out.extend_from_slice(format!(in rt.alloc(); "{fault:?}")?.as_bytes())?,
        Ok(marks) => {
            for mark in &marks {
                let place = format!(in rt.alloc(); "{:?} {} ", mark.kind, mark.start)?;
                out.extend_from_slice(place.as_bytes())?;
                escape(&mut out, text_of(source, *mark))?;
                out.push(b'|')?;
            }
        }
    }
    Ok(out)
}

// Prints the line of a row.
fn print_row(rt: &HostRuntime, row: &[u8]) -> io::Result<()> {
    let line = match row {
        [b'7', b' ', source @ ..] => shown(rt, Version::V74, source)?,
        [b'8', b' ', source @ ..] => shown(rt, Version::V83, source)?,
        _ => Vec::new(rt.alloc()),
    };
    match str::from_utf8(line.as_slice()) {
        Ok(text) => println!(rt; "{text}"),
        Err(_) => println!(rt; "no UTF-8"),
    }
}

// Prints what a file of so many bytes of HTML gives.
fn print_long(rt: &HostRuntime, count: usize) -> io::Result<()> {
    let long = vec![in rt.alloc(); b'a'; count]?;
    match lex_marks(rt.alloc(), Version::V74, long.as_slice()) {
        Ok(marks) => println!(rt; "{count} bytes: {} tokens", marks.len()),
        Err(LexFault::TooLong) => println!(rt; "{count} bytes: TooLong"),
        Err(_) => println!(rt; "{count} bytes: another fault"),
    }
}

fn main(rt: HostRuntime) -> io::Result<()> {
    let rows = fs::read(&rt, "rows.txt")?;
    let mut row = Vec::new(rt.alloc());
    let mut escaped = false;
    for byte in &rows {
        if escaped {
            row.push(meant(*byte))?;
            escaped = false;
        } else if *byte == b'\\' {
            escaped = true;
        } else if *byte == b'\n' {
            print_row(&rt, row.as_slice())?;
            row.clear();
        } else {
            row.push(*byte)?;
        }
    }
    print_long(&rt, 1_048_576)?;
    print_long(&rt, 1_048_577)
}
