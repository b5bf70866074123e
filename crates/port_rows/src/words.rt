// The words of a row.
use std::alloc::{AllocError, Global};

/// The parts of a word, parted by colons: up to three, empty where they are missing.
pub fn parts(word: &str) -> (&str, &str, &str) {
    match word.split_once(':') {
        None => (word, "", ""),
        Some((name, rest)) => match rest.split_once(':') {
            None => (name, rest, ""),
            Some((first, second)) => (name, first, second),
        },
    }
}

/// A decimal number, or 0.
pub fn number(text: &str) -> u64 {
    text.parse::<u64>().unwrap_or(0)
}

/// Decimal numbers, parted by commas.
pub fn numbers(alloc: Global, text: &str) -> Result<Vec<u64>, AllocError> {
    let mut out = Vec::new(alloc);
    for piece in text.split(',') {
        if let Ok(number) = piece.parse::<u64>() {
            out.push(number)?;
        }
    }
    Ok(out)
}

// The byte that stands behind a backslash: `r` and `n` for a line's end.
fn meant(byte: u8) -> u8 {
    match byte {
        b'r' => b'\r',
        b'n' => b'\n',
        other => other,
    }
}

/// The bytes of a line.
pub fn plain(alloc: Global, line: &[u8]) -> Result<Vec<u8>, AllocError> {
    let mut out = Vec::new(alloc);
    let mut is_escaped = false;
    for byte in line {
        if is_escaped {
            out.push(meant(*byte))?;
            is_escaped = false;
        } else if *byte == b'\\' {
            is_escaped = true;
        } else {
            out.push(*byte)?;
        }
    }
    Ok(out)
}
