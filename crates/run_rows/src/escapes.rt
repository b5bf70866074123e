// Bytes on one line: `\n`, `\r` and `\t` for these bytes, and `\\` for a backslash.
use std::alloc::{AllocError, Global};

// The byte that stands behind a backslash.
fn meant(byte: u8) -> u8 {
    match byte {
        b'n' => b'\n',
        b'r' => b'\r',
        b't' => b'\t',
        other => other,
    }
}

/// The bytes that are written so.
pub fn plain(alloc: Global, line: &str) -> Result<Vec<u8>, AllocError> {
    let mut out = Vec::new(alloc);
    let mut is_escaped = false;
    for byte in line.as_bytes() {
        if is_escaped {
            out.push(meant(*byte))?;
            is_escaped = false;
        } else if *byte == b'\\' {
            is_escaped = true;
        } else {
            out.push(*byte)?;
        }
    }
    Ok(out)
}

/// Puts bytes on a line.
pub fn push_bytes(text: &mut String, bytes: &[u8]) -> Result<(), AllocError> {
    for byte in bytes {
        match *byte {
            b'\n' => text.push_str("\\n")?,
            b'\r' => text.push_str("\\r")?,
            b'\t' => text.push_str("\\t")?,
            b'\\' => text.push_str("\\\\")?,
            other => text.push(other as char)?,
        }
    }
    Ok(())
}
