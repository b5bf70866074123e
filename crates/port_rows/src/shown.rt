// Answers as texts.
use io_ports::{Bytes, Found, PathText, PortFault};
use std::alloc::AllocError;

/// Adds a word.
pub fn put_word(out: &mut String, word: &str) -> Result<(), AllocError> {
    out.push(' ')?;
    out.push_str(word)
}

/// Adds a number.
pub fn put_number(out: &mut String, number: u64) -> Result<(), AllocError> {
    write!(out, " {number}")
}

/// The word of a fault.
pub fn fault_word(fault: PortFault) -> &'static str {
    match fault {
        PortFault::Failed => "Failed",
        PortFault::Memory => "Memory",
    }
}

/// Adds what a call came to that answers nothing else.
pub fn put_done(out: &mut String, came: Result<(), PortFault>) -> Result<(), AllocError> {
    match came {
        Ok(()) => put_word(out, "Ok"),
        Err(fault) => put_word(out, fault_word(fault)),
    }
}

/// Adds what a read came to.
pub fn put_found(out: &mut String, came: Result<Found, PortFault>) -> Result<(), AllocError> {
    match came {
        Ok(Found::Whole) => put_word(out, "Whole"),
        Ok(Found::Longer) => put_word(out, "Longer"),
        Ok(Found::Absent) => put_word(out, "Absent"),
        Err(fault) => put_word(out, fault_word(fault)),
    }
}

/// Adds what a listing came to: the paths in square brackets.
pub fn put_listed(
    out: &mut String,
    came: Result<Vec<PathText>, PortFault>,
) -> Result<(), AllocError> {
    match came {
        Ok(paths) => {
            out.push_str(" [")?;
            for path in &paths {
                put_word(out, path.as_str())?;
            }
            out.push_str(" ]")
        }
        Err(fault) => put_word(out, fault_word(fault)),
    }
}

/// Adds bytes between slashes, a line end as `␊`, the byte 0 as `␀`.
pub fn put_bytes(out: &mut String, bytes: &[u8]) -> Result<(), AllocError> {
    out.push_str(" /")?;
    for byte in bytes {
        match *byte {
            0 => out.push('\u{2400}')?,
            b'\n' => out.push('\u{240a}')?,
            other => out.push(char::from(other))?,
        }
    }
    out.push('/')
}

/// Adds files: each path with its bytes.
pub fn put_files(out: &mut String, files: &[(PathText, Bytes)]) -> Result<(), AllocError> {
    for file in files {
        put_word(out, file.0.as_str())?;
        put_bytes(out, file.1.as_slice())?;
    }
    Ok(())
}

/// Adds a fault.
pub fn put_fault(out: &mut String, fault: PortFault) -> Result<(), AllocError> {
    put_word(out, fault_word(fault))
}

/// Adds what a read of a connection came to.
pub fn put_count(out: &mut String, came: Result<usize, PortFault>) -> Result<(), AllocError> {
    match came {
        Ok(count) => put_number(out, count as u64),
        Err(fault) => put_fault(out, fault),
    }
}
