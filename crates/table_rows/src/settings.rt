// Rows of settings.
use rule_tables::{RuleId, Settings};
use std::alloc::{AllocError, Global};

// The byte that stands behind a backslash: `n` for a line end, `x` for one that no UTF-8 has.
fn meant(byte: u8) -> u8 {
    match byte {
        b'n' => b'\n',
        b'x' => 255,
        other => other,
    }
}

// The bytes of a line.
fn plain(alloc: Global, line: &[u8]) -> Result<Vec<u8>, AllocError> {
    let mut out = Vec::new(alloc);
    let mut is_escaped = false;
    for byte in line {
        if is_escaped {
            out.push(meant(*byte))?;
            is_escaped = false;
        } else if *byte == b'\\' {
            is_escaped = true;
        } else {
            out.push(*byte)?;
        }
    }
    Ok(out)
}

// Adds the rules that are off.
fn put_off(out: &mut String, settings: &Settings) -> Result<(), AllocError> {
    for rule in RuleId::ALL {
        if !settings.is_on(rule) {
            out.push_str(", off ")?;
            out.push_str(rule.name())?;
        }
    }
    Ok(())
}

// Adds the entries, and the file that comes first.
fn put_paths(out: &mut String, settings: &Settings) -> Result<(), AllocError> {
    if let Some(entries) = settings.entries() {
        out.push_str(", entries")?;
        for entry in entries {
            out.push(' ')?;
            out.push_str(entry.as_str())?;
        }
    }
    if let Some(first) = settings.prepend() {
        out.push_str(", first ")?;
        out.push_str(first.as_str())?;
    }
    Ok(())
}

/// What a text of settings says, or why it is refused.
pub fn settings(alloc: Global, line: &str, out: &mut String) -> Result<(), AllocError> {
    let bytes = plain(alloc, line.as_bytes())?;
    match Settings::parse(alloc, bytes.as_slice()) {
        Ok(settings) => {
            out.push_str("  => accepted")?;
            put_off(out, &settings)?;
            put_paths(out, &settings)
        }
        Err(fault) => write!(out, "  => {fault}"),
    }
}
