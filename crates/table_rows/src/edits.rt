// Rows of edits.
ghost use Rattle.std.specs.Prelude.{◌≡◌, IfOk};

use span_edits::{Bytes, Edit, EditFault, Edits, Span};
use std::alloc::{AllocError, Global};
use std::str;

// A number of 32 bits, or 0.
fn number(text: &str) -> u32 {
    text.parse::<u32>().unwrap_or(0)
}

// A range of bytes, if its end isn't before its start.
fn span_of(text: &str) -> Option<Span> {
    let (start, end) = text.split_once('-')?;
    let start = number(start);
    let end = number(end);
    if start > end {
        return None;
    }
    Some(Span { start, end })
}

// An edit of a word: `START-END:TEXT`.
fn edit_of(alloc: Global, word: &str) -> Result<Option<Edit>, AllocError> {
    let (span, text) = word.split_once(':').unwrap_or((word, ""));
    let Some(span) = span_of(span) else {
        return Ok(None);
    };
    let text = Bytes::new(Vec::from_slice(alloc, text.as_bytes())?);
    Ok(Some(Edit {
        span,
        text: text.copy(alloc)?,
    }))
}

// Adds a range of bytes.
fn put_span(out: &mut String, span: Span) -> Result<(), AllocError> {
    let start = span.start;
    let end = span.end;
    write!(out, " {start}-{end}")
}

// Adds a word.
fn put(out: &mut String, word: &str) -> Result<(), AllocError> {
    out.push(' ')?;
    out.push_str(word)
}

// Adds what the adding of an edit came to.
fn put_added(out: &mut String, came: Result<(), EditFault>) -> Result<(), AllocError> {
    match came {
        Ok(()) => put(out, "Ok"),
        Err(EditFault::Overlap { stored }) => {
            put(out, "Overlap")?;
            put_span(out, stored)
        }
        Err(EditFault::OutOfSource) => put(out, "OutOfSource"),
        Err(EditFault::Memory) => put(out, "Memory"),
    }
}

// Adds an edit to the others.
fn add(alloc: Global, edits: &mut Edits, word: &str, out: &mut String) -> Result<(), AllocError>
    ensures { edits.new.len ≡ edits.old.len }
{
    match edit_of(alloc, word)? {
        None => put(out, "none"),
        Some(edit) => {
            let came = edits.add(edit);
            put_added(out, came)
        }
    }
}

// The edits of a source of six bytes.
fn added(alloc: Global, words: &str, out: &mut String) -> Result<Edits, AllocError>
    ensures { IfOk result (λ edits. edits.len ≡ 6) }
{
    let mut edits = Edits::new(alloc, 6)?;
    for word in words.split(' ') {
        add(alloc, &mut edits, word, out)?;
    }
    Ok(edits)
}

// Adds the ranges of the stored edits, in their order.
fn put_edits(out: &mut String, edits: &Edits) -> Result<(), AllocError> {
    for at in 0..edits.count() {
        if let Some(edit) = edits.get(at) {
            put_span(out, edit.span)?;
        }
    }
    Ok(())
}

// Adds a sign for each byte of a source: `.` where an edit replaces it, and else `o`.
fn put_outside(out: &mut String, edits: &Edits) -> Result<(), AllocError> {
    out.push(' ')?;
    for place in 0..6 {
        out.push(if edits.outside(place) { 'o' } else { '.' })?;
    }
    Ok(())
}

/// What each edit of `abcdef` came to, the ranges that are stored, the bytes that stay, and the edited text.
pub fn edits(alloc: Global, words: &str, out: &mut String) -> Result<(), AllocError> {
    out.push_str("  =>")?;
    let edits = added(alloc, words, out)?;
    out.push_str(" |")?;
    put_edits(out, &edits)?;
    put_outside(out, &edits)?;
    let text = edits.apply(alloc, b"abcdef")?;
    put(out, str::from_utf8(text.as_slice()).unwrap_or("no UTF-8"))
}
