// Rows of reports and of their names.
ghost use Rattle.std.specs.Prelude.{◌≤◌};

use crate::shown::put_word;
use io_ports::{PathText, Report, Span, Weight, cause_name, code_name, report_json, report_line};
use std::alloc::{AllocError, Global};
use std::str;

// A number of 16 bits, or 0.
fn small(text: &str) -> u16 {
    text.parse::<u16>().unwrap_or(0)
}

// A text in which `␁` stands for the byte 1.
fn meant(alloc: Global, text: &str) -> Result<String, AllocError> {
    let mut out = String::new(alloc);
    for sign in text.chars() {
        match sign {
            '\u{2401}' => out.push('\u{1}')?,
            other => out.push(other)?,
        }
    }
    Ok(out)
}

// Adds a text on one line, the byte 1 as `␁` and a line end as `␊`.
fn put_text(out: &mut String, bytes: &[u8]) -> Result<(), AllocError> {
    out.push(' ')?;
    for sign in str::from_utf8(bytes).unwrap_or("no UTF-8").chars() {
        match sign {
            '\u{1}' => out.push('\u{2401}')?,
            '\n' => out.push('\u{240a}')?,
            other => out.push(other)?,
        }
    }
    Ok(())
}

// The weight of a word.
fn weight_of(word: &str) -> Weight {
    match word {
        "note" => Weight::Note,
        "compile" => Weight::Compile,
        _ => Weight::Stop,
    }
}

// A report of the bytes 11 to 26: `PATH CODE CAUSE WEIGHT`.
fn report_of(alloc: Global, words: &str) -> Result<Report, AllocError> {
    let mut words = words.split(' ');
    let path = PathText::new(meant(alloc, words.next().unwrap_or(""))?);
    let code = small(words.next().unwrap_or(""));
    let cause = small(words.next().unwrap_or(""));
    let weight = weight_of(words.next().unwrap_or(""));
    Ok(Report {
        path,
        span: Span { start: 11, end: 26 },
        code,
        cause,
        weight,
    })
}

/// The line of a report.
pub fn line(alloc: Global, words: &str, out: &mut String) -> Result<(), AllocError> {
    let report = report_of(alloc, words)?;
    let copy = report.copy(alloc)?;
    put_text(out, report_line(alloc, &copy)?.as_slice())
}

/// The row of a report in JSON.
pub fn json(alloc: Global, words: &str, out: &mut String) -> Result<(), AllocError> {
    let report = report_of(alloc, words)?;
    put_text(out, report_json(alloc, &report)?.as_slice())
}

/// The name of a code.
pub fn code(number: &str, out: &mut String) -> Result<(), AllocError> {
    put_word(out, code_name(small(number)).unwrap_or("none"))
}

/// The name of a cause.
pub fn cause(number: &str, out: &mut String) -> Result<(), AllocError> {
    put_word(out, cause_name(small(number)).unwrap_or("none"))
}
