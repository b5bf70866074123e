//! Worked rows of rules, of settings and of edits: each line of the input is the name of a rule, a text of settings, or a
//! source with its edits, and each line of the output is that line with what it comes to.
#![tactic(auto)]

mod edits;
mod rules;
mod settings;

use std::alloc::{AllocError, Global};
use std::io;

// A row with what it comes to.
fn row(alloc: Global, line: &str) -> Result<String, AllocError> {
    let mut out = String::from_str(alloc, line)?;
    let (form, words) = line.split_once(' ').unwrap_or((line, ""));
    match form {
        "settings" => settings::settings(alloc, words, &mut out)?,
        "rule" => rules::rule(words, &mut out)?,
        "edits" => edits::edits(alloc, words, &mut out)?,
        _ => {}
    }
    Ok(out)
}

fn main(rt: HostRuntime) -> io::Result<()> {
    let alloc = rt.alloc();
    for line in rt.lines(alloc) {
        let text = row(alloc, line?.as_str())?;
        println!(rt; "{text}")?;
    }
    Ok(())
}
