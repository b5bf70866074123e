//! Worked rows of the jobs of a review: each line of the input is a machine or a keeper with its calls, and each
//! line of the output is that line with what the calls came to. A line that begins with `##` is a heading.
#![tactic(auto)]

mod keepers;
mod machine;
mod made;

use std::alloc::{AllocError, Global};
use std::io;

// The calls on a keeper that fails at one call.
fn failing_row(alloc: Global, words: &str, out: &mut String) -> Result<(), AllocError> {
    let Some((failing, words)) = words.split_once(' ') else {
        return Ok(());
    };
    let failing = vec![in alloc; failing.parse::<u64>().unwrap_or(0)]?;
    keepers::memory(alloc, failing, words, out)
}

// A row with what it comes to.
fn row(alloc: Global, line: &str) -> Result<String, AllocError> {
    let mut out = String::from_str(alloc, line)?;
    let (form, words) = line.split_once(' ').unwrap_or((line, ""));
    if form == "##" {
        return Ok(out);
    }
    out.push_str("  =>")?;
    match form {
        "machine" => machine::machine(alloc, words, &mut out)?,
        "calm-keeper" => keepers::calm(alloc, words, &mut out)?,
        _ => failing_row(alloc, words, &mut out)?,
    }
    Ok(out)
}

fn main(rt: HostRuntime) -> io::Result<()> {
    let alloc = rt.alloc();
    for line in rt.lines(alloc) {
        let text = row(alloc, line?.as_str())?;
        println!(rt; "{text}")?;
    }
    Ok(())
}
