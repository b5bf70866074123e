//! The worked rows of the rules on syntax: each line of the input is a source, and each line of the output what a run makes of it.
#![tactic(auto)]

mod escapes;
mod row;

use std::io;

fn main(rt: HostRuntime) -> io::Result<()> {
    let alloc = rt.alloc();
    for line in rt.lines(alloc) {
        let text = row::row(alloc, line?.as_str().as_bytes())?;
        println!(rt; "{text}")?;
    }
    Ok(())
}
