//! Worked rows of types and of a pool of types: each line of the input is a call with its types, and each line of the
//! output is that line with what the call came to.
#![tactic(auto)]

mod numbered;
mod shown;
mod words;

use scalar_types::{below, element, flatten, join, meet};
use shown::{put_type, put_word};
use std::alloc::{AllocError, Global};
use std::io;
use words::type_of;

// A call that makes a type: of a type and a depth, or of two types.
fn made(
    alloc: Global,
    call: &str,
    first: &str,
    second: &str,
    out: &mut String,
) -> Result<(), AllocError> {
    let a = type_of(alloc, first)?;
    let made = match call {
        "flatten" => flatten(alloc, &a, second.parse::<u32>().unwrap_or(0))?,
        "element" => element(alloc, &a)?,
        "join" => join(alloc, &a, &type_of(alloc, second)?)?,
        "meet" => meet(alloc, &a, &type_of(alloc, second)?)?,
        _ => a.copy(alloc)?,
    };
    put_type(out, &made)
}

// Whether the first type is below the second.
fn is_below(alloc: Global, first: &str, second: &str, out: &mut String) -> Result<(), AllocError> {
    let a = type_of(alloc, first)?;
    let b = type_of(alloc, second)?;
    put_word(out, if below(&a, &b) { "yes" } else { "no" })
}

// A row with what it comes to.
fn row(alloc: Global, line: &str) -> Result<String, AllocError> {
    let mut out = String::from_str(alloc, line)?;
    let mut words = line.split(' ');
    let call = words.next().unwrap_or("");
    let first = words.next().unwrap_or("");
    let second = words.next().unwrap_or("");
    if call == "##" {
        return Ok(out);
    }
    out.push_str("  =>")?;
    match call {
        "below" => is_below(alloc, first, second, &mut out)?,
        "pool" => numbered::interned(alloc, line, &mut out)?,
        "join-ids" => numbered::joined(alloc, first, second, &mut out)?,
        _ => made(alloc, call, first, second, &mut out)?,
    }
    Ok(out)
}

fn main(rt: HostRuntime) -> io::Result<()> {
    let alloc = rt.alloc();
    for line in rt.lines(alloc) {
        let text = row(alloc, line?.as_str())?;
        println!(rt; "{text}")?;
    }
    Ok(())
}
