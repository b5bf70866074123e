//! Runs of the whole program, as data: `rows.txt` says of each run what stands before it, and one line says what stands
//! after it.
#![tactic(auto)]

mod escapes;
mod folders;
mod order;
mod row;
mod running;
mod short;
mod standing;
mod told;

use row::Row;
use std::{fs, io};

/// What ends a row that is run over ports in memory.
const RUN: &str = "run";

/// What ends a row that is run over folders.
const RUN_OVER_FOLDERS: &str = "run over folders";

// Prints what a run made of a row.
fn print_row(rt: &HostRuntime, row: Row, number: u64, over_folders: bool) -> io::Result<()> {
    let name = String::from_str(rt.alloc(), row.name.as_str())?;
    let text = if over_folders {
        folders::run_row(rt, &row, number)?
    } else {
        running::run_row(rt, row, number)?
    };
    println!(rt; "{name}: {text}")
}

fn main(rt: HostRuntime) -> io::Result<()> {
    let rows = fs::read_to_string(&rt, "rows.txt")?;
    let mut row = Row::new(rt.alloc());
    let mut number = 0u64;
    for line in rows.as_str().lines() {
        if line == RUN || line == RUN_OVER_FOLDERS {
            let next = Row::new(rt.alloc());
            print_row(&rt, row, number, line == RUN_OVER_FOLDERS)?;
            row = next;
            number = number.saturating_add(1);
        } else if !row.read(rt.alloc(), line)? {
            println!(rt; "no part of a row: {line}")?;
        }
    }
    Ok(())
}
