// The rows of `data/`: each parted from the next by a line `--`. A row that begins with `## ` is a heading.
use crate::sketch::sketch;
use php_tree::Version;
use std::alloc::Global;
use std::fmt::Write;
use std::fs;

// The files, in the order of their subjects.
static SUBJECTS: [&str; 11] = [
    "levels.txt",
    "operands.txt",
    "prefixes.txt",
    "assignments.txt",
    "constructs.txt",
    "quoted.txt",
    "branches.txt",
    "statements.txt",
    "declarations.txt",
    "words.txt",
    "faults.txt",
];

// A text on one line: signs stand for line ends and tabs.
fn on_one_line(alloc: Global, text: &str) -> anyhow::Result<String> {
    let mut out = String::new(alloc);
    for sign in text.chars() {
        match sign {
            '\n' => out.push('\u{240a}')?,
            '\t' => out.push('\u{2409}')?,
            other => out.push(other)?,
        }
    }
    Ok(out)
}

// The statements of a row, their tree in 7.4, and in 8.3 where that is another one.
fn print_row(rt: &HostRuntime, row: &str) -> anyhow::Result<()> {
    let alloc = rt.alloc();
    let mut source = String::new(alloc);
    write!(source, "<?php {row}")?;
    let older = sketch(alloc, Version::V74, source.as_str())?;
    let newer = sketch(alloc, Version::V83, source.as_str())?;
    let shown = on_one_line(alloc, row)?;
    let tree = on_one_line(alloc, older.as_str())?;
    let mut line = shown;
    line.push_str("  =>  ")?;
    line.push_str(tree.as_str())?;
    if older.as_str() != newer.as_str() {
        line.push_str("  8.3: ")?;
        line.push_str(on_one_line(alloc, newer.as_str())?.as_str())?;
    }
    println!(rt; "{line}")?;
    Ok(())
}

// The rows of a file.
fn print_rows(rt: &HostRuntime, text: &str) -> anyhow::Result<()> {
    for row in text.split("\n--\n") {
        if row.starts_with("## ") {
            println!(rt; "{row}")?;
        } else {
            print_row(rt, row)?;
        }
    }
    Ok(())
}

/// Prints the rows of all files.
pub fn rows(rt: &HostRuntime) -> anyhow::Result<()> {
    for subject in SUBJECTS {
        let text = fs::read_to_string(rt, subject)?;
        match text.as_str().strip_suffix("\n") {
            Some(rows) => print_rows(rt, rows)?,
            None => print_rows(rt, text.as_str())?,
        }
    }
    Ok(())
}
