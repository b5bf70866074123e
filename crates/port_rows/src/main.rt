//! Worked rows of the outside in memory, of connections and of requests: each line of the input is a form with its
//! calls, a report or the bytes of a request, and each line of the output is that line with what it comes to. A line
//! that begins with `##` is a heading; the last line is of a peer on loopback.
#![tactic(auto)]

mod conns;
mod files;
mod listeners;
mod loopback;
mod report_sinks;
mod reports;
mod requests;
mod shown;
mod sinks;
mod words;

use std::alloc::{AllocError, Global};
use std::io;
use words::{numbers, plain};

// What the calls on a form that never fails come to, or those of a text.
fn calm_row(alloc: Global, form: &str, words: &str, out: &mut String) -> Result<(), AllocError> {
    match form {
        "calm-source" => files::calm_source(alloc, words, out),
        "calm-target" => files::calm_target(alloc, words, out),
        "calm-sink" => sinks::calm_sink(alloc, words, out),
        "calm-list" => report_sinks::calm_list(alloc, words, out),
        "text-reports" => report_sinks::text(alloc, words, out),
        "calm-conn" => conns::calm(alloc, words, out),
        "calm-listener" => listeners::calm(alloc, words, out),
        "request" => requests::request(alloc, plain(alloc, words.as_bytes())?, out),
        "retire" => report_sinks::retired(alloc, words, out),
        "line" => reports::line(alloc, words, out),
        "json" => reports::json(alloc, words, out),
        "code" => reports::code(words, out),
        "cause" => reports::cause(words, out),
        _ => Ok(()),
    }
}

// What the calls on a form come to that fails at the calls with the given numbers.
fn failing_row(alloc: Global, form: &str, words: &str, out: &mut String) -> Result<(), AllocError> {
    let Some((failing, words)) = words.split_once(' ') else {
        return Ok(());
    };
    let failing = numbers(alloc, failing)?;
    match form {
        "memory-source" => files::memory_source(alloc, failing, words, out),
        "memory-target" => files::memory_target(alloc, failing, words, out),
        "memory-sink" => sinks::memory_sink(alloc, failing, words, out),
        "memory-list" => report_sinks::memory_list(alloc, failing, words, out),
        "memory-conn" => conns::memory(alloc, failing, words, out),
        "memory-listener" => listeners::memory(alloc, failing, words, out),
        "json-reports" => report_sinks::json(alloc, failing, words, out),
        "count-reports" => report_sinks::counts(alloc, failing, words, out),
        _ => Ok(()),
    }
}

// A row with what it comes to.
fn row(alloc: Global, line: &str) -> Result<String, AllocError> {
    let mut out = String::from_str(alloc, line)?;
    let (form, words) = line.split_once(' ').unwrap_or((line, ""));
    if form == "##" {
        return Ok(out);
    }
    out.push_str("  =>")?;
    calm_row(alloc, form, words, &mut out)?;
    failing_row(alloc, form, words, &mut out)?;
    Ok(out)
}

fn main(rt: HostRuntime) -> io::Result<()> {
    let alloc = rt.alloc();
    for line in rt.lines(alloc) {
        let text = row(alloc, line?.as_str())?;
        println!(rt; "{text}")?;
    }
    let text = loopback::loopback(rt)?;
    println!(rt; "{text}")
}
