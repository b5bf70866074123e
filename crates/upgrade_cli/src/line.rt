// The line of a run.
ghost use Rattle.std.specs.Prelude.{◌≡◌, ◌++◌, IfOk, OnOk, string_bytes};
ghost use Rattle.upgrade_cli.specs.Lines as spec;

use crate::stop::{NamesStop, Stop, Summary};
use io_ports::Bytes;
use rule_tables::SettingsFault;
use std::alloc::{AllocError, Global};
use upgrade_core::{LimitFault, LimitKind, Place};

fn summary_line(alloc: Global, summary: &Summary) -> Result<String, AllocError>
    ensures { IfOk result (λ s. string_bytes s ≡ spec.summary_line summary.now) }
{
    let files = summary.files;
    let edits = summary.edits;
    let reports = summary.reports;
    let stops = summary.stops;
    format!(in alloc; "files {files} edits {edits} reports {reports} stops {stops}\n")
}

// The name of a kind of limit.
fn kind_name(kind: LimitKind) -> &'static str
    ensures { result.now ≡ spec.kind_name kind }
{
    match kind {
        LimitKind::Files => "files",
        LimitKind::FileBytes => "file-bytes",
        LimitKind::AllBytes => "all-bytes",
        LimitKind::SettingsBytes => "settings-bytes",
        LimitKind::Variables => "variables",
        LimitKind::Cells => "cells",
    }
}

fn limit_line(alloc: Global, limit: &LimitFault) -> Result<String, AllocError>
    ensures { IfOk result (λ s. string_bytes s ≡ spec.limit_line limit.now) }
{
    let kind = kind_name(limit.kind);
    let number = limit.number;
    format!(in alloc; "limit {kind} {number}\n")
}

fn settings_line(alloc: Global, fault: &SettingsFault) -> Result<String, AllocError>
    ensures { IfOk result (λ s. string_bytes s ≡ spec.settings_line fault.now) }
{
    match fault {
        SettingsFault::NotToml => String::from_str(alloc, "settings not-toml\n"),
        SettingsFault::UnknownKey(key) => {
            let key = key.as_str();
            format!(in alloc; "settings unknown-key {key}\n")
        }
        SettingsFault::UnknownRule(key) => {
            let key = key.as_str();
            format!(in alloc; "settings unknown-rule {key}\n")
        }
        SettingsFault::BadValue(key) => {
            let key = key.as_str();
            format!(in alloc; "settings bad-value {key}\n")
        }
        SettingsFault::Memory => Ok(String::new(alloc)),
    }
}

// Puts a space and a place at the end of a line: a path, a colon, and the byte at which something begins.
fn push_place(alloc: Global, line: &mut Vec<u8>, place: &Place) -> Result<(), AllocError>
    ensures { OnOk result (line.new.items ≡ line.old.items ++ spec.place_text place.now) }
{
    let path = place.path.as_str();
    let start = place.start;
    let text = format!(in alloc; " {path}:{start}")?;
    line.extend_from_slice(text.as_str().as_bytes())
}

// Puts each of some names at the end of a line, behind a space.
fn push_names(line: &mut Vec<u8>, names: &[Bytes]) -> Result<(), AllocError>
    ensures { OnOk result (line.new.items ≡ line.old.items ++ spec.spaced names.now) }
{
    for name in names {
        line.extend_from_slice(b" ")?;
        line.extend_from_slice(name.as_slice())?;
    }
    Ok(())
}

fn names_line(alloc: Global, names: &NamesStop) -> Result<Vec<u8>, AllocError>
    ensures { IfOk result (λ line. line.items ≡ spec.names_line names.now) }
{
    let mut line = Vec::new(alloc);
    match names {
        NamesStop::Twice {
            name,
            first,
            second,
        } => {
            line.extend_from_slice(b"names twice ")?;
            line.extend_from_slice(name.as_slice())?;
            push_place(alloc, &mut line, first)?;
            push_place(alloc, &mut line, second)?;
        }
        NamesStop::Cycle(classes) => {
            line.extend_from_slice(b"names cycle")?;
            push_names(&mut line, classes.as_slice())?;
        }
        NamesStop::NoFile(path) => {
            line.extend_from_slice(b"names no-file ")?;
            line.extend_from_slice(path.as_str().as_bytes())?;
        }
    }
    line.extend_from_slice(b"\n")?;
    Ok(line)
}

// The bytes of a text.
fn bytes_of(alloc: Global, text: &str) -> Result<Vec<u8>, AllocError>
    ensures { IfOk result (λ line. line.items ≡ text.now) }
{
    Vec::from_slice(alloc, text.as_bytes())
}

fn stop_line(alloc: Global, stop: &Stop) -> Result<Vec<u8>, AllocError>
    ensures { IfOk result (λ line. line.items ≡ spec.stop_line stop.now) }
{
    match stop {
        Stop::Usage => bytes_of(alloc, "usage: upgrader upgrade, check, sample or serve\n"),
        Stop::Limit(limit) => bytes_of(alloc, limit_line(alloc, limit)?.as_str()),
        Stop::NoSettings => bytes_of(alloc, "settings absent\n"),
        Stop::Settings(fault) => bytes_of(alloc, settings_line(alloc, fault)?.as_str()),
        Stop::Source(path) => {
            let path = path.as_str();
            bytes_of(alloc, format!(in alloc; "source {path}\n")?.as_str())
        }
        Stop::Names(names) => names_line(alloc, names),
        Stop::SourceFault => bytes_of(alloc, "fault source\n"),
        Stop::SinkFault => bytes_of(alloc, "fault sink\n"),
        Stop::TargetFault => bytes_of(alloc, "fault target\n"),
        Stop::Memory => Ok(Vec::new(alloc)),
    }
}

/// The line of what a run came to, with its newline. The only error is want of memory.
pub fn line_of(alloc: Global, came: &Result<Summary, Stop>) -> Result<Vec<u8>, AllocError>
    ensures { IfOk result (λ line. line.items ≡ spec.line came.now) }
{
    match came {
        Ok(summary) => bytes_of(alloc, summary_line(alloc, summary)?.as_str()),
        Err(stop) => stop_line(alloc, stop),
    }
}
