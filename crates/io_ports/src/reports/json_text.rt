// Reports as JSON.
ghost use Rattle.std.specs.Prelude.{◌≡◌, List, ℕ, IfOk};
ghost use Rattle.serde_json.specs.View.{view};
ghost use Rattle.io_ports.specs.Lines.{json_line, json_value};

use crate::report::Report;
use crate::reports::names::{text_of_cause, text_of_code};
use serde_json::{Value, json};
use span_edits::Span;
use std::alloc::{AllocError, Global};

// The object of a report's parts.
fn value_of(
    alloc: Global,
    cause: &str,
    code: &str,
    span: Span,
    path: &str,
    weight: &str,
) -> Result<Value, AllocError>
    ensures { IfOk result (λ v. view v ≡ json_value cause.now code.now span.end path.now span.start weight.now) }
{
    json!(in alloc; {
        "cause": cause,
        "code": code,
        "end": span.end,
        "path": path,
        "start": span.start,
        "weight": weight
    })
}

/// One compact JSON object with the keys `cause`, `code`, `end`, `path`, `start` and `weight`, and a
/// newline. A code or cause without a name is written as its number, as a string. The only error is
/// want of memory.
pub fn report_json(alloc: Global, report: &Report) -> Result<Vec<u8>, AllocError>
    ensures { IfOk result (λ v. v.items ≡ json_line report.now) }
{
    let code = text_of_code(alloc, report.code)?;
    let cause = text_of_cause(alloc, report.cause)?;
    let value = value_of(
        alloc,
        cause.as_str(),
        code.as_str(),
        report.span,
        report.path.as_str(),
        report.weight.name(),
    )?;
    let mut text = value.to_string(alloc)?;
    text.push('\n')?;
    Ok(text.into_bytes())
}
