// Reports as lines.
ghost use Rattle.std.specs.Prelude.{◌≡◌, IfOk};
ghost use Rattle.io_ports.specs.Lines.{line};

use crate::report::Report;
use crate::reports::names::{text_of_cause, text_of_code};
use std::alloc::{AllocError, Global};

/// `PATH:START-END CODE CAUSE WEIGHT` and a newline. A code or cause without a name is written as
/// its number. The only error is want of memory.
pub fn report_line(alloc: Global, report: &Report) -> Result<Vec<u8>, AllocError>
    ensures { IfOk result (λ v. v.items ≡ line report.now) }
{
    let path = report.path.as_str();
    let start = report.span.start;
    let end = report.span.end;
    let code = text_of_code(alloc, report.code)?;
    let cause = text_of_cause(alloc, report.cause)?;
    let weight = report.weight.name();
    let text = format!(in alloc; "{path}:{start}-{end} {code} {cause} {weight}\n")?;
    Ok(text.into_bytes())
}
