// The reports of a job as one list.
ghost use Rattle.std.specs.Prelude.{◌≡◌, IfOk, map};
ghost use Rattle.serde_json.specs.View.{view};
ghost use Rattle.serde_json.specs.Written.{compact_text};
ghost use Rattle.review_answers.specs.Bodies.{reports, report, report_of, verdict_word};

use io_ports::{Report, text_of_cause, text_of_code};
use job_core::{Judged, Verdict};
use serde_json::{Value, json};
use std::alloc::{AllocError, Global};

// `open`, `accept` or `reject`.
fn word_of(verdict: Verdict) -> &'static str
    ensures { result.now ≡ verdict_word verdict }
{
    match verdict {
        Verdict::Open => "open",
        Verdict::Accept => "accept",
        Verdict::Reject => "reject",
    }
}

// A report with the texts of its code and its cause.
fn value_of(
    alloc: Global,
    cause: &str,
    code: &str,
    place: &Report,
    note: &str,
    verdict: &str,
) -> Result<Value, AllocError>
    ensures { IfOk result (λ v. view v ≡ report cause.now code.now place.now note.now verdict.now) }
{
    json!(in alloc; {
        "cause": cause,
        "code": code,
        "end": place.span.end,
        "note": note,
        "path": place.path.as_str(),
        "start": place.span.start,
        "verdict": verdict,
        "weight": place.weight.name()
    })
}

fn report_value(alloc: Global, judged: &Judged) -> Result<Value, AllocError>
    ensures { IfOk result (λ v. view v ≡ report_of judged.now) }
{
    let cause = text_of_cause(alloc, judged.report.cause)?;
    let code = text_of_code(alloc, judged.report.code)?;
    value_of(
        alloc,
        cause.as_str(),
        code.as_str(),
        &judged.report,
        judged.note.as_str(),
        word_of(judged.verdict),
    )
}

fn values(alloc: Global, judged: &[Judged]) -> Result<Vec<Value>, AllocError>
    ensures { IfOk result (λ vs. map view vs.items ≡ map report_of judged.now) }
{
    let mut values = Vec::new(alloc);
    for one in judged {
        values.push(report_value(alloc, one)?)?;
    }
    Ok(values)
}

fn list_value(alloc: Global, judged: &[Judged]) -> Result<Value, AllocError>
    ensures { IfOk result (λ v. view v ≡ reports judged.now) }
{
    Ok(Value::Array(values(alloc, judged)?))
}

/// The body for the reports of a job: a list of objects with the keys `cause`, `code`, `end`, `note`, `path`, `start`,
/// `verdict` and `weight`. A code or a cause without a name is written as its number, as a string. The only error is want of
/// memory.
#[tactic(auto, using(crate::proofs::NoFloats::reports_have_no_float))]
pub fn reports_body(alloc: Global, judged: &[Judged]) -> Result<Vec<u8>, AllocError>
    ensures { IfOk result (λ v. v.items ≡ compact_text (reports judged.now)) }
{
    Ok(list_value(alloc, judged)?.to_string(alloc)?.into_bytes())
}
