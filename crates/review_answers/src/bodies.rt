// Bodies of answers that are one object.
ghost use Rattle.std.specs.Prelude.{◌≡◌, IfOk};
ghost use Rattle.serde_json.specs.View.{view};
ghost use Rattle.serde_json.specs.Written.{compact_text};
ghost use Rattle.review_answers.specs.Bodies as spec;

use job_core::{JobFile, JobHead};
use serde_json::{Value, json};
use std::alloc::{AllocError, Global};

fn made_value(alloc: Global, head: &JobHead) -> Result<Value, AllocError>
    ensures { IfOk result (λ v. view v ≡ spec.made head.now) }
{
    json!(in alloc; {
        "edits": head.edits,
        "job": head.job,
        "reports": head.reports,
        "status": head.status
    })
}

/// The body for a new job: `{"edits":E,"job":J,"reports":R,"status":S}`. The only error is want of memory.
pub fn made_body(alloc: Global, head: &JobHead) -> Result<Vec<u8>, AllocError>
    ensures { IfOk result (λ v. v.items ≡ compact_text (spec.made head.now)) }
{
    Ok(made_value(alloc, head)?.to_string(alloc)?.into_bytes())
}

fn head_value(alloc: Global, head: &JobHead) -> Result<Value, AllocError>
    ensures { IfOk result (λ v. view v ≡ spec.head head.now) }
{
    json!(in alloc; {
        "closed": head.closed,
        "edits": head.edits,
        "job": head.job,
        "reports": head.reports,
        "status": head.status
    })
}

/// The body for a job that stands: the same, with `"closed":true` or `false` first. The only error is want of memory.
pub fn head_body(alloc: Global, head: &JobHead) -> Result<Vec<u8>, AllocError>
    ensures { IfOk result (λ v. v.items ≡ compact_text (spec.head head.now)) }
{
    Ok(head_value(alloc, head)?.to_string(alloc)?.into_bytes())
}

fn file_value(alloc: Global, path: &str, written: &str) -> Result<Value, AllocError>
    ensures { IfOk result (λ v. view v ≡ spec.file path.now written.now) }
{
    json!(in alloc; { "path": path, "text": written })
}

/// The body for a file: `{"path":P,"text":T}`, its path and what was written of it. The only error is want of memory.
pub fn file_body(alloc: Global, file: &JobFile) -> Result<Vec<u8>, AllocError>
    ensures { IfOk result (λ v. v.items ≡ compact_text (spec.file file.now.path file.now.written)) }
{
    let value = file_value(alloc, file.path.as_str(), file.written.as_str())?;
    Ok(value.to_string(alloc)?.into_bytes())
}

fn judged_value(alloc: Global, job: u32, report: u32) -> Result<Value, AllocError>
    ensures { IfOk result (λ v. view v ≡ spec.judged job report) }
{
    json!(in alloc; { "job": job, "report": report })
}

/// The body for a verdict: `{"job":J,"report":N}`. The only error is want of memory.
pub fn judged_body(alloc: Global, job: u32, report: u32) -> Result<Vec<u8>, AllocError>
    ensures { IfOk result (λ v. v.items ≡ compact_text (spec.judged job report)) }
{
    Ok(
        judged_value(alloc, job, report)?
            .to_string(alloc)?
            .into_bytes(),
    )
}

fn error_value(alloc: Global, word: &str) -> Result<Value, AllocError>
    ensures { IfOk result (λ v. view v ≡ spec.error word.now) }
{
    json!(in alloc; { "error": word })
}

/// The body of a refusal: `{"error":WORD}`. The only error is want of memory.
pub fn error_body(alloc: Global, word: &str) -> Result<Vec<u8>, AllocError>
    ensures { IfOk result (λ v. v.items ≡ compact_text (spec.error word.now)) }
{
    Ok(error_value(alloc, word)?.to_string(alloc)?.into_bytes())
}
