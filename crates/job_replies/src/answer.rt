// An answer before it is sent.
ghost use Rattle.std.specs.Prelude.{IfOk};
ghost use Rattle.job_replies.specs.Said.{Is, bad_body, conflict, no_job};

use review_answers::{Code, error_body};
use std::alloc::{AllocError, Global};

/// A status and a body.
#[derive(Drop)]
pub struct Answer {
    pub code: Code,
    pub body: Vec<u8>,
}

/// The owner has no such job, file or report.
pub(crate) fn no_job(alloc: Global) -> Result<Answer, AllocError>
    ensures { IfOk result (Is no_job) }
{
    let body = error_body(alloc, "job")?;
    Ok(Answer {
        code: Code::NotFound,
        body,
    })
}

/// The body isn't JSON of the route's form.
pub(crate) fn bad_body(alloc: Global) -> Result<Answer, AllocError>
    ensures { IfOk result (Is bad_body) }
{
    let body = error_body(alloc, "body")?;
    Ok(Answer {
        code: Code::BadRequest,
        body,
    })
}

/// The jobs of the owner don't allow it, for the reason of this word.
pub(crate) fn conflict(alloc: Global, word: &str) -> Result<Answer, AllocError>
    ensures { IfOk result (Is (conflict word.now)) }
{
    let body = error_body(alloc, word)?;
    Ok(Answer {
        code: Code::Conflict,
        body,
    })
}
