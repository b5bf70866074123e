// Requests that are refused by what they say of themselves.
ghost use Rattle.std.specs.Prelude.{◌≡◌, IfOk};
ghost use Rattle.job_replies.specs.Said.{Is};
ghost use Rattle.review_http.specs.Replies.{code_of, refusal_said};

use job_replies::Answer;
use review_answers::{Code, error_body};
use review_request::Refusal;
use std::alloc::{AllocError, Global};

/// The status of a refusal.
pub fn code_of(refusal: Refusal) -> Code
    ensures { result ≡ code_of refusal }
{
    match refusal {
        Refusal::LongHead => Code::HeaderFieldsTooLarge,
        Refusal::BadHead | Refusal::BadOwner | Refusal::BadLength | Refusal::BadBody => {
            Code::BadRequest
        }
        Refusal::NoRoute => Code::NotFound,
        Refusal::WrongMethod => Code::MethodNotAllowed,
        Refusal::NoLength => Code::LengthRequired,
        Refusal::LongBody => Code::ContentTooLarge,
    }
}

/// The answer to a request that is refused by what it says of itself. The only error is want of
/// memory.
pub fn refusal_reply(alloc: Global, refusal: Refusal) -> Result<Answer, AllocError>
    ensures { IfOk result (Is (refusal_said refusal)) }
{
    let body = error_body(alloc, refusal.word())?;
    Ok(Answer {
        code: code_of(refusal),
        body,
    })
}
