// How long a body is said to be.
ghost use Rattle.std.specs.Prelude.{◌≡◌, map};
ghost use Rattle.review_request.specs.Fields.{stated_length};
ghost use Rattle.review_request.specs.Head.{field_parts};

use crate::fields::{has, only};
use crate::head::Field;
use crate::number::number;
use crate::refusal::Refusal;

/// How many bytes a body has at most.
pub const MAX_BODY: u64 = 4_194_304;

/// The stated length of a POST, or why it has none that is taken.
pub fn stated_length(fields: &[Field]) -> Result<usize, Refusal>
    ensures { result ≡ stated_length (map field_parts fields.now) }
{
    if !has(fields, b"content-length") {
        return Err(Refusal::NoLength);
    }
    if has(fields, b"transfer-encoding") {
        return Err(Refusal::BadLength);
    }
    let Some(digits) = only(fields, b"content-length") else {
        return Err(Refusal::BadLength);
    };
    let Some(length) = number(digits) else {
        return Err(Refusal::BadLength);
    };
    if length > MAX_BODY {
        return Err(Refusal::LongBody);
    }
    Ok(length as usize)
}
