// A whole answer.
ghost use Rattle.std.specs.Prelude.{◌≡◌, ◌++◌, IfOk, OnOk, string_bytes};
ghost use Rattle.review_answers.specs.Answers.{answer_of, crlf, head_of, length_line_of, status_line_of};

use crate::code::Code;
use std::alloc::{AllocError, Global};

// The status line, without its end.
fn status_line(alloc: Global, code: Code) -> Result<String, AllocError>
    ensures { IfOk result (λ s. string_bytes s ≡ status_line_of code) }
{
    let number = code.number();
    let mut text = format!(in alloc; "HTTP/1.1 {number} ")?;
    text.push_str(code.reason())?;
    Ok(text)
}

// The line with the length of the body, without its end.
fn length_line(alloc: Global, length: usize) -> Result<String, AllocError>
    ensures { IfOk result (λ s. string_bytes s ≡ length_line_of length) }
{
    format!(in alloc; "Content-Length: {length}")
}

// Puts a line and its end behind a text.
fn add_line(text: &mut String, line: &str) -> Result<(), AllocError>
    ensures { OnOk result (string_bytes text.new ≡ string_bytes text.old ++ (line.now ++ crlf)) }
{
    text.push_str(line)?;
    text.push_str("\r\n")?;
    Ok(())
}

// What stands before a body of so many bytes.
fn head(alloc: Global, code: Code, length: usize) -> Result<String, AllocError>
    ensures { IfOk result (λ s. string_bytes s ≡ head_of code length) }
{
    let status = status_line(alloc, code)?;
    let length = length_line(alloc, length)?;
    let mut text = String::new(alloc);
    add_line(&mut text, status.as_str())?;
    add_line(&mut text, "Content-Type: application/json")?;
    add_line(&mut text, length.as_str())?;
    add_line(&mut text, "Connection: close")?;
    add_line(&mut text, "")?;
    Ok(text)
}

/// An answer with a status and a body: the status line, three lines of head, an empty line and the body. The only error is
/// want of memory. (RFC 9112, "HTTP/1.1", sections 2 and 4.)
pub fn answer(alloc: Global, code: Code, body: &[u8]) -> Result<Vec<u8>, AllocError>
    ensures { IfOk result (λ v. v.items ≡ answer_of code body.now) }
{
    let text = head(alloc, code, body.len())?;
    let mut bytes = text.into_bytes();
    bytes.extend_from_slice(body)?;
    Ok(bytes)
}
