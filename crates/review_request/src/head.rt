// The head of a request by its grammar.
ghost use Rattle.std.specs.Prelude.{◌≡◌, ◌<◌, ◌^◌, All, IfOk, Err, length, map, take, string_bytes};
ghost use Rattle.httparse.specs.Grammar.{RequestHead};
ghost use Rattle.httparse.specs.Spans.{IsWithin, IsHeaderWithin, header_bytes, span_bytes};
ghost use Rattle.review_request.specs.Head.{AreSpans, Finds, IsHead, IsParsed, field_parts};

use crate::refusal::Refusal;
use httparse::Status;
use httparse::spans::{EMPTY_HEADER_SPAN, HeaderSpan, RequestSpans, Span, parse_request};
use std::alloc::{AllocError, Global};

/// How many fields a head has at most.
pub const MAX_FIELDS: usize = 32;

/// A field: its name, and its value without the white space around it.
#[derive(Drop)]
pub struct Field {
    pub name: Vec<u8>,
    pub value: Vec<u8>,
}

/// The parts of a head.
#[derive(Drop)]
pub struct Head {
    pub method: Vec<u8>,
    pub target: String,
    pub fields: Vec<Field>,
}

/// Reads a head that has at most 32 fields: its parts, or why it has none.
pub fn parse_head(alloc: Global, bytes: &[u8]) -> Result<Result<Head, Refusal>, AllocError>
    requires { length bytes.now < 2 ^ 32 }
    ensures { IfOk result (IsParsed bytes.now) }
{
    let mut headers = [EMPTY_HEADER_SPAN; MAX_FIELDS];
    match whole_head(bytes, &mut headers) {
        Some(spans) => Ok(Ok(head_of(alloc, bytes, &headers, spans)?)),
        None => Ok(Err(why_not(alloc, bytes)?)),
    }
}

// The spans of the head that is all of the bytes, if it has no more fields than there is room for.
fn whole_head(bytes: &[u8], headers: &mut [HeaderSpan]) -> Option<RequestSpans>
    ensures { Finds bytes.now (length headers.old) headers.new result }
{
    match parse_request(bytes, headers) {
        Ok(Status::Complete(spans)) => {
            if spans.len == bytes.len() {
                Some(spans)
            } else {
                None
            }
        }
        Ok(Status::Partial) => None,
        Err(_) => None,
    }
}

// Why a head has no room for its fields: they are more than 32, or it isn't in its grammar.
#[tactic(auto, using(crate::proofs::HeadLemmas::bad_head, crate::proofs::HeadLemmas::long_head))]
fn why_not(alloc: Global, bytes: &[u8]) -> Result<Refusal, AllocError>
    requires few { length bytes.now < 2 ^ 32 }
    requires many { (h : RequestHead) → IsHead bytes.now h → 32 < length h.fields }
    ensures { IfOk result (λ refusal. IsParsed bytes.now (Err refusal)) }
{
    let mut headers = vec![in alloc; EMPTY_HEADER_SPAN; bytes.len()]?;
    match whole_head(bytes, headers.as_mut_slice()) {
        Some(_spans) => return Ok(Refusal::LongHead),
        None => return Ok(Refusal::BadHead),
    }
}

// The bytes of a span.
fn copied(alloc: Global, bytes: &[u8], span: Span) -> Result<Vec<u8>, AllocError>
    requires { IsWithin (length bytes.now) span }
    ensures { IfOk result (λ copy. copy.items ≡ span_bytes bytes.now span) }
{
    Vec::from_slice(alloc, span.of(bytes))
}

// The parts of a head by their spans.
fn head_of(
    alloc: Global,
    bytes: &[u8],
    headers: &[HeaderSpan],
    spans: RequestSpans,
) -> Result<Head, AllocError>
    requires { AreSpans bytes.now headers.now spans }
    ensures method { IfOk result (λ head. head.method.items ≡ span_bytes bytes.now spans.method) }
    ensures target { IfOk result (λ head. string_bytes head.target ≡ span_bytes bytes.now spans.path) }
    ensures fields { IfOk result (λ head. map field_parts head.fields.items ≡ map (header_bytes bytes.now) (take spans.headers headers.now)) }
{
    let method = copied(alloc, bytes, spans.method)?;
    let target = copied(alloc, bytes, spans.path)?;
    let fields = fields_of(alloc, bytes, &headers[..spans.headers])?;
    match String::from_utf8(target) {
        Ok(target) => Ok(Head {
            method,
            target,
            fields,
        }),
        Err(_) => unreachable!(),
    }
}

// The fields of these spans.
fn fields_of(alloc: Global, bytes: &[u8], headers: &[HeaderSpan]) -> Result<Vec<Field>, AllocError>
    requires { All (IsHeaderWithin (length bytes.now)) headers.now }
    ensures { IfOk result (λ fields. map field_parts fields.items ≡ map (header_bytes bytes.now) headers.now) }
{
    let mut fields = Vec::new(alloc);
    for header in headers {
        let field = field_of(alloc, bytes, header)?;
        fields.push(field)?;
    }
    Ok(fields)
}

// The field of these spans.
fn field_of(alloc: Global, bytes: &[u8], header: &HeaderSpan) -> Result<Field, AllocError>
    requires { IsHeaderWithin (length bytes.now) header.now }
    ensures { IfOk result (λ field. field_parts field ≡ header_bytes bytes.now header.now) }
{
    let name = copied(alloc, bytes, header.name)?;
    let value = copied(alloc, bytes, header.value)?;
    Ok(Field { name, value })
}
