// What a head asks for.
ghost use Rattle.std.specs.Prelude.{◌≡◌, ◌≤◌, IfOk, IsUtf8, length, map, string_bytes};
ghost use Rattle.review_request.specs.Fields.{text_in};
ghost use Rattle.review_request.specs.Frame.{by_method, framed, key_in, length_in};
ghost use Rattle.review_request.specs.Head.{field_parts};
ghost use Rattle.review_request.specs.HeadBytes.{IsHeadEnd};
ghost use Rattle.review_request.specs.Reading.{FrameOf};
ghost use Rattle.review_request.specs.Routes.{ask_at};
ghost use Rattle.review_request.specs.Stops.{Says};

use crate::fields::{is_visible, only};
use crate::head::{Field, Head, parse_head};
use crate::head_bytes::HeadEnd;
use crate::length::stated_length;
use crate::refusal::Refusal;
use crate::route::{Ask, ask_of};
use crate::stop::Stop;
use io_ports::PathText;
use std::alloc::{AllocError, Global};

/// What a head asks for, by whom, under which key, and how many bytes of a body follow it.
#[derive(Drop)]
pub struct Frame {
    pub ask: Ask,
    pub owner: PathText,
    pub key: PathText,
    pub length: usize,
}

// The text of these bytes.
fn text(alloc: Global, bytes: &[u8]) -> Result<PathText, AllocError>
    requires { IsUtf8 bytes.now }
    ensures { IfOk result (λ text. text ≡ bytes.now) }
{
    match String::from_utf8(Vec::from_slice(alloc, bytes)?) {
        Ok(text) => Ok(PathText::new(text)),
        Err(_) => unreachable!(),
    }
}

// The text of the only field with this name.
#[tactic(auto, using(crate::proofs::FieldLemmas::visible_is_text))]
fn text_of(alloc: Global, fields: &[Field], name: &[u8]) -> Result<PathText, Stop>
    ensures { Says (λ text. text) (text_in name.now (map field_parts fields.now)) result }
{
    let Some(value) = only(fields, name) else {
        return Err(Stop::Refused(Refusal::BadOwner));
    };
    if !is_visible(value) {
        return Err(Stop::Refused(Refusal::BadOwner));
    }
    Ok(text(alloc, value)?)
}

// The key of a new job, and else no text.
fn key_of(alloc: Global, ask: Ask, fields: &[Field]) -> Result<PathText, Stop>
    ensures { Says (λ text. text) (key_in ask (map field_parts fields.now)) result }
{
    if ask == Ask::Add {
        return text_of(alloc, fields, b"idempotency-key");
    }
    Ok(PathText::new(String::new(alloc)))
}

// The length of the body.
fn length_of(ask: Ask, fields: &[Field]) -> Result<usize, Refusal>
    ensures { result ≡ length_in ask (map field_parts fields.now) }
{
    match ask {
        Ask::Add | Ask::Judge { .. } | Ask::Close { .. } => stated_length(fields),
        Ask::Head { .. } | Ask::File { .. } | Ask::Reports { .. } => Ok(0),
    }
}

// What a path asks for by this method.
fn asked(alloc: Global, head: &Head) -> Result<Ask, Stop>
    ensures { Says (λ ask. ask) (by_method head.now.method.items (ask_at (string_bytes head.now.target))) result }
{
    let Some(ask) = ask_of(alloc, head.target.as_str())? else {
        return Err(Stop::Refused(Refusal::NoRoute));
    };
    if head.method.as_slice() != ask.method().as_bytes() {
        return Err(Stop::Refused(Refusal::WrongMethod));
    }
    Ok(ask)
}

// What a head asks for, or the first of its refusals.
fn frame_in(alloc: Global, head: &Head) -> Result<Frame, Stop>
    ensures { Says (λ frame. frame) (framed head.now.method.items (string_bytes head.now.target) (map field_parts head.now.fields.items)) result }
{
    let ask = asked(alloc, head)?;
    let owner = text_of(alloc, head.fields.as_slice(), b"x-owner")?;
    let key = key_of(alloc, ask, head.fields.as_slice())?;
    let length = length_of(ask, head.fields.as_slice())?;
    Ok(Frame {
        ask,
        owner,
        key,
        length,
    })
}

/// What the bytes that were read of a head ask for, or the first of their refusals.
pub fn frame_of(alloc: Global, end: HeadEnd, bytes: &[u8]) -> Result<Frame, Stop>
    requires end { IsHeadEnd bytes.now end }
    requires most { length bytes.now ≤ 16384 }
    ensures { FrameOf bytes.now (end ≡ HeadEnd.Cut) result }
{
    match end {
        HeadEnd::Ended => {
            let head = parse_head(alloc, bytes)??;
            frame_in(alloc, &head)
        }
        HeadEnd::TooLong => Err(Stop::Refused(Refusal::LongHead)),
        HeadEnd::Cut => Err(Stop::Refused(Refusal::BadHead)),
    }
}
