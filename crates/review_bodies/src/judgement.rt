// A verdict with its note.
ghost use Rattle.std.specs.Prelude.{◌≡◌, IfOk};
ghost use Rattle.serde_json.specs.View.{view};
ghost use Rattle.review_bodies.specs.Json.{Comes};
ghost use Rattle.review_bodies.specs.Judgement.{judgement_of, verdict_of};

use crate::json::{size, text_at, value_of};
use io_ports::PathText;
use job_core::Verdict;
use serde_json::Value;
use std::alloc::{AllocError, Global};

/// How many bytes a note has at most.
pub const MAX_NOTE: usize = 1000;

/// A verdict on a report, with a note of at most 1,000 bytes.
#[derive(Drop)]
pub struct Judgement {
    pub verdict: Verdict,
    pub note: PathText,
}

// `accept` or `reject`.
fn verdict_of(word: &str) -> Option<Verdict>
    ensures { result ≡ verdict_of word.now }
{
    if word == "accept" {
        return Some(Verdict::Accept);
    }
    if word == "reject" {
        return Some(Verdict::Reject);
    }
    None
}

// The verdict and the note of a value.
fn judgement_of(alloc: Global, value: &Value) -> Result<Option<Judgement>, AllocError>
    ensures { IfOk result (λ judgement. judgement ≡ judgement_of (view value.now)) }
{
    if size(value) != 2 {
        return Ok(None);
    }
    let Some(note) = text_at(value, "note") else {
        return Ok(None);
    };
    let Some(word) = text_at(value, "verdict") else {
        return Ok(None);
    };
    let Some(verdict) = verdict_of(word) else {
        return Ok(None);
    };
    if note.len() > MAX_NOTE {
        return Ok(None);
    }
    let note = PathText::new(String::from_str(alloc, note)?);
    Ok(Some(Judgement { verdict, note }))
}

/// The verdict and the note of a body `{"note":T,"verdict":V}`, V `accept` or `reject`. None: the
/// body isn't that. The only error is want of memory.
pub fn read_judgement(alloc: Global, body: &[u8]) -> Result<Option<Judgement>, AllocError>
    ensures { IfOk result (Comes judgement_of (λ j. j) body.now) }
{
    match value_of(alloc, body)? {
        Some(value) => judgement_of(alloc, &value),
        None => Ok(None),
    }
}
