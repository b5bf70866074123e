// JSON values, and what is looked up in them.
ghost use Rattle.std.specs.Prelude.{◌≡◌, IfOk, MatchOption};
ghost use Rattle.std.specs.Option.{option_map};
ghost use Rattle.serde_json.specs.Data.{Data};
ghost use Rattle.serde_json.specs.View.{view};
ghost use Rattle.review_bodies.specs.Json.{IsJson, size, text_at};

use serde_json::Value;
use std::alloc::{AllocError, Global};

/// The value of a JSON text in UTF-8. None: the bytes aren't one.
pub fn value_of(alloc: Global, body: &[u8]) -> Result<Option<Value>, AllocError>
    ensures { IfOk result (λ value. MatchOption value ((d : Data) → ¬ (IsJson body.now d)) (λ v. IsJson body.now (view v))) }
{
    match Value::from_slice(alloc, body) {
        Ok(value) => Ok(Some(value)),
        Err(e) => {
            if e.is_memory() {
                Err(AllocError)
            } else {
                Ok(None)
            }
        }
    }
}

/// How many members an object has; another value has none.
#[tactic(auto, using(crate::proofs::JsonLemmas::members_counted))]
pub fn size(value: &Value) -> usize
    ensures { result ≡ size (view value.now) }
{
    match value.as_object() {
        Some(map) => map.len(),
        None => 0,
    }
}

/// The text at a key of an object.
pub fn text_at<'v>(value: &'v Value, key: &str) -> Option<&'v str>
    ensures { option_map (λ s. s.now) result ≡ text_at key.now (view value.now) }
{
    value.get(key)?.as_str()
}
