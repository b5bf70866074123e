// The files and the settings of a new job.
ghost use Rattle.std.specs.Prelude.{◌≡◌, IfOk, map, string_bytes};
ghost use Rattle.std.specs.Option.{option_map};
ghost use Rattle.serde_json.specs.View.{items_view, view};
ghost use Rattle.review_bodies.specs.Json.{Comes};
ghost use Rattle.review_bodies.specs.Upload.{file_of, files_of, held, held_files, upload_of};

use crate::json::{size, text_at, value_of};
use io_ports::PathText;
use serde_json::Value;
use std::alloc::{AllocError, Global};

/// Files, each a path with its text, in the order of the body, and the text of the settings.
#[derive(Drop)]
pub struct Upload {
    pub files: Vec<(PathText, PathText)>,
    pub settings: PathText,
}

// The path and the text of a file.
fn file_of(alloc: Global, value: &Value) -> Result<Option<(PathText, PathText)>, AllocError>
    ensures { IfOk result (λ file. file ≡ file_of (view value.now)) }
{
    if size(value) != 2 {
        return Ok(None);
    }
    let Some(path) = text_at(value, "path") else {
        return Ok(None);
    };
    let Some(text) = text_at(value, "text") else {
        return Ok(None);
    };
    let path = PathText::new(String::from_str(alloc, path)?);
    let text = PathText::new(String::from_str(alloc, text)?);
    Ok(Some((path, text)))
}

// The files of a list of values.
#[tactic(auto, using(crate::proofs::UploadLemmas::no_file, crate::proofs::UploadLemmas::files_end))]
fn files_of(
    alloc: Global,
    values: &[Value],
) -> Result<Option<Vec<(PathText, PathText)>>, AllocError>
    ensures { IfOk result (λ files. held_files files ≡ files_of (items_view values.now)) }
{
    let mut files = Vec::new(alloc);
    for value in values {
        let Some(file) = file_of(alloc, value)? else {
            return Ok(None);
        };
        files.push(file)?;
    }
    Ok(Some(files))
}

// The files and the settings of a value.
fn upload_of(alloc: Global, value: &Value) -> Result<Option<Upload>, AllocError>
    ensures { IfOk result (λ upload. option_map held upload ≡ upload_of (view value.now)) }
{
    if size(value) != 2 {
        return Ok(None);
    }
    let Some(settings) = text_at(value, "settings") else {
        return Ok(None);
    };
    let Some(list) = value.get("files") else {
        return Ok(None);
    };
    let Some(values) = list.as_array() else {
        return Ok(None);
    };
    let Some(files) = files_of(alloc, values.as_slice())? else {
        return Ok(None);
    };
    let settings = PathText::new(String::from_str(alloc, settings)?);
    Ok(Some(Upload { files, settings }))
}

/// The files and the settings of a body `{"files":[{"path":P,"text":T},..],"settings":T}`. None:
/// the body isn't that. The only error is want of memory.
pub fn read_upload(alloc: Global, body: &[u8]) -> Result<Option<Upload>, AllocError>
    ensures { IfOk result (Comes upload_of held body.now) }
{
    match value_of(alloc, body)? {
        Some(value) => upload_of(alloc, &value),
        None => Ok(None),
    }
}
