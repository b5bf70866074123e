// Paths, by their folders.
ghost use Rattle.std.specs.Prelude.{◌≡◌, ◌≤◌, ◌-◌, ◌∷◌, [], ℕ, List, Some, None, if◌then◌else◌, length, take, option_map, IfOk};
ghost use Rattle.node_names.specs.Facts as spec;
ghost use Rattle.node_names.specs.Seen.{texts_of};
ghost use Rattle.file_declarations.specs.Texts.{IsFirstByte, bytes_option, text_option};

use crate::words::{drop_first, first_word, front};
use std::alloc::{AllocError, Global};

// The first byte, and those behind it.
fn first_byte(text: &[u8]) -> Option<(u8, &[u8])>
    ensures { IsFirstByte result text.now }
{
    match text {
        [] => None,
        [byte, behind @ ..] => Some((*byte, behind)),
    }
}

// The part of a path that stands before what is left.
fn part_before<'a>(start: &'a [u8], left: &[u8]) -> &'a [u8]
    requires { length left.now ≤ length start.now }
    ensures { result.now ≡ take (length start.now - length left.now) start.now }
{
    front(start, start.len() - left.len())
}

// The folders and the name of a path.
#[tactic(auto, using(crate::proofs::WordLemmas::cutting_first, crate::proofs::WordLemmas::cutting_slash, crate::proofs::WordLemmas::cutting_other, crate::proofs::WordLemmas::cutting_last))]
fn parts_of<'a>(alloc: Global, path: &'a [u8]) -> Result<Vec<&'a [u8]>, AllocError>
    ensures { IfOk result (λ ps. texts_of ps.items ≡ spec.parts_from [] path.now) }
{
    let mut parts = Vec::new(alloc);
    let mut start = path;
    let mut left = path;
    'bytes: loop {
        let part = part_before(start, left);
        match first_byte(left) {
            None => {
                parts.push(part)?;
                return Ok(parts);
            }
            Some((byte, behind)) => {
                left = behind;
                if byte == b'/' {
                    parts.push(part)?;
                    start = behind;
                }
            }
        }
    }
}

// One folder up; false where there is none.
#[tactic(auto, using(crate::proofs::WordLemmas::up_texts, crate::proofs::WordLemmas::up_none))]
fn go_up(folders: &mut Vec<&[u8]>) -> bool
    ensures { spec.up (texts_of folders.old.items) ≡ (if result then Some (texts_of folders.new.items) else None) }
{
    match folders.pop() {
        None => false,
        Some(_) => true,
    }
}

// One part further; false where that leaves the tree.
fn go<'a>(folders: &mut Vec<&'a [u8]>, part: &'a [u8]) -> Result<bool, AllocError>
    ensures { IfOk result (λ goes. (ps : List (List ℕ)) →
        spec.resolved (texts_of folders.old.items) (part.entry.now ∷ ps)
        ≡ (if goes then spec.resolved (texts_of folders.new.items) ps else None)) }
{
    if part.is_empty() || part == b".".as_slice() {
        return Ok(true);
    }
    if part == b"..".as_slice() {
        if go_up(folders) {
            return Ok(true);
        }
        return Ok(false);
    }
    folders.push(part)?;
    Ok(true)
}

// The folders of a path.
#[tactic(auto, using(crate::proofs::WordLemmas::folders_take))]
fn folders_of<'a>(alloc: Global, path: &'a [u8]) -> Result<Vec<&'a [u8]>, AllocError>
    ensures { IfOk result (λ ps. texts_of ps.items ≡ spec.folders_of (spec.parts_from [] path.now)) }
{
    let mut folders = parts_of(alloc, path)?;
    let count = folders.len().saturating_sub(1);
    folders.truncate(count);
    Ok(folders)
}

// The parts of a path behind those of a folder; none where it leaves the tree.
fn resolved<'a>(
    mut folders: Vec<&'a [u8]>,
    parts: &[&'a [u8]],
) -> Result<Option<Vec<&'a [u8]>>, AllocError>
    ensures { IfOk result (λ o. option_map (λ ps. texts_of ps.items) o ≡ spec.resolved (texts_of folders.entry.items) (texts_of parts.now)) }
{
    for part in parts {
        if !go(&mut folders, part)? {
            return Ok(None);
        }
    }
    Ok(Some(folders))
}

// The path of some parts.
#[tactic(auto, using(crate::proofs::WordLemmas::joined_is))]
fn joined(alloc: Global, parts: &[&[u8]]) -> Result<Vec<u8>, AllocError>
    ensures { IfOk result (λ v. v.items ≡ spec.joined_path (texts_of parts.now)) }
{
    let mut path = Vec::from_slice(alloc, first_word(parts))?;
    let behind = drop_first(parts);
    for part in behind {
        path.push(b'/')?;
        path.extend_from_slice(part)?;
    }
    Ok(path)
}

/// The path of an included file, from the folder of the file that includes it; none where there is no path, or where it
/// leaves the tree. The only error is want of memory.
pub(crate) fn included(
    alloc: Global,
    file: &[u8],
    path: Option<&[u8]>,
) -> Result<Option<Vec<u8>>, AllocError>
    ensures { IfOk result (λ o. bytes_option o ≡ spec.included file.now (text_option path.entry)) }
{
    let Some(path) = path else {
        return Ok(None);
    };
    let folders = folders_of(alloc, file)?;
    let parts = parts_of(alloc, path)?;
    match resolved(folders, parts.as_slice())? {
        None => Ok(None),
        Some(whole) => Ok(Some(joined(alloc, whole.as_slice())?)),
    }
}
