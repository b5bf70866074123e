// Files in memory: looking one up, reading it, setting it.
ghost use Rattle.std.specs.Prelude.{◌≡◌, ◌<◌, ◌≤◌, ◌++◌, ℕ, List, length, insert, map, Some, None, slice_get, slice_set, OnOk, OnErr, IfOk, IfErr, MatchResult};
ghost use Rattle.std.specs.Option.{option_copied};
ghost use Rattle.io_ports.specs.Files.{File, appended, content, found, IsTree, Reads, put_file};

use crate::source::Found;
use span_edits::{Bytes, PathText};
use std::alloc::{AllocError, Global};

/// The paths, in the order of the files.
pub fn paths_of(alloc: Global, files: &[(PathText, Bytes)]) -> Result<Vec<PathText>, AllocError>
    ensures { IfOk result (λ ps. ps.items ≡ map (λ f. f.0) files.now) }
{
    let mut paths = Vec::new(alloc);
    for file in files {
        paths.push(file.0.copy(alloc)?)?;
    }
    Ok(paths)
}

// Where a path stands among files in byte order of their paths, or where it goes.
fn place_of(files: &[(PathText, Bytes)], path: &str) -> Result<usize, usize>
    requires { IsTree files.now }
    ensures within { MatchResult result (λ at. at < length files.now) (λ at. at ≤ length files.now) }
    ensures found { IfOk result (λ at. (f : File) → slice_get files.now at ≡ Some f → content path.now files.now ≡ Some f.1) }
    ensures set { IfOk result (λ at. (bytes : List ℕ) (f : File) → slice_get files.now at ≡ Some f
        → put_file path.now bytes files.now ≡ slice_set files.now at (f.0, bytes)) }
    ensures absent { IfErr result (λ at. content path.now files.now ≡ None) }
    ensures added { IfErr result (λ at. (bytes : List ℕ)
        → put_file path.now bytes files.now ≡ insert files.now at (path.now, bytes)) }
{
    files.binary_search_by(|file| file.0.as_str().cmp(path))
}

// The bytes of a path among files in byte order of their paths.
fn find<'a>(files: &'a [(PathText, Bytes)], path: &str) -> Option<&'a Bytes>
    requires { IsTree files.now }
    ensures { option_copied result ≡ content path.now files.now }
{
    match place_of(files, path) {
        Ok(at) => Some(&files[at].1),
        Err(_) => None,
    }
}

// The bytes of a name among files in any order.
fn find_unordered<'a>(files: &'a [(PathText, Bytes)], name: &str) -> Option<&'a Bytes>
    ensures { option_copied result ≡ content name.now files.now }
{
    for file in files {
        if file.0.as_str() == name {
            return Some(&file.1);
        }
    }
    None
}

// Appends these bytes of a file, where there are some and at most `max`.
fn append_up_to(file: Option<&Bytes>, max: u64, into: &mut Vec<u8>) -> Result<Found, AllocError>
    ensures answer { IfOk result (λ came. came ≡ found (option_copied file.entry) max) }
    ensures bytes { OnOk result (into.new.items ≡ into.old.items ++ appended (option_copied file.entry) max) }
    ensures err { OnErr result (into.new.items ≡ into.old.items) }
    ensures longer { IfOk result (λ came. came ≡ Found.Longer → into.new.items ≡ into.old.items) }
{
    match file {
        None => Ok(Found::Absent),
        Some(bytes) => {
            let bytes = bytes.as_slice();
            if bytes.len() as u64 > max {
                return Ok(Found::Longer);
            }
            into.extend_from_slice(bytes)?;
            Ok(Found::Whole)
        }
    }
}

/// Appends a file of at most `max` bytes, of these, which stand in byte order of their paths.
pub fn read_of(
    files: &[(PathText, Bytes)],
    path: &str,
    max: u64,
    into: &mut Vec<u8>,
) -> Result<Found, AllocError>
    requires { IsTree files.now }
    ensures told { IfOk result (λ came. Reads files.now path.now max came into.old.items into.new.items) }
    ensures err { OnErr result (into.new.items ≡ into.old.items) }
    ensures longer { IfOk result (λ came. came ≡ Found.Longer → into.new.items ≡ into.old.items) }
{
    append_up_to(find(files, path), max, into)
}

/// Appends a file of at most `max` bytes, of these, which stand in any order.
pub fn read_unordered(
    files: &[(PathText, Bytes)],
    name: &str,
    max: u64,
    into: &mut Vec<u8>,
) -> Result<Found, AllocError>
    ensures told { IfOk result (λ came. Reads files.now name.now max came into.old.items into.new.items) }
    ensures err { OnErr result (into.new.items ≡ into.old.items) }
    ensures longer { IfOk result (λ came. came ≡ Found.Longer → into.new.items ≡ into.old.items) }
{
    append_up_to(find_unordered(files, name), max, into)
}

/// Sets a file among these, which stand in byte order of their paths.
pub fn put_into(
    alloc: Global,
    files: &mut Vec<(PathText, Bytes)>,
    path: &str,
    bytes: &[u8],
) -> Result<(), AllocError>
    requires { IsTree files.old.items }
    ensures ok { OnOk result (files.new.items ≡ put_file path.now bytes.now files.old.items) }
    ensures err { OnErr result (files.new.items ≡ files.old.items) }
    ensures ordered { IsTree files.new.items }
{
    let bytes = Bytes::new(Vec::from_slice(alloc, bytes)?);
    match place_of(files.as_slice(), path) {
        Ok(at) => {
            files[at].1 = bytes;
            Ok(())
        }
        Err(at) => {
            let path = PathText::new(String::from_str(alloc, path)?);
            files.insert(at, (path, bytes))?;
            Ok(())
        }
    }
}
