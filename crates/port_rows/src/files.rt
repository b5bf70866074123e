// Rows of sources and targets.
ghost use Rattle.std.specs.Prelude.{◌≡◌, IfOk, codes, ◌∷◌, []};

use crate::shown::{put_bytes, put_done, put_files, put_found, put_listed};
use crate::words::{number, parts};
use io_ports::{
    Bytes, CalmSource, CalmTarget, MemorySource, MemoryTarget, PathText, SourceTree, TargetTree,
};
use std::alloc::{AllocError, Global};

fn file(alloc: Global, path: &str, bytes: &[u8]) -> Result<(PathText, Bytes), AllocError>
    ensures { IfOk result (λ f. f ≡ (path.now, bytes.now)) }
{
    let path = PathText::new(String::from_str(alloc, path)?);
    Ok((path, Bytes::new(Vec::from_slice(alloc, bytes)?)))
}

// `a.php` of five bytes, and `b/c.php` of none.
fn two_files(alloc: Global) -> Result<Vec<(PathText, Bytes)>, AllocError>
    ensures { IfOk result (λ v. v.items ≡ (codes "a.php", codes "12345") ∷ (codes "b/c.php", []) ∷ []) }
{
    let mut files = Vec::new(alloc);
    files.push(file(alloc, "a.php", b"12345")?)?;
    files.push(file(alloc, "b/c.php", b"")?)?;
    Ok(files)
}

// `s.toml` of one byte.
fn settings(alloc: Global) -> Result<Vec<(PathText, Bytes)>, AllocError>
    ensures { IfOk result (λ v. v.items ≡ (codes "s.toml", codes "#") ∷ []) }
{
    let mut files = Vec::new(alloc);
    files.push(file(alloc, "s.toml", b"#")?)?;
    Ok(files)
}

// One call of a source: `list`, `read:PATH:MAX` or `settings:NAME:MAX`.
fn ask<S: SourceTree>(
    alloc: Global,
    source: &mut S,
    word: &str,
    into: &mut Vec<u8>,
    out: &mut String,
) -> Result<(), AllocError> {
    let (call, path, max) = parts(word);
    match call {
        "list" => put_listed(out, source.paths(alloc)),
        "read" => put_found(out, source.read(path, number(max), into)),
        "settings" => put_found(out, source.settings(path, number(max), into)),
        _ => Ok(()),
    }
}

// The calls of a source, and what they read.
fn ask_all<S: SourceTree>(
    alloc: Global,
    mut source: S,
    words: &str,
    out: &mut String,
) -> Result<S, AllocError>
where
    S: Drop,
{
    let mut into = vec![in alloc; 0]?;
    for word in words.split(' ') {
        ask(alloc, &mut source, word, &mut into, out)?;
    }
    put_bytes(out, into.as_slice())?;
    Ok(source)
}

/// A source that fails at some calls.
pub fn memory_source(
    alloc: Global,
    failing: Vec<u64>,
    words: &str,
    out: &mut String,
) -> Result<(), AllocError> {
    let source = MemorySource::new(two_files(alloc)?, settings(alloc)?, failing);
    let source = ask_all(alloc, source, words, out)?;
    put_files(out, source.files())
}

/// A source that never fails.
pub fn calm_source(alloc: Global, words: &str, out: &mut String) -> Result<(), AllocError> {
    let source = CalmSource::new(two_files(alloc)?, settings(alloc)?);
    let source = ask_all(alloc, source, words, out)?;
    put_files(out, source.files())
}

// The calls of a target: `put:PATH:TEXT` each.
fn set_all<T: TargetTree>(target: &mut T, words: &str, out: &mut String) -> Result<(), AllocError> {
    for word in words.split(' ') {
        let (_call, path, text) = parts(word);
        put_done(out, target.put(path, text.as_bytes()))?;
    }
    Ok(())
}

/// A target with two files that fails at some calls.
pub fn memory_target(
    alloc: Global,
    failing: Vec<u64>,
    words: &str,
    out: &mut String,
) -> Result<(), AllocError> {
    let mut target = MemoryTarget::new(alloc, two_files(alloc)?, failing);
    set_all(&mut target, words, out)?;
    put_files(out, target.files())
}

/// A target with no file that never fails.
pub fn calm_target(alloc: Global, words: &str, out: &mut String) -> Result<(), AllocError> {
    let mut target = CalmTarget::new(alloc, Vec::new(alloc));
    set_all(&mut target, words, out)?;
    put_files(out, target.files())
}
