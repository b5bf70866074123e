// One row: a source, upgraded.
ghost use Rattle.std.specs.Prelude.{◌≡◌, ◌∷◌, [], IfOk, codes};

use crate::escapes::{plain, push_source};
use io_ports::{Bytes, CalmSink, CalmSource, CalmTarget, PathText};
use php_reading::{ReadFault, read};
use php_tree::Version;
use std::alloc::{AllocError, Global};
use upgrade_cli::{run, status_number};

fn words(alloc: Global) -> Result<Vec<String>, AllocError> {
    let mut words = Vec::new(alloc);
    words.push(String::from_str(alloc, "upgrade")?)?;
    words.push(String::from_str(alloc, "--settings")?)?;
    words.push(String::from_str(alloc, "s.toml")?)?;
    Ok(words)
}

fn one_file(alloc: Global, bytes: Vec<u8>) -> Result<Vec<(PathText, Bytes)>, AllocError>
    ensures { IfOk result (λ v. v.items ≡ (codes "a.php", bytes.items) ∷ []) }
{
    let path = PathText::new(String::from_str(alloc, "a.php")?);
    let mut files = Vec::new(alloc);
    files.push((path, Bytes::new(bytes)))?;
    Ok(files)
}

// One empty settings file.
fn no_settings(alloc: Global) -> Result<Vec<(PathText, Bytes)>, AllocError>
    ensures { IfOk result (λ v. v.items ≡ (codes "s.toml", []) ∷ []) }
{
    let name = PathText::new(String::from_str(alloc, "s.toml")?);
    let mut files = Vec::new(alloc);
    files.push((name, Bytes::new(Vec::new(alloc))))?;
    Ok(files)
}

// Whether 8.3 reads no tree in these bytes.
fn is_refused(alloc: Global, bytes: &[u8]) -> Result<bool, AllocError> {
    match read(alloc, Version::V83, bytes) {
        Ok(_) => Ok(false),
        Err(ReadFault::Memory) => Err(AllocError),
        Err(_) => Ok(true),
    }
}

// Puts what the target holds on a line, and where 8.3 reads no tree in it.
fn push_written(
    alloc: Global,
    text: &mut String,
    files: &[(PathText, Bytes)],
) -> Result<(), AllocError> {
    for file in files {
        let bytes = file.1.as_slice();
        text.push_str(" ")?;
        push_source(text, bytes)?;
        if is_refused(alloc, bytes)? {
            text.push_str(", no tree in 8.3")?;
        }
    }
    Ok(())
}

/// What a run makes of the source of a line: its status, the line that it puts, the bytes that it writes, and whether 8.3
/// reads no tree in them.
pub fn row(alloc: Global, line: &[u8]) -> Result<String, AllocError> {
    let mut source = CalmSource::new(one_file(alloc, plain(alloc, line)?)?, no_settings(alloc)?);
    let mut target = CalmTarget::new(alloc, Vec::new(alloc));
    let mut out = CalmSink::new(Vec::new(alloc));
    let words = words(alloc)?;
    let mut sinks = Vec::new(alloc);
    let status = status_number(run(
        alloc,
        words.as_slice(),
        &mut source,
        &mut target,
        &mut out,
        &mut sinks,
    ));
    let mut text = format!(in alloc; "{status} ")?;
    push_source(&mut text, out.bytes())?;
    push_written(alloc, &mut text, target.files())?;
    Ok(text)
}
