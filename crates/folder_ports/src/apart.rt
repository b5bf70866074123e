// Two folders that must lie apart.
use std::alloc::Global;
use std::fs::Files;
use std::io;
use std::io::{Error, ErrorKind};

// The path of what stands at a path, without links and with a `/` at its end, or none where nothing stands there.
fn real(rt: &HostRuntime, alloc: Global, path: &str) -> io::Result<Option<String>> {
    match rt.canonicalize(alloc, path) {
        Ok(path) => {
            let mut text = path.into_string();
            text.push('/')?;
            Ok(Some(text))
        }
        Err(error) => {
            if error.kind() == ErrorKind::NotFound {
                Ok(None)
            } else {
                Err(error)
            }
        }
    }
}

// The path of a folder of the working folder, without links. Of one that isn't there yet it is where it would be made: below
// the first of the folders above it that is there.
fn place(rt: &HostRuntime, alloc: Global, folder: &str) -> io::Result<String> {
    let mut above = folder;
    for _ in 0..folder.len() {
        if let Some(text) = real(rt, alloc, above)? {
            return with_rest(text, folder, above);
        }
        let Some((next, _)) = above.rsplit_once('/') else {
            break;
        };
        above = next;
    }
    match real(rt, alloc, ".")? {
        Some(text) => with_rest(text, folder, ""),
        None => Err(Error::from(ErrorKind::NotFound)),
    }
}

// A path, and below it what of a folder's path stands behind a front of it.
fn with_rest(mut text: String, folder: &str, front: &str) -> io::Result<String> {
    let rest = folder.strip_prefix(front).unwrap_or("");
    for name in rest.split('/') {
        if !name.is_empty() {
            text.push_str(name)?;
            text.push('/')?;
        }
    }
    Ok(text)
}

/// Refuses two folders of which one is the other or lies in it, also through links; a folder that isn't there yet lies where
/// it would be made.
pub fn ask_apart(rt: &HostRuntime, alloc: Global, one: &str, other: &str) -> io::Result<()> {
    let one = place(rt, alloc, one)?;
    let other = place(rt, alloc, other)?;
    if one.as_str().starts_with(other.as_str()) || other.as_str().starts_with(one.as_str()) {
        return Err(Error::from(ErrorKind::InvalidInput));
    }
    Ok(())
}
