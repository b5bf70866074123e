// What stands in the working folder, on a line.
use crate::told::push_file;
use io_ports::{Bytes, PathText};
use std::alloc::Global;
use std::{fs, io};

// Adds the paths in a folder to `paths`, and its folders to `left`. The working folder is the empty path.
fn add_folder(
    rt: &HostRuntime,
    folder: &str,
    left: &mut Vec<String>,
    paths: &mut Vec<String>,
) -> io::Result<()> {
    let at = if folder.is_empty() { "." } else { folder };
    for entry in fs::read_dir(rt, at)? {
        let entry = entry?;
        let mut path = String::from_str(rt.alloc(), folder)?;
        if !folder.is_empty() {
            path.push('/')?;
        }
        path.push_str(entry.file_name())?;
        if entry.file_type()?.is_dir() {
            left.push(path)?;
        } else {
            paths.push(path)?;
        }
    }
    Ok(())
}

// The paths of all that is no folder, in byte order.
fn paths(rt: &HostRuntime, alloc: Global) -> io::Result<Vec<String>> {
    let mut left = vec![in alloc; String::new(alloc)]?;
    let mut paths = Vec::new(alloc);
    for _ in 0..u64::MAX {
        let Some(folder) = left.pop() else {
            break;
        };
        add_folder(rt, folder.as_str(), &mut left, &mut paths)?;
    }
    paths.sort()?;
    Ok(paths)
}

// A file, or a link and what it leads to.
fn push_path(rt: &HostRuntime, alloc: Global, text: &mut String, path: String) -> io::Result<()> {
    if fs::symlink_metadata(rt, path.as_str())?.is_symlink() {
        text.push(' ')?;
        text.push_str(path.as_str())?;
        text.push_str(" -> ")?;
        text.push_str(fs::read_link(rt, path.as_str())?.as_str())?;
        return Ok(());
    }
    let bytes = fs::read(rt, path.as_str())?;
    push_file(alloc, text, &(PathText::new(path), Bytes::new(bytes)))?;
    Ok(())
}

/// Puts all that stands in the working folder and in its folders on a line, in byte order.
pub fn push_standing(rt: &HostRuntime, alloc: Global, text: &mut String) -> io::Result<()> {
    for path in paths(rt, alloc)? {
        push_path(rt, alloc, text, path)?;
    }
    Ok(())
}
