// Sources in a folder.
ghost use Rattle.std.specs.Prelude.{◌≡◌, ◌≢◌, IfErr, IfOk, OnErr};

use crate::places::joined;
use io_ports::{Found, PathText, PortFault, SourceTree, refused};
use std::alloc::{AllocError, Global};
use std::fs::{DirEntry, File};
use std::io::{Error, ErrorKind, Read};
use std::{fs, io};

// What stands at a name of a folder.
enum Entry {
    Folder,
    Source,
    Other,
}

// A folder, a file whose name ends in `.php`, also through a link, or anything else: a pipe, a device,
// a link to a folder, a link to nothing.
fn entry_of(rt: &HostRuntime, entry: &DirEntry<HostRuntime>, path: &str) -> io::Result<Entry> {
    let kind = entry.file_type()?;
    if kind.is_dir() {
        return Ok(Entry::Folder);
    }
    if !path.ends_with(".php") {
        return Ok(Entry::Other);
    }
    if kind.is_file() {
        return Ok(Entry::Source);
    }
    match kind.is_symlink() && is_file(rt, path)? {
        true => Ok(Entry::Source),
        false => Ok(Entry::Other),
    }
}

// Whether a regular file stands there, also through links.
fn is_file(rt: &HostRuntime, path: &str) -> io::Result<bool> {
    match fs::metadata(rt, path) {
        Ok(found) => Ok(found.is_file()),
        Err(error) => {
            if error.kind() == ErrorKind::NotFound {
                Ok(false)
            } else {
                Err(error)
            }
        }
    }
}

// Adds the sources of one folder to `names`, and its folders to `left`.
fn list_folder(
    rt: &HostRuntime,
    alloc: Global,
    root: &str,
    within: &str,
    left: &mut Vec<String>,
    names: &mut Vec<String>,
) -> io::Result<()> {
    let at = joined(alloc, root, within)?;
    for entry in fs::read_dir(rt, at.as_str())? {
        let entry = entry?;
        let name = if within.is_empty() {
            String::from_str(alloc, entry.file_name())?
        } else {
            joined(alloc, within, entry.file_name())?
        };
        let path = joined(alloc, root, name.as_str())?;
        match entry_of(rt, &entry, path.as_str())? {
            Entry::Folder => left.push(name)?,
            Entry::Source => names.push(name)?,
            Entry::Other => {}
        }
    }
    Ok(())
}

// The paths of the sources below a folder, in byte order.
fn list(rt: &HostRuntime, alloc: Global, root: &str) -> io::Result<Vec<PathText>> {
    let mut left = vec![in alloc; String::new(alloc)]?;
    let mut names = Vec::new(alloc);
    for _ in 0..u64::MAX {
        let Some(within) = left.pop() else {
            break;
        };
        list_folder(rt, alloc, root, within.as_str(), &mut left, &mut names)?;
    }
    names.sort()?;
    let mut paths = Vec::new(alloc);
    for name in names {
        paths.push(PathText::new(name))?;
    }
    Ok(paths)
}

// The bytes of a regular file of at most `max` bytes. Nothing else is opened.
fn whole(rt: &HostRuntime, alloc: Global, path: &str, max: u64) -> io::Result<Option<Vec<u8>>> {
    if !fs::metadata(rt, path)?.is_file() {
        return Err(Error::from(ErrorKind::InvalidInput));
    }
    let mut file = File::open(rt, path)?;
    let mut bytes = Vec::new(alloc);
    let mut buffer = [0u8; 16_384];
    for _ in 0..u64::MAX {
        let count = file.read(&mut buffer)?;
        if count == 0 {
            return Ok(Some(bytes));
        }
        bytes.extend_from_slice(&buffer[..count])?;
        if bytes.len() as u64 > max {
            return Ok(None);
        }
    }
    Err(Error::from(ErrorKind::Other))
}

/// The regular files below a folder of the working folder whose names end in `.php`, also those that a
/// link leads to; linked folders are left out. Settings files stand in the working folder. A name that
/// isn't UTF-8 is a fault of `paths`, and a listed file that is gone, or is no regular file any more,
/// one of `read`.
#[derive(Drop)]
pub struct FolderSource {
    rt: HostRuntime,
    alloc: Global,
    folder: String,
    faults: u64,
}

impl FolderSource {
    /// The files below this folder. The only error is want of memory.
    pub fn new(rt: HostRuntime, alloc: Global, folder: &str) -> Result<FolderSource, AllocError> {
        let folder = String::from_str(alloc, folder)?;
        Ok(FolderSource {
            rt,
            alloc,
            folder,
            faults: 0,
        })
    }
}

// What a read came to, with the bytes appended.
fn appended(bytes: Option<Vec<u8>>, into: &mut Vec<u8>) -> Result<Found, PortFault>
    ensures err { OnErr result (into.new.items ≡ into.old.items) }
    ensures longer { IfOk result (λ answer. answer ≡ Found.Longer → into.new.items ≡ into.old.items) }
    ensures there { IfOk result (λ answer. answer ≢ Found.Absent) }
    ensures memory { IfErr result (λ fault. fault ≡ PortFault.Memory) }
{
    let Some(bytes) = bytes else {
        return Ok(Found::Longer);
    };
    into.extend_from_slice(bytes.as_slice())?;
    Ok(Found::Whole)
}

impl SourceTree for FolderSource {
    ghost use Rattle.std.specs.Prelude.{None};

    ghost files = { λ _. None };

    ghost stored = { λ _. None };

    ghost faults = { λ s. s.faults };

    fn paths(&mut self, alloc: Global) -> Result<Vec<PathText>, PortFault> {
        match list(&self.rt, alloc, self.folder.as_str()) {
            Ok(paths) => Ok(paths),
            Err(error) => Err(refused(&mut self.faults, error)),
        }
    }

    fn read(&mut self, path: &str, max: u64, into: &mut Vec<u8>) -> Result<Found, PortFault> {
        let path = joined(self.alloc, self.folder.as_str(), path)?;
        match whole(&self.rt, self.alloc, path.as_str(), max) {
            Ok(bytes) => appended(bytes, into),
            Err(error) => Err(refused(&mut self.faults, error)),
        }
    }

    fn settings(&mut self, name: &str, max: u64, into: &mut Vec<u8>) -> Result<Found, PortFault> {
        match whole(&self.rt, self.alloc, name, max) {
            Ok(bytes) => appended(bytes, into),
            Err(error) => {
                if error.kind() == ErrorKind::NotFound {
                    return Ok(Found::Absent);
                }
                Err(refused(&mut self.faults, error))
            }
        }
    }
}
