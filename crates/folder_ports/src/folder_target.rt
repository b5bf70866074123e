// A folder that is written to.
use crate::apart::ask_apart;
use crate::places::joined;
use io_ports::{PortFault, TargetTree, refused};
use std::alloc::{AllocError, Global};
use std::fs::{Files, OpenOptions};
use std::io::{Error, ErrorKind, Write};
use std::{fs, io};

// The name, in the folder of a file, under which its bytes are written before it gets its own.
const PART: &str = ".upgrader.part";

// A folder that is there, or is made. What is no folder is refused, a link too.
fn ask_folder(rt: &HostRuntime, path: &str) -> io::Result<()> {
    match fs::symlink_metadata(rt, path) {
        Ok(found) => {
            if found.is_dir() {
                Ok(())
            } else {
                Err(Error::from(ErrorKind::InvalidInput))
            }
        }
        Err(error) => {
            if error.kind() == ErrorKind::NotFound {
                fs::create_dir(rt, path)
            } else {
                Err(error)
            }
        }
    }
}

// The folder that a file of this path stands in, with all folders above it below the top made.
fn folder_of(rt: &HostRuntime, alloc: Global, top: &str, path: &str) -> io::Result<String> {
    let mut folder = String::from_str(alloc, top)?;
    let Some((parents, _)) = path.rsplit_once('/') else {
        return Ok(folder);
    };
    for name in parents.split('/') {
        folder = joined(alloc, folder.as_str(), name)?;
        ask_folder(rt, folder.as_str())?;
    }
    Ok(folder)
}

// Writes a file that isn't there.
fn write_new(rt: &HostRuntime, path: &str, bytes: &[u8]) -> io::Result<()> {
    let mut how = OpenOptions::new();
    let mut file = how.write(true).create_new(true).open(rt, path)?;
    file.write_all(bytes)
}

// Gives a file the permission bits of another, where that one is there.
fn keep_permissions(rt: &HostRuntime, from: &str, to: &str) -> io::Result<()> {
    match fs::metadata(rt, from) {
        Ok(found) => rt.set_permissions(to, found.permissions()),
        Err(error) => {
            if error.kind() == ErrorKind::NotFound {
                Ok(())
            } else {
                Err(error)
            }
        }
    }
}

/// A folder of the working folder that is written to. Missing folders are made. A file is written
/// beside its place and then renamed, so that a link that stands there is replaced and never followed;
/// a folder below the top that is a link is a fault.
#[derive(Drop)]
pub struct FolderTarget {
    rt: HostRuntime,
    alloc: Global,
    folder: String,
    source: Option<String>,
    faults: u64,
}

impl FolderTarget {
    /// Files go below this folder. The only error is want of memory.
    pub fn new(rt: HostRuntime, alloc: Global, folder: &str) -> Result<FolderTarget, AllocError> {
        let folder = String::from_str(alloc, folder)?;
        Ok(FolderTarget {
            rt,
            alloc,
            folder,
            source: None,
            faults: 0,
        })
    }

    /// Files go below this folder, and each gets the permission bits of the file of its path in
    /// `source`. Each put is a fault, and writes nothing, where one of both folders is the other or
    /// lies in it, also through links. The only error is want of memory.
    pub fn beside(
        rt: HostRuntime,
        alloc: Global,
        folder: &str,
        source: &str,
    ) -> Result<FolderTarget, AllocError> {
        let source = String::from_str(alloc, source)?;
        let mut target = FolderTarget::new(rt, alloc, folder)?;
        target.source = Some(source);
        Ok(target)
    }

    // Gives what was written its permissions and its name.
    fn settle(&self, part: &str, path: &str) -> io::Result<()> {
        if let Some(source) = &self.source {
            let from = joined(self.alloc, source.as_str(), path)?;
            keep_permissions(&self.rt, from.as_str(), part)?;
        }
        let to = joined(self.alloc, self.folder.as_str(), path)?;
        self.rt.rename(part, to.as_str())
    }

    // Writes one file.
    fn write(&self, path: &str, bytes: &[u8]) -> io::Result<()> {
        if let Some(source) = &self.source {
            ask_apart(&self.rt, self.alloc, source.as_str(), self.folder.as_str())?;
        }
        fs::create_dir_all(&self.rt, self.folder.as_str())?;
        let folder = folder_of(&self.rt, self.alloc, self.folder.as_str(), path)?;
        let part = joined(self.alloc, folder.as_str(), PART)?;
        if fs::symlink_metadata(&self.rt, part.as_str()).is_ok() {
            self.rt.remove_file(part.as_str())?;
        }
        write_new(&self.rt, part.as_str(), bytes)?;
        match self.settle(part.as_str(), path) {
            Ok(()) => Ok(()),
            Err(error) => {
                let _left = self.rt.remove_file(part.as_str());
                Err(error)
            }
        }
    }
}

impl TargetTree for FolderTarget {
    ghost use Rattle.std.specs.Prelude.{None};

    ghost files = { λ _. None };

    ghost faults = { λ s. s.faults };

    fn put(&mut self, path: &str, bytes: &[u8]) -> Result<(), PortFault> {
        match self.write(path, bytes) {
            Ok(()) => Ok(()),
            Err(error) => Err(refused(&mut self.faults, error)),
        }
    }
}
