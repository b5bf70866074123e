// A file that is written.
ghost use Rattle.std.specs.Prelude.{◌≡◌};

use io_ports::{PortFault, Sink, refused};
use std::alloc::{AllocError, Global};
use std::fs::{File, Files};
use std::io::Write;
use std::{fs, io};

/// A file of the working folder, which the first put makes, in place of an older one, also where
/// that put is empty. A link that stands there is replaced and never followed.
#[derive(Drop)]
pub struct FileSink {
    rt: HostRuntime,
    path: String,
    file: Option<File>,
    faults: u64,
}

// Makes a file, in place of an older one or of a link.
fn make(rt: &HostRuntime, path: &str) -> io::Result<File> {
    let is_link = match fs::symlink_metadata(rt, path) {
        Ok(found) => found.is_symlink(),
        Err(_) => false,
    };
    if is_link {
        rt.remove_file(path)?;
    }
    File::create(rt, path)
}

impl FileSink {
    /// The file of this path. The only error is want of memory.
    pub fn new(rt: HostRuntime, alloc: Global, path: &str) -> Result<FileSink, AllocError> {
        let path = String::from_str(alloc, path)?;
        Ok(FileSink {
            rt,
            path,
            file: None,
            faults: 0,
        })
    }

    // Writes at the end of the file, which is made where it isn't open.
    fn write(&mut self, bytes: &[u8]) -> io::Result<()>
        ensures { self.new.faults ≡ self.old.faults }
    {
        let mut file = match self.file.take() {
            Some(file) => file,
            None => make(&self.rt, self.path.as_str())?,
        };
        let written = file.write_all(bytes);
        self.file = Some(file);
        written
    }
}

impl Sink for FileSink {
    ghost use Rattle.std.specs.Prelude.{None};

    ghost held = { λ _. None };

    ghost faults = { λ s. s.faults };

    fn put(&mut self, bytes: &[u8]) -> Result<(), PortFault> {
        match self.write(bytes) {
            Ok(()) => Ok(()),
            Err(error) => Err(refused(&mut self.faults, error)),
        }
    }
}
