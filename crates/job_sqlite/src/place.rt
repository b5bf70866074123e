// Where a database stands.
use crate::refusal::Refusal;
use sqlite::{Alter, Connection, File, FileStore};
use std::alloc::{AllocError, Global};

/// What opens a database.
pub trait Place {
    /// What the database lies in.
    type Disk: Alter + Drop;

    /// The database, which is made where there is none.
    fn connect(&self) -> Result<Connection<Self::Disk>, Refusal>;
}

/// A file of the system.
#[derive(Drop)]
pub struct FilePlace {
    rt: HostRuntime,
    path: String,
}

impl FilePlace {
    /// The file of this path. The only error is want of memory.
    pub fn new(rt: HostRuntime, alloc: Global, path: &str) -> Result<FilePlace, AllocError> {
        let path = String::from_str(alloc, path)?;
        Ok(FilePlace { rt, path })
    }
}

impl Place for FilePlace {
    type Disk = FileStore<File>;

    fn connect(&self) -> Result<Connection<FileStore<File>>, Refusal> {
        match Connection::open(&self.rt, self.path.as_str()) {
            Ok(database) => Ok(database),
            Err(error) => Err(Refusal::from(error)),
        }
    }
}
