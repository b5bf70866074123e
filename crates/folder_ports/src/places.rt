// Paths of the working folder.
use std::alloc::{AllocError, Global};

/// A name in a folder: `folder/name`.
pub fn joined(alloc: Global, folder: &str, name: &str) -> Result<String, AllocError> {
    let mut path = String::from_str(alloc, folder)?;
    path.push('/')?;
    path.push_str(name)?;
    Ok(path)
}
