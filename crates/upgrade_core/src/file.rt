// Files of a program.
use io_ports::{Bytes, PathText};

/// A file by its path, with `/` between folders, and its bytes.
#[derive(Drop)]
pub struct SourceFile {
    pub path: PathText,
    pub bytes: Bytes,
}
