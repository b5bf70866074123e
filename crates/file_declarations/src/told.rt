// What a node tells of a program.
use crate::declaration::Declaration;
use span_edits::Bytes;

/// A declaration; a class and one that it extends, as classes are compared; or the number of a file and the path of
/// one that it includes.
#[derive(Debug, Drop)]
pub enum Told {
    Declares(Declaration),
    Extends(Bytes, Bytes),
    Includes(u32, Bytes),
}
