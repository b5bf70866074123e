// Places of nodes.
ghost use Rattle.std.specs.Prelude.{◌≡◌, ◌≤◌, length, map, IfOk, None};
ghost use Rattle.php_tree.specs.declared.version.Version.TheVariants.{V74};
ghost use Rattle.php_tree.specs.Tree.{File};
ghost use Rattle.php_rows.specs.File.{file_in};
ghost use Rattle.php_reading.specs.Reading.{Reads};
ghost use Rattle.upgrade_core.specs.Files.{file_of, Trees};
ghost use Rattle.upgrade_core.specs.Limits.{bytes_limit};
ghost use Rattle.upgrade_core.specs.Names as spec;
ghost use Rattle.upgrade_core.specs.Trees.{AreRead};

use crate::file::SourceFile;
use crate::limits::MAX_FILE_BYTES;
use crate::reading::tree_of;
use io_ports::PathText;
use php_rows::RowTree;
use resolved_names::NodeRef;
use std::alloc::{AllocError, Global};

/// Where a node stands: the path of its file, and the byte at which it begins, from 0.
#[derive(Drop)]
pub struct Place {
    pub path: PathText,
    pub start: u32,
}

// The byte at which a node of a tree begins.
fn start_of(tree: &RowTree, node: u32) -> u32
    ensures { result ≡ spec.start_in (file_in tree.now) node }
{
    match tree.span(node) {
        Some(span) => span.start,
        None => 0,
    }
}

// The byte at which a node of a file begins.
fn start_in(alloc: Global, file: &SourceFile, node: u32) -> Result<u32, AllocError>
    requires { length (file_of file.now).1 ≤ MAX_FILE_BYTES }
    ensures { IfOk result (λ n. (tree : File) → Reads V74 (file_of file.now).1 tree → n ≡ spec.start_in tree node) }
{
    let bytes = Vec::from_slice(alloc, file.bytes.as_slice())?;
    match tree_of(alloc, bytes)? {
        Some(tree) => Ok(start_of(&tree, node)),
        None => Ok(0),
    }
}

/// Where a node of a program of files stands, which 7.4 reads; the file is read again. The only error is want of memory.
pub fn place_of(alloc: Global, files: &[SourceFile], at: NodeRef) -> Result<Place, AllocError>
    requires { bytes_limit 0 (map file_of files.now) ≡ None }
    ensures { IfOk result (λ p. (trees : Trees) → AreRead (map file_of files.now) trees → p ≡ spec.place_at trees at) }
{
    match files.get(at.file as usize) {
        Some(file) => {
            let start = start_in(alloc, file, at.node)?;
            let path = file.path.copy(alloc)?;
            Ok(Place { path, start })
        }
        None => {
            let path = PathText::new(String::new(alloc));
            Ok(Place { path, start: 0 })
        }
    }
}
