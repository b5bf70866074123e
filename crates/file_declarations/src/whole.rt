// What a whole file tells.
ghost use Rattle.std.specs.Prelude.{◌≡◌, true, IfOk};
ghost use Rattle.php_rows.specs.File.{file_in};
ghost use Rattle.scope_names.specs.Sites.{file_site};
ghost use Rattle.file_declarations.specs.Told.{told as told_in};

use crate::told::Told;
use crate::walk::{Spot, walk_parts};
use php_rows::RowTree;
use span_edits::PathText;
use std::alloc::{AllocError, Global};

/// What the nodes of a file tell, in preorder: the file has a path and a number. The only error is want of memory.
pub fn file_told(
    alloc: Global,
    path: &PathText,
    file: u32,
    tree: &RowTree,
) -> Result<Vec<Told>, AllocError>
    ensures { IfOk result (λ ts. ts.items ≡ told_in file 0 (file_site path.now) true (file_in tree.now).statements) }
{
    let mut told = Vec::new(alloc);
    let mut imports = Vec::new(alloc);
    let spot = Spot {
        path: path.as_str().as_bytes(),
        file,
        space: &[],
        from: 0,
        is_top: true,
    };
    walk_parts(alloc, &mut told, &mut imports, spot, tree.statements())?;
    Ok(told)
}
