// Equal trees.
ghost use Rattle.std.specs.Prelude.{◌≡◌, ◌++◌, ◌∷◌, [], IfOk, OnOk};
ghost use Rattle.php_tree.specs.Tree.{tree};

use crate::node::{Node, Part};
use sqlite_items::Items;
use std::alloc::{AllocError, Global};

/// An equal node. The only error is want of memory.
pub fn clone_node(alloc: Global, node: &Node) -> Result<Node, AllocError>
    ensures { IfOk result (λ n. n ≡ node.now) }
{
    let mut parts = Items::new(alloc);
    for part in node.parts.as_slice() {
        match part {
            Part::Leaf(token) => parts.push(Part::Leaf(token.copy(alloc)?))?,
            Part::Child(inner) => parts.push(Part::Child(clone_node(alloc, inner)?))?,
        }
    }
    Ok(Node {
        kind: node.kind,
        parts,
    })
}
