// Nodes by their numbers.
ghost use Rattle.std.specs.Prelude.{◌≡◌, ◌<◌, ◌+◌, ◌^◌, Some, MatchResult, slice_get};
ghost use Rattle.php_tree.specs.Tree.{count, forest_of, tree};
ghost use Rattle.php_tree.specs.Ids.{preorder};

use crate::node::{Node, Part};

// The node with a number inside a node, or how far the number goes past what stands inside.
pub fn found_inside(node: &Node, id: u32) -> Result<&Node, u32>
    ensures { MatchResult result (λ n. slice_get (preorder (forest_of node.now.parts)) id ≡ Some (tree n.now)) (λ rest. id ≡ count (forest_of node.now.parts) + rest) }
{
    let mut left = id;
    for part in node.parts.as_slice() {
        match part {
            Part::Leaf(_) => continue,
            Part::Child(inner) => {
                if left == 0 {
                    return Ok(inner);
                }
                match found_inside(inner, left - 1) {
                    Ok(found) => return Ok(found),
                    Err(rest) => left = rest,
                }
            }
        }
    }
    Err(left)
}
