// How many nodes there are, and how deep they stand in one another.
ghost use Rattle.std.specs.Prelude.{◌≡◌, ◌<◌, ◌≤◌, ◌+◌, ◌-◌, ◌^◌, max, suc};
ghost use Rattle.php_tree.specs.Tree.{count, depth, forest_of, nodes_forest};

use crate::node::{Node, Part};

// How many nodes stand inside a node.
pub fn count_inside(node: &Node) -> u32
    requires { count (forest_of node.now.parts) < 2 ^ 32 }
    ensures { result ≡ count (forest_of node.now.parts) }
{
    let mut nodes = 0;
    for part in node.parts.as_slice() {
        match part {
            Part::Leaf(_) => {}
            Part::Child(inner) => nodes += count_inside(inner) + 1,
        }
    }
    nodes
}

// One level more than what stands inside, where that is deeper.
pub fn deeper(deepest: u32, inside: u32) -> u32
    requires { inside < 2 ^ 32 - 1 }
    ensures { result ≡ max deepest (suc inside) }
{
    deepest.max(inside + 1)
}

// The depth of what stands inside a node.
#[tactic(auto, using(crate::proofs::Trees::depth_below))]
pub fn depth_inside(node: &Node) -> u32
    requires { count (forest_of node.now.parts) < 2 ^ 32 }
    ensures depth { result ≡ depth (forest_of node.now.parts) }
    ensures few { result ≤ count (forest_of node.now.parts) }
{
    let mut deepest = 0u32;
    for part in node.parts.as_slice() {
        match part {
            Part::Leaf(_) => continue,
            Part::Child(inner) => {
                deepest = deeper(deepest, depth_inside(inner));
            }
        }
    }
    deepest
}
