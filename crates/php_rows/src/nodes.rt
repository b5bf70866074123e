// Rows made into trees.
ghost use Rattle.std.specs.Prelude.{◌≡◌, IfOk, IsTrue, OnOk, length};
ghost use Rattle.php_tree.specs.Tree.{◌+++◌, alone, forest_of, leaf, none, nodes_forest, part_before, tree};
ghost use Rattle.php_rows.specs.Flatten.{tokens as count_tokens};
ghost use Rattle.php_rows.specs.Nodes.{are_nodes, with_tokens};
ghost use Rattle.php_rows.specs.Reading.{forest_in};

use crate::parts::{Parts, Step};
use php_tree::{Node, NodeKind, Part, Token};
use sqlite_items::Items;
use std::alloc::{AllocError, Global};

// A part becomes the last one.
#[tactic(auto, using(crate::proofs::Pushed::parts_push))]
fn push_part(parts: &mut Items<Part>, part: Part) -> Result<(), AllocError>
    ensures { OnOk result (forest_of parts.new ≡ forest_of parts.old +++ part_before part none) }
{
    parts.push(part)
}

// A token becomes the last part.
#[tactic(auto, using(crate::proofs::Pushed::leaf_before))]
fn push_leaf(parts: &mut Items<Part>, token: Token) -> Result<(), AllocError>
    ensures { OnOk result (forest_of parts.new ≡ forest_of parts.old +++ leaf token none) }
{
    push_part(parts, Part::Leaf(token))
}

// A node becomes the last part.
#[tactic(auto, using(crate::proofs::Pushed::child_before))]
fn push_child(parts: &mut Items<Part>, child: Node) -> Result<(), AllocError>
    ensures { OnOk result (forest_of parts.new ≡ forest_of parts.old +++ alone (tree child)) }
{
    push_part(parts, Part::Child(child))
}

// A node becomes the last one.
#[tactic(auto, using(crate::proofs::Pushed::nodes_push))]
fn push_node(nodes: &mut Items<Node>, node: Node) -> Result<(), AllocError>
    ensures { OnOk result (nodes_forest nodes.new ≡ nodes_forest nodes.old +++ alone (tree node)) }
{
    nodes.push(node)
}

/// The node of a kind with these parts, and with these tokens in place of theirs. The only error is want of memory.
pub fn node_with(
    alloc: Global,
    kind: NodeKind,
    parts: Parts<'_>,
    tokens: &[Token],
) -> Result<Node, AllocError>
    requires { length tokens.now ≡ count_tokens (forest_in parts) }
    ensures { IfOk result (λ n. tree n ≡ (kind, with_tokens (forest_in parts.entry) tokens.now)) }
{
    let mut made = Items::new(alloc);
    let mut left = parts;
    let mut rest = tokens;
    'parts: loop {
        match left.next() {
            None => return Ok(Node { kind, parts: made }),
            Some(Step::Leaf(_)) => {
                let token = rest[0].copy(alloc)?;
                push_leaf(&mut made, token)?;
                rest = rest.split_at(1).1;
            }
            Some(Step::Child(inner_kind, _, inner)) => {
                let (own, behind) = rest.split_at(inner.own_tokens().len());
                let child = node_with(alloc, inner_kind, inner, own)?;
                push_child(&mut made, child)?;
                rest = behind;
            }
        }
    }
}

/// Nodes from parts that all are nodes, with these tokens in place of theirs. The only error is want of memory.
pub fn nodes_of(
    alloc: Global,
    parts: Parts<'_>,
    tokens: &[Token],
) -> Result<Items<Node>, AllocError>
    requires nodes { IsTrue (are_nodes (forest_in parts)) }
    requires tokens { length tokens.now ≡ count_tokens (forest_in parts) }
    ensures { IfOk result (λ ns. nodes_forest ns ≡ with_tokens (forest_in parts.entry) tokens.now) }
{
    let mut made = Items::new(alloc);
    let mut left = parts;
    let mut rest = tokens;
    'parts: loop {
        match left.next() {
            None => return Ok(made),
            Some(Step::Leaf(_)) => unreachable!(),
            Some(Step::Child(kind, _, inner)) => {
                let (own, behind) = rest.split_at(inner.own_tokens().len());
                let node = node_with(alloc, kind, inner, own)?;
                push_node(&mut made, node)?;
                rest = behind;
            }
        }
    }
}
