// Points by their numbers.
ghost use Rattle.std.specs.Prelude.{◌≡◌, ◌++◌, ◌∷◌, [], IfOk, OnOk, map, option_to_list};
ghost use Rattle.php_tree.specs.Ids.{node_at};
ghost use Rattle.php_tree.specs.Tree.{Forest};
ghost use Rattle.php_rows.specs.File.{file_in};
ghost use Rattle.program_points.specs.Numbers as spec;

use crate::edge::Edge;
use crate::file_edge::FileEdge;
use crate::kinds::has_points;
use crate::point::Point;
use php_rows::RowTree;
use php_tree::NodeKind;
use program_names::NodeRef;
use std::alloc::{AllocError, Global};

/// The points of a node, by their numbers.
#[derive(Clone, Copy)]
pub struct NodePoints {
    pub before: u32,
    pub after: u32,
}

// The points of a node, from a number on, behind those of others; the number behind them.
fn add_node(
    numbers: &mut Vec<Option<NodePoints>>,
    first: u32,
    kind: NodeKind,
) -> Result<u32, AllocError>
    ensures numbers { OnOk result ((f : Forest) → numbers.new.items ≡ numbers.old.items
        ++ spec.numbers first ((kind, f) ∷ [])) }
    ensures behind { IfOk result (λ n. (f : Forest) → n ≡ spec.behind_all first ((kind, f) ∷ [])) }
{
    if !has_points(kind) {
        numbers.push(None)?;
        return Ok(first);
    }
    let after = first.checked_add(1).ok_or(AllocError)?;
    let behind = first.checked_add(2).ok_or(AllocError)?;
    numbers.push(Some(NodePoints {
        before: first,
        after,
    }))?;
    Ok(behind)
}

// The same of the node with a number, if there is one.
fn add_at(
    numbers: &mut Vec<Option<NodePoints>>,
    first: u32,
    tree: &RowTree,
    id: u32,
) -> Result<u32, AllocError>
    ensures numbers { OnOk result (numbers.new.items ≡ numbers.old.items
        ++ spec.numbers first (option_to_list (node_at (file_in tree.now) id))) }
    ensures behind { IfOk result (λ n. n ≡ spec.behind_all first (option_to_list (node_at (file_in tree.now) id))) }
{
    match tree.node(id) {
        None => Ok(first),
        Some((kind, _)) => {
            let behind = add_node(numbers, first, kind)?;
            Ok(behind)
        }
    }
}

/// The points of the nodes of a file, from a number on, and the number behind them. The only error is want of memory.
#[tactic(auto, using(crate::proofs::NumberLemmas::counted_first, crate::proofs::NumberLemmas::counted_step, crate::proofs::NumberLemmas::counted_last))]
pub(crate) fn numbers_of(
    alloc: Global,
    tree: &RowTree,
    first: u32,
) -> Result<(Vec<Option<NodePoints>>, u32), AllocError>
    ensures numbers { IfOk result (λ r. r.0.items ≡ spec.numbers first (spec.nodes_of tree.now)) }
    ensures behind { IfOk result (λ r. r.1 ≡ spec.behind_all first (spec.nodes_of tree.now)) }
{
    let mut numbers = Vec::new(alloc);
    let mut next = first;
    for id in 0..tree.nodes() {
        next = add_at(&mut numbers, next, tree, id)?;
    }
    Ok((numbers, next))
}

// The points of the node with a number among these.
fn points_at(numbers: &[Option<NodePoints>], node: u32) -> Option<NodePoints>
    ensures { result ≡ spec.points_at numbers.now node }
{
    match numbers.get(node as usize) {
        None => None,
        Some(points) => *points,
    }
}

// The number of a point.
fn number_of(numbers: &[Option<NodePoints>], point: Point) -> u32
    ensures { result ≡ spec.number_of numbers.now point }
{
    match point {
        Point::Before(node) => match points_at(numbers, node) {
            None => 0,
            Some(points) => points.before,
        },
        Point::After(node) => match points_at(numbers, node) {
            None => 0,
            Some(points) => points.after,
        },
    }
}

// An edge of the file with a number.
fn numbered(file: u32, numbers: &[Option<NodePoints>], edge: FileEdge) -> Edge
    ensures { result ≡ spec.numbered file numbers.now edge }
{
    Edge {
        from: number_of(numbers, edge.from),
        to: number_of(numbers, edge.to),
        node: NodeRef {
            file,
            node: edge.node,
        },
    }
}

/// The edges of the file with a number, behind others.
pub(crate) fn add_edges(
    edges: &mut Vec<Edge>,
    file: u32,
    numbers: &[Option<NodePoints>],
    own: &[FileEdge],
) -> Result<(), AllocError>
    ensures { OnOk result (edges.new.items ≡ edges.old.items ++ map (spec.numbered file numbers.now) own.now) }
{
    let mut left = own;
    while let [edge, behind @ ..] = left {
        edges.push(numbered(file, numbers, *edge))?;
        left = behind;
    }
    Ok(())
}
