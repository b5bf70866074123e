// Where nodes stand.
ghost use Rattle.std.specs.Prelude.{◌≡◌, ◌≤◌, ◌+◌, ◌-◌, ◌<◌, drop, ℕ, ◌++◌, ◌∷◌, [], Some, MatchResult, option_map, length, slice_get, option_copied, unwrap_or};
ghost use Rattle.php_tree.specs.Tree.{count, forest_of, leaves, nodes_forest};
ghost use Rattle.php_tree.specs.Places.{ArePlaced};
ghost use Rattle.php_tree.specs.Ids.{bounds, first_or, first_of, place_of, places};

use crate::node::{Node, Part};
use crate::token::Token;
use span_edits::Span;

// The first token inside a node.
fn first_inside(node: &Node) -> Option<&Token>
    ensures { option_copied result ≡ first_of (leaves (forest_of node.now.parts)) }
{
    for part in node.parts.as_slice() {
        match part {
            Part::Leaf(token) => return Some(token),
            Part::Child(inner) => {
                if let Some(token) = first_inside(inner) {
                    return Some(token);
                }
            }
        }
    }
    None
}

// The first token of these parts, or else the one that follows.
pub fn first_token<'a>(parts: &'a [Part], next: &'a Token) -> &'a Token
    ensures { result.now ≡ first_or (leaves (forest_of parts.now)) next.now }
{
    for part in parts {
        match part {
            Part::Leaf(token) => return token,
            Part::Child(inner) => {
                if let Some(token) = first_inside(inner) {
                    return token;
                }
            }
        }
    }
    next
}

// From a token to the trivia before another one.
fn between(first: &Token, next: &Token) -> Span
    requires { first.now.start + length next.now.lead ≤ next.now.start }
    ensures start { result.start ≡ first.now.start }
    ensures end { result.end ≡ next.now.start - length next.now.lead }
{
    Span {
        start: first.start,
        end: next.start - next.lead.as_slice().len() as u32,
    }
}

// No bytes, at a place.
fn nothing_at(place: u32) -> Span
    ensures start { result.start ≡ place }
    ensures end { result.end ≡ place }
{
    Span {
        start: place,
        end: place,
    }
}

// The place of a node, where this token follows: up to the trivia before that token.
pub fn place(node: &Node, next: &Token) -> Span
    requires { (at : ℕ) × ArePlaced at (leaves (forest_of node.now.parts) ++ next.now ∷ []) }
    ensures { bounds result ≡ place_of (leaves (forest_of node.now.parts)) next.now }
{
    match first_inside(node) {
        Some(first) => between(first, next),
        None => nothing_at(next.start),
    }
}

// The parts behind the first one.
fn tail(parts: &[Part]) -> &[Part]
    ensures { result.now ≡ drop 1 parts.now }
{
    match parts {
        [] => parts,
        [_, behind @ ..] => behind,
    }
}

// The first token of these nodes, or else the one that follows.
fn first_token_of<'a>(nodes: &'a [Node], next: &'a Token) -> &'a Token
    ensures { result.now ≡ first_or (leaves (nodes_forest nodes.now)) next.now }
{
    for node in nodes {
        if let Some(token) = first_inside(node) {
            return token;
        }
    }
    next
}

// The nodes behind the first one.
fn tail_of(nodes: &[Node]) -> &[Node]
    ensures { result.now ≡ drop 1 nodes.now }
{
    match nodes {
        [] => nodes,
        [_, behind @ ..] => behind,
    }
}

// The place of the node with a number among these, where this token follows.
pub fn place_among(nodes: &[Node], id: u32, next: &Token) -> Option<Span>
    requires { (at : ℕ) × ArePlaced at (leaves (nodes_forest nodes.now) ++ next.now ∷ []) }
    ensures { option_map bounds result ≡ slice_get (places (nodes_forest nodes.now) next.now) id }
{
    let mut left = id;
    let mut behind = nodes;
    for node in nodes {
        behind = tail_of(behind);
        let follower = first_token_of(behind, next);
        if left == 0 {
            return Some(place(node, follower));
        }
        match place_inside(node, left - 1, follower) {
            Ok(found) => return Some(found),
            Err(rest) => left = rest,
        }
    }
    None
}

// The place of the node with a number inside a node, or how far the number goes past what stands inside.
pub fn place_inside(node: &Node, id: u32, next: &Token) -> Result<Span, u32>
    requires { (at : ℕ) × ArePlaced at (leaves (forest_of node.now.parts) ++ next.now ∷ []) }
    ensures { MatchResult result (λ s. slice_get (places (forest_of node.now.parts) next.now) id ≡ Some (bounds s)) (λ rest. id ≡ count (forest_of node.now.parts) + rest) }
{
    let mut left = id;
    let mut behind = node.parts.as_slice();
    for part in node.parts.as_slice() {
        behind = tail(behind);
        match part {
            Part::Leaf(_) => continue,
            Part::Child(inner) => {
                let follower = first_token(behind, next);
                if left == 0 {
                    return Ok(place(inner, follower));
                }
                match place_inside(inner, left - 1, follower) {
                    Ok(found) => return Ok(found),
                    Err(rest) => left = rest,
                }
            }
        }
    }
    Err(left)
}
