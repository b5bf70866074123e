// Trees as texts: a node is its kind and its parts in round brackets, a token its text. Of a variable, a literal or a
// constant that is one token alone, the text tells the kind.
use php_reading::{read, read_rows};
use php_rows::{Parts, RowTree, Step};
use php_terminals::marked::text_of;
use php_tree::{FileTree, Node, NodeKind, Part, Version};
use std::alloc::Global;
use std::fmt::Write;
use std::str;
use trivia_printer::print;

// Whether a node of a kind that is one token is told by it.
fn is_plain(kind: NodeKind) -> bool {
    matches!(
        kind,
        NodeKind::Variable
            | NodeKind::Number
            | NodeKind::Float
            | NodeKind::Text
            | NodeKind::Constant
    )
}

/// A node, at the end.
pub fn add_node(out: &mut String, node: &Node) -> anyhow::Result<()> {
    out.push('(')?;
    let mut first = is_plain(node.kind) && node.parts.as_slice().len() == 1;
    if !first {
        write!(out, "{:?}", node.kind)?;
    }
    for part in node.parts.as_slice() {
        if !first {
            out.push(' ')?;
        }
        first = false;
        match part {
            Part::Leaf(token) => out.push_str(str::from_utf8(token.text.as_slice())?)?,
            Part::Child(inner) => add_node(out, inner)?,
        }
    }
    out.push(')')?;
    Ok(())
}

// Whether the parts are one.
fn is_one(parts: Parts<'_>) -> bool {
    let mut left = parts;
    let _first = left.next();
    left.next().is_none()
}

// A node of a row, at the end.
fn add_row(out: &mut String, kind: NodeKind, parts: Parts<'_>) -> anyhow::Result<()> {
    out.push('(')?;
    let mut first = is_plain(kind) && is_one(parts);
    if !first {
        write!(out, "{kind:?}")?;
    }
    let bytes = parts.bytes();
    let mut left = parts;
    'parts: loop {
        match left.next() {
            None => break,
            Some(step) => {
                if !first {
                    out.push(' ')?;
                }
                first = false;
                match step {
                    Step::Leaf(mark) => out.push_str(str::from_utf8(text_of(bytes, mark))?)?,
                    Step::Child(inner, _, own) => add_row(out, inner, own)?,
                }
            }
        }
    }
    out.push(')')?;
    Ok(())
}

// The statements of a file.
fn tree_sketch(alloc: Global, tree: &FileTree) -> anyhow::Result<String> {
    let mut out = String::new(alloc);
    for statement in tree.statements() {
        add_node(&mut out, statement)?;
    }
    Ok(out)
}

// The statements of a file that is a row.
fn row_sketch(alloc: Global, tree: &RowTree) -> anyhow::Result<String> {
    let mut out = String::new(alloc);
    let mut left = tree.statements();
    'parts: loop {
        match left.next() {
            None => break,
            Some(Step::Leaf(_)) => {}
            Some(Step::Child(kind, _, own)) => add_row(&mut out, kind, own)?,
        }
    }
    Ok(out)
}

// A source as a row, or why it isn't read.
fn read_sketch(alloc: Global, version: Version, source: &str) -> anyhow::Result<String> {
    let mut out = String::new(alloc);
    match read_rows(alloc, version, Vec::from_slice(alloc, source.as_bytes())?) {
        Ok(tree) => return row_sketch(alloc, &tree),
        Err(fault) => write!(out, "{fault:?}")?,
    }
    Ok(out)
}

// The statements of a source, or why it isn't read.
fn tree_of(alloc: Global, version: Version, source: &str) -> anyhow::Result<String> {
    let mut out = String::new(alloc);
    match read(alloc, version, source.as_bytes()) {
        Ok(tree) => {
            let printed = print(alloc, &tree)?;
            if printed.as_slice() != source.as_bytes() {
                out.push_str("printed otherwise: ")?;
            }
            out.push_str(tree_sketch(alloc, &tree)?.as_str())?;
        }
        Err(fault) => write!(out, "{fault:?}")?,
    }
    Ok(out)
}

/// The statements of a source, or why it isn't read. The tree is printed as the source, and the row says what the tree
/// does; else the text says that.
pub fn sketch(alloc: Global, version: Version, source: &str) -> anyhow::Result<String> {
    let tree = tree_of(alloc, version, source)?;
    let row = read_sketch(alloc, version, source)?;
    if tree.as_str() == row.as_str() {
        return Ok(tree);
    }
    let mut out = tree;
    out.push_str(" as a tree, ")?;
    out.push_str(row.as_str())?;
    out.push_str(" as a row")?;
    Ok(out)
}
