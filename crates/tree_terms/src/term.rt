// Trees as terms.
use php_tree::{FileTree, Node, Part, Token};
use std::alloc::{AllocError, Global};

// Whether a byte stands for itself, or behind a backslash, between the quotes of the prover's texts.
fn is_plain(byte: u8) -> bool {
    (32..127).contains(&byte) || byte == b'\n' || byte == b'\t' || byte == b'\r'
}

// A byte between the quotes of the prover's texts.
fn put_plain(out: &mut String, byte: u8) -> Result<(), AllocError> {
    match byte {
        b'"' => out.push_str("\\\""),
        b'\\' => out.push_str("\\\\"),
        b'\n' => out.push_str("\\n"),
        b'\t' => out.push_str("\\t"),
        b'\r' => out.push_str("\\r"),
        _ => out.push(char::from(byte)),
    }
}

// A text as the prover writes it.
fn put_text(out: &mut String, text: &[u8]) -> Result<(), AllocError> {
    out.push('"')?;
    for byte in text {
        put_plain(out, *byte)?;
    }
    out.push('"')
}

// A list of bytes as the prover writes it.
fn put_bytes(out: &mut String, text: &[u8]) -> Result<(), AllocError> {
    out.push('(')?;
    for byte in text {
        write!(out, "{byte} ∷ ")?;
    }
    out.push_str("[])")
}

// A token, up to what follows it: its kind and its text, without its trivia.
fn put_token(out: &mut String, token: &Token) -> Result<(), AllocError> {
    let kind = token.kind;
    let text = token.text.as_slice();
    if text.iter().all(|byte| is_plain(*byte)) {
        write!(out, "(t token.{kind:?} ")?;
        put_text(out, text)?;
    } else {
        write!(out, "(b token.{kind:?} ")?;
        put_bytes(out, text)?;
    }
    out.push(' ')
}

// A node, up to what follows it.
fn put_node(out: &mut String, node: &Node) -> Result<(), AllocError> {
    let kind = node.kind;
    write!(out, "(node kind.{kind:?} ")?;
    for part in node.parts.as_slice() {
        match part {
            Part::Leaf(token) => put_token(out, token)?,
            Part::Child(inner) => put_node(out, inner)?,
        }
    }
    put_end(out, node.parts.as_slice().len())?;
    out.push(' ')
}

// The end of so many parts.
fn put_end(out: &mut String, parts: usize) -> Result<(), AllocError> {
    out.push_str("none")?;
    for _ in 0..parts {
        out.push(')')?;
    }
    Ok(())
}

/// The definition of a file's statements as a forest of this name: a signature and an equation, a line each. The only
/// error is want of memory.
pub fn definition(alloc: Global, name: &str, tree: &FileTree) -> Result<String, AllocError> {
    let mut out = String::new(alloc);
    write!(out, "abbrev {name} : Forest\n{name} =\n    ")?;
    for statement in tree.statements() {
        put_node(&mut out, statement)?;
    }
    put_end(&mut out, tree.statements().len())?;
    out.push('\n')?;
    Ok(out)
}
