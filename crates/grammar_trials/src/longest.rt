// The longest expression from a place on.
use crate::sketch::add_node;
use php_exprs::parse_expr;
use php_lexer::lex;
use php_tree::Version;
use std::alloc::Global;
use std::fmt::Write;

// Sources, places among their tokens, and depths.
static LONGEST: [(&str, usize, u32); 9] = [
    ("<?php 1 + 2 * 3;", 0, 3),
    ("<?php 1 + 2 * 3;", 0, 2),
    ("<?php 1 + 2 * 3;", 0, 1),
    ("<?php 1 + 2 * 3;", 2, 9),
    ("<?php 1 + 2 * 3;", 0, 0),
    ("<?php 1 + ;", 0, 9),
    ("<?php 1 + ;", 2, 9),
    ("<?php f($a", 0, 9),
    ("<?php 1", 2, 9),
];

// Where a row looks, and how deep.
fn asked(alloc: Global, source: &str, at: usize, depth: u32) -> anyhow::Result<String> {
    let mut out = String::from_str(alloc, source)?;
    write!(out, " from {at}")?;
    write!(out, ", {depth} deep  =>  ")?;
    Ok(out)
}

// The expression at a place of a source, and the place behind it, or why there is none.
fn expr_sketch(alloc: Global, source: &str, at: usize, depth: u32) -> anyhow::Result<String> {
    let mut out = asked(alloc, source, at, depth)?;
    let tokens = lex(alloc, Version::V74, source.as_bytes())?;
    if at > tokens.len() || depth > 1500 {
        return Ok(out);
    }
    match parse_expr(alloc, Version::V74, tokens.as_slice(), at, depth) {
        Ok((node, end)) => {
            add_node(&mut out, &node)?;
            write!(out, " {end}")?;
        }
        Err(fault) => write!(out, "{fault:?}")?,
    }
    Ok(out)
}

/// Prints each expression with the place behind it.
pub fn longest(rt: &HostRuntime) -> anyhow::Result<()> {
    println!(rt; "## The longest expression from a place on, within a depth.")?;
    for (source, at, depth) in LONGEST {
        let found = expr_sketch(rt.alloc(), source, at, depth)?;
        println!(rt; "{found}")?;
    }
    Ok(())
}
