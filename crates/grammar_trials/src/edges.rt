// Depths, lengths and buffers at their edges.
use php_reading::read;
use php_tree::Version;
use std::alloc::Global;
use std::fmt::Write;
use trivia_printer::{print_into, print_len};

// A number in so many pairs of parentheses, as an `echo` statement.
fn in_parens(alloc: Global, pairs: usize) -> anyhow::Result<Vec<u8>> {
    let mut out = Vec::new(alloc);
    out.extend_from_slice(b"<?php echo ")?;
    for _pair in 0..pairs {
        out.push(b'(')?;
    }
    out.push(b'1')?;
    for _pair in 0..pairs {
        out.push(b')')?;
    }
    out.push(b';')?;
    Ok(out)
}

// How deep nodes may stand in one another.
fn depth(rt: &HostRuntime, version: Version, pairs: usize) -> anyhow::Result<()> {
    let source = in_parens(rt.alloc(), pairs)?;
    let mut line = String::new(rt.alloc());
    write!(line, "{pairs} parentheses in ")?;
    write!(line, "{version:?}: ")?;
    match read(rt.alloc(), version, source.as_slice()) {
        Ok(tree) => write!(line, "depth {}", tree.depth())?,
        Err(fault) => write!(line, "{fault:?}")?,
    }
    println!(rt; "{line}")?;
    Ok(())
}

// How many bytes there may be.
fn length(rt: &HostRuntime, bytes: &[u8]) -> anyhow::Result<()> {
    let mut line = String::new(rt.alloc());
    write!(line, "{} bytes: ", bytes.len())?;
    match read(rt.alloc(), Version::V74, bytes) {
        Ok(tree) => write!(line, "{} nodes", tree.nodes())?,
        Err(fault) => write!(line, "{fault:?}")?,
    }
    println!(rt; "{line}")?;
    Ok(())
}

// A tree written at the front of a buffer, which stays as it was behind it.
fn buffer(rt: &HostRuntime) -> anyhow::Result<()> {
    let source = b"a <?php /* b */ f( $c , 1 ) ; // d\n?>\ne".as_slice();
    let Ok(tree) = read(rt.alloc(), Version::V74, source) else {
        return Ok(());
    };
    let mut buffer = vec![in rt.alloc(); 7u8; 64]?;
    if print_len(&tree) > buffer.len() {
        return Ok(());
    }
    let len = print_into(&tree, buffer.as_mut_slice());
    let (front, behind) = buffer.as_slice().split_at(len);
    let same = front == source && behind == [7u8; 25].as_slice();
    let mut line = String::new(rt.alloc());
    write!(line, "{len} bytes in a buffer: ")?;
    line.push_str(if same { "true" } else { "false" })?;
    println!(rt; "{line}")?;
    Ok(())
}

/// Prints what is read and written at the edges.
pub fn edges(rt: &HostRuntime) -> anyhow::Result<()> {
    println!(rt; "## Depths, lengths and buffers.")?;
    depth(rt, Version::V74, 498)?;
    depth(rt, Version::V74, 499)?;
    depth(rt, Version::V83, 1498)?;
    depth(rt, Version::V83, 1499)?;
    let long = vec![in rt.alloc(); b'a'; 1_048_577]?;
    length(rt, long.as_slice())?;
    length(rt, &long[1..])?;
    match read(rt.alloc(), Version::V74, b"<?php 1 \x01") {
        Ok(_) => println!(rt; "a control byte: read")?,
        Err(fault) => println!(rt; "a control byte: {fault:?}")?,
    }
    buffer(rt)
}
