//! Prints trees of PHP files as terms of the prover, so that rows of programs are never typed by hand.
//!
//! Words: the version, `7.4` or `8.3`, and then a name and a path for each file. Each file comes out as the definition
//! of a forest with that name. The terms are in the words `t` and `b` of tokens and `kind` of nodes.
#![tactic(auto)]

mod term;

use php_reading::read;
use php_tree::Version;
use std::alloc::Global;
use std::fs::File;
use std::io::{Error, ErrorKind, Read, Write};
use std::{env, io};

// The version of a word.
fn version_of(word: &str) -> io::Result<Version> {
    match word {
        "7.4" => Ok(Version::V74),
        "8.3" => Ok(Version::V83),
        _ => Err(Error::from(ErrorKind::InvalidInput)),
    }
}

// The bytes of a file.
fn bytes_of(rt: &HostRuntime, alloc: Global, path: &str) -> io::Result<Vec<u8>> {
    let mut file = File::open(rt, path)?;
    let mut bytes = Vec::new(alloc);
    file.read_to_end(&mut bytes)?;
    Ok(bytes)
}

// The definition of the tree of a file.
fn definition(rt: &HostRuntime, version: Version, name: &str, path: &str) -> io::Result<String> {
    let alloc = rt.alloc();
    let bytes = bytes_of(rt, alloc, path)?;
    match read(alloc, version, bytes.as_slice()) {
        Ok(tree) => Ok(term::definition(alloc, name, &tree)?),
        Err(_) => Err(Error::from(ErrorKind::InvalidData)),
    }
}

fn main(rt: HostRuntime) -> io::Result<()> {
    let mut words = env::args(&rt)?.skip(1);
    let version = match words.next() {
        Some(word) => version_of(word.as_str())?,
        None => return Err(Error::from(ErrorKind::InvalidInput)),
    };
    while let Some(name) = words.next() {
        let Some(path) = words.next() else {
            return Err(Error::from(ErrorKind::InvalidInput));
        };
        let text = definition(&rt, version, name.as_str(), path.as_str())?;
        rt.print(text.as_str())?;
    }
    Ok(())
}
