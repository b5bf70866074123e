// A row: what stands before a run.
use crate::escapes::plain;
use io_ports::{Bytes, PathText};
use std::alloc::{AllocError, Global};

/// A file that a row names.
pub type File = (PathText, Bytes);

/// A link and what it leads to.
#[derive(Drop)]
pub struct Link {
    pub path: PathText,
    pub original: PathText,
}

/// The numbers of the calls that fail, of each object.
#[derive(Drop)]
pub struct Failing {
    pub source: Vec<u64>,
    pub target: Vec<u64>,
    pub out: Vec<u64>,
    pub first: Vec<u64>,
    pub second: Vec<u64>,
}

/// What stands before a run: its words, the settings file and the sources, a file that the target holds, and which calls
/// fail, or find no memory; before a run over folders also other files, and links.
#[derive(Drop)]
pub struct Row {
    pub name: String,
    pub words: Vec<String>,
    pub settings: Option<File>,
    pub files: Vec<File>,
    pub held: Option<File>,
    pub others: Vec<File>,
    pub links: Vec<Link>,
    pub failing: Failing,
    pub short: u64,
}

impl Failing {
    fn new(alloc: Global) -> Failing {
        Failing {
            source: Vec::new(alloc),
            target: Vec::new(alloc),
            out: Vec::new(alloc),
            first: Vec::new(alloc),
            second: Vec::new(alloc),
        }
    }

    // One call more fails; answers whether there is such an object.
    fn add(&mut self, object: &str, call: u64) -> Result<bool, AllocError> {
        match object {
            "source" => self.source.push(call)?,
            "target" => self.target.push(call)?,
            "out" => self.out.push(call)?,
            "first" => self.first.push(call)?,
            "second" => self.second.push(call)?,
            _ => return Ok(false),
        }
        Ok(true)
    }
}

// A file of a name and its bytes, as a line has them.
fn file_of(alloc: Global, line: &str) -> Result<File, AllocError> {
    let (path, text) = line.split_once(' ').unwrap_or((line, ""));
    let path = PathText::new(String::from_str(alloc, path)?);
    Ok((path, Bytes::new(plain(alloc, text)?)))
}

// A link of a path and what it leads to.
fn link_of(alloc: Global, line: &str) -> Result<Link, AllocError> {
    let (path, original) = line.split_once(' ').unwrap_or((line, ""));
    Ok(Link {
        path: PathText::new(String::from_str(alloc, path)?),
        original: PathText::new(String::from_str(alloc, original)?),
    })
}

// A file of a name and so many times one byte.
fn long_file(alloc: Global, line: &str, byte: u8) -> Result<Option<File>, AllocError> {
    let Some((path, count)) = line.split_once(' ') else {
        return Ok(None);
    };
    let Ok(count) = count.parse::<usize>() else {
        return Ok(None);
    };
    let path = PathText::new(String::from_str(alloc, path)?);
    Ok(Some((path, Bytes::new(vec![in alloc; byte; count]?))))
}

impl Row {
    /// Of nothing.
    pub fn new(alloc: Global) -> Row {
        Row {
            name: String::new(alloc),
            words: Vec::new(alloc),
            settings: None,
            files: Vec::new(alloc),
            held: None,
            others: Vec::new(alloc),
            links: Vec::new(alloc),
            failing: Failing::new(alloc),
            short: 0,
        }
    }

    // The words of a line.
    fn add_words(&mut self, alloc: Global, line: &str) -> Result<(), AllocError> {
        for word in line.split(' ') {
            self.words.push(String::from_str(alloc, word)?)?;
        }
        Ok(())
    }

    // So many empty files; answers whether it was a number.
    fn add_empty(&mut self, alloc: Global, count: &str) -> Result<bool, AllocError> {
        let Ok(count) = count.parse::<u16>() else {
            return Ok(false);
        };
        for number in 0..count {
            let path = PathText::new(format!(in alloc; "{number:05}.php")?);
            self.files.push((path, Bytes::new(Vec::new(alloc))))?;
        }
        Ok(true)
    }

    // A call that fails; answers whether the line names one.
    fn add_failing(&mut self, line: &str) -> Result<bool, AllocError> {
        let Some((object, call)) = line.split_once(' ') else {
            return Ok(false);
        };
        let Ok(call) = call.parse::<u64>() else {
            return Ok(false);
        };
        self.failing.add(object, call)
    }

    // A long file of sources; answers whether the line names one.
    fn add_long(&mut self, alloc: Global, line: &str) -> Result<bool, AllocError> {
        match long_file(alloc, line, b'a')? {
            Some(file) => {
                self.files.push(file)?;
                Ok(true)
            }
            None => Ok(false),
        }
    }

    // A part of a key and what stands behind it; answers whether there is such a key.
    fn add(&mut self, alloc: Global, key: &str, rest: &str) -> Result<bool, AllocError> {
        match key {
            "row" => self.name = String::from_str(alloc, rest)?,
            "words" => self.add_words(alloc, rest)?,
            "settings" => self.settings = Some(file_of(alloc, rest)?),
            "long-settings" => self.settings = long_file(alloc, rest, b'#')?,
            "file" => self.files.push(file_of(alloc, rest)?)?,
            "held" => self.held = Some(file_of(alloc, rest)?),
            "other" => self.others.push(file_of(alloc, rest)?)?,
            "link" => self.links.push(link_of(alloc, rest)?)?,
            "empty" => return self.add_empty(alloc, rest),
            "long" => return self.add_long(alloc, rest),
            "fails" => return self.add_failing(rest),
            "short" => self.short = rest.parse::<u64>().unwrap_or(0),
            _ => return Ok(false),
        }
        Ok(true)
    }

    /// Reads a line of a row; answers whether it is one. An empty line is.
    pub fn read(&mut self, alloc: Global, line: &str) -> Result<bool, AllocError> {
        match line.split_once(' ') {
            Some((key, rest)) => self.add(alloc, key, rest),
            None => Ok(line.is_empty()),
        }
    }
}
