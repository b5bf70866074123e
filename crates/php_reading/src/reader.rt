// The tree of some bytes.
ghost use Rattle.std.specs.Prelude.{◌≡◌, ◌≢◌, IfOk, IfErr};
ghost use Rattle.php_tree.specs.Tree.{File};
ghost use Rattle.php_tree.specs.Whole.{file, version as version_of};
ghost use Rattle.php_reading.specs.Faults.{of_lexing};
ghost use Rattle.php_reading.specs.Reading.{Answers, IsFault, Reads, Refuses};

use crate::fault::ReadFault;
use php_lexer::{LexFault, lex};
use php_parser::{ParseFault, parse};
use php_tree::{FileTree, Version};
use std::alloc::Global;

// The fault of tokens, as one of reading.
pub fn of_lexing(fault: LexFault) -> ReadFault
    ensures { result ≡ of_lexing fault }
{
    match fault {
        LexFault::OpenText(at) => ReadFault::OpenText(at),
        LexFault::OpenComment(at) => ReadFault::OpenComment(at),
        LexFault::OpenHeredoc(at) => ReadFault::OpenHeredoc(at),
        LexFault::BadByte(at) => ReadFault::BadByte(at),
        LexFault::TooLong => ReadFault::TooLong,
        LexFault::Memory => ReadFault::Memory,
    }
}

/// The tree of a file in a version: its tokens are those of `lex`, and its tree that of `parse`.
///
/// `TooLong` comes exactly for more than 1,048,576 bytes. Of no more, `OpenText`, `OpenComment`,
/// `OpenHeredoc` and `BadByte` come with the place of the first fault from the left, where there are
/// no tokens, and `NotInGrammar` where the tokens have no tree within the depth of the version.
/// `Memory` is want of memory. Time and memory are in proportion to those of `lex` and `parse`.
pub fn read(alloc: Global, version: Version, bytes: &[u8]) -> Result<FileTree, ReadFault>
    // The version reads the bytes as the tree.
    ensures found { IfOk result (λ tree. Reads version bytes.now (file tree)) }
    ensures version { IfOk result (λ tree. version_of tree ≡ version) }
    // A tree as which the version reads the bytes is the answer.
    ensures only { (f : File) → Reads version bytes.now f → Answers result f }
    // A fault has its cause in the bytes.
    ensures fault { IfErr result (λ fault. IsFault version bytes.now fault) }
    // A fault whose cause is in the bytes is the answer.
    ensures refused { (fault : ReadFault) → fault ≢ ReadFault.Memory → IsFault version bytes.now fault → Refuses result fault }
{
    let tokens = match lex(alloc, version, bytes) {
        Ok(tokens) => tokens,
        Err(fault) => return Err(of_lexing(fault)),
    };
    match parse(alloc, version, tokens) {
        Ok(tree) => Ok(tree),
        Err(ParseFault::NotInGrammar) => Err(ReadFault::NotInGrammar),
        Err(ParseFault::Memory) => Err(ReadFault::Memory),
    }
}
