// The tree of some bytes as a row.
ghost use Rattle.std.specs.Prelude.{◌≡◌, ◌≢◌, IfOk, IfErr};
ghost use Rattle.php_tree.specs.Tree.{File};
ghost use Rattle.php_rows.specs.File.{bytes_in, file_in, version_in};
ghost use Rattle.php_reading.specs.Reading.{AnswersRow, IsFault, Reads, RefusesRow};

use crate::fault::ReadFault;
use crate::reader::of_lexing;
use php_lexer::lex_marks;
use php_parser::{ParseFault, parse_marks};
use php_rows::RowTree;
use php_tree::Version;
use std::alloc::Global;

/// The tree of a file in a version, as `read` has it, as a row, with the bytes and the tokens. The causes of faults are
/// those of `read`.
pub fn read_rows(alloc: Global, version: Version, bytes: Vec<u8>) -> Result<RowTree, ReadFault>
    // The version reads the bytes as the tree.
    ensures found { IfOk result (λ tree. Reads version bytes.items (file_in tree)) }
    ensures bytes { IfOk result (λ tree. bytes_in tree ≡ bytes.items) }
    ensures version { IfOk result (λ tree. version_in tree ≡ version) }
    // A tree as which the version reads the bytes is the answer.
    ensures only { (f : File) → Reads version bytes.items f → AnswersRow result f }
    // A fault has its cause in the bytes.
    ensures fault { IfErr result (λ fault. IsFault version bytes.items fault) }
    // A fault whose cause is in the bytes is the answer.
    ensures refused { (fault : ReadFault) → fault ≢ ReadFault.Memory → IsFault version bytes.items fault → RefusesRow result fault }
{
    let marks = match lex_marks(alloc, version, bytes.as_slice()) {
        Ok(marks) => marks,
        Err(fault) => return Err(of_lexing(fault)),
    };
    match parse_marks(alloc, version, bytes, marks) {
        Ok(tree) => Ok(tree),
        Err(ParseFault::NotInGrammar) => Err(ReadFault::NotInGrammar),
        Err(ParseFault::Memory) => Err(ReadFault::Memory),
    }
}
