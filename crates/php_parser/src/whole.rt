// The tree of a file.
ghost use Rattle.std.specs.Prelude.{All, ◌≡◌, ◌<◌, ◌^◌, IfOk, IsTrue, OnOk, length, map};
ghost use Rattle.php_tree.specs.Places.{ArePlaced};
ghost use Rattle.php_tree.specs.Tree.{File, file_leaves};
ghost use Rattle.php_tree.specs.Whole.{file, version as version_of};
ghost use Rattle.php_terminals.specs.Marked.{IsMark, token_at};
ghost use Rattle.php_terminals.specs.Tokens.{tokens_in};
ghost use Rattle.php_rows.specs.File.{bytes_in, file_in, version_in};
ghost use Rattle.php_rows.specs.Nodes.{are_nodes};
ghost use Rattle.php_rows.specs.Rows.{IsWhole};
ghost use Rattle.php_parser.specs.Files.{Answers, AnswersRow, AnswersWhole, ReadsFile, bound, ends_file};

use crate::end::is_end;
use php_exprs::{ParseFault, read_statements};
use php_rows::{Row, RowTree, nodes_of};
use php_terminals::mark::Mark;
use php_terminals::marking::marks_of;
use php_terminals::tokens::Tokens;
use php_tree::{FileTree, Token, Version};
use std::alloc::{AllocError, Global};

/// How deep nodes may stand in one another in a file of the version: 500 and 1,500.
pub fn bound(version: Version) -> u32
    ensures { result ≡ bound version }
{
    match version {
        Version::V74 => 500,
        Version::V83 => 1500,
    }
}

// Whether there is one token, the end of a file.
fn ends_file(rest: Tokens<'_>) -> bool
    ensures { result ≡ ends_file (tokens_in rest.entry) }
{
    match rest.marks {
        [] => false,
        [mark] => is_end(mark.kind),
        [_, _, ..] => false,
    }
}

// The statements of a file as a row, and how deep they are.
fn statements(alloc: Global, version: Version, tokens: Tokens<'_>) -> Result<(Row, u32), ParseFault>
    ensures found { IfOk result (λ x. (f : File) × (ReadsFile version (tokens_in tokens.entry) f ×
        IsWhole (tokens_in tokens.entry) x.0 x.1 f.statements f.end)) }
    ensures only { (f : File) → ReadsFile version (tokens_in tokens.entry) f → AnswersWhole result (tokens_in tokens.entry) f }
{
    let (row, deep) = read_statements(alloc, version, bound(version), tokens)?;
    if !ends_file(tokens.behind(row.at() as usize)) {
        return Err(ParseFault::NotInGrammar);
    }
    Ok((row, deep))
}

// So many have numbers of 32 bits.
fn counted(size: usize) -> Result<(), AllocError>
    ensures { OnOk result (size < 2 ^ 32) }
{
    if size > u32::MAX as usize {
        return Err(AllocError);
    }
    Ok(())
}

/// The tree of a file as a row, by its bytes and tokens. NotInGrammar comes exactly where the tokens have no tree within
/// the bound of the version. It takes time in proportion to the tokens, times how deep brackets stand in one another.
pub fn parse_marks(
    alloc: Global,
    version: Version,
    bytes: Vec<u8>,
    marks: Vec<Mark>,
) -> Result<RowTree, ParseFault>
    requires marked { All (IsMark bytes.items) marks.items }
    requires placed { ArePlaced 0 (map (token_at bytes.items) marks.items) }
    // The tree is one of the grammar, and its tokens are these.
    ensures found { IfOk result (λ tree. ReadsFile version (map (token_at bytes.items) marks.items) (file_in tree)) }
    ensures bytes { IfOk result (λ tree. bytes_in tree ≡ bytes.items) }
    ensures version { IfOk result (λ tree. version_in tree ≡ version) }
    // A tree of the grammar with these tokens is the answer.
    ensures only { (f : File) → ReadsFile version (map (token_at bytes.items) marks.items) f → AnswersRow result f }
{
    let (row, deep) = statements(
        alloc,
        version,
        Tokens::new(bytes.as_slice(), marks.as_slice()),
    )?;
    counted(row.len())?;
    counted(marks.as_slice().len())?;
    Ok(RowTree::new(version, bytes, marks, row, deep))
}

// The file of a row, with these tokens in place of its own.
fn file_with(
    alloc: Global,
    version: Version,
    tree: &RowTree,
    tokens: &[Token],
) -> Result<FileTree, AllocError>
    requires leaves { tokens.now ≡ file_leaves (file_in tree.now) }
    requires nodes { IsTrue (are_nodes (file_in tree.now).statements) }
    requires placed { ArePlaced 0 tokens.now }
    ensures file { IfOk result (λ made. file made ≡ file_in tree.now) }
    ensures version { IfOk result (λ made. version_of made ≡ version) }
{
    let last = tokens.len() - 1;
    let (front, _) = tokens.split_at(last);
    let statements = nodes_of(alloc, tree.statements(), front)?;
    let end = tokens[last].copy(alloc)?;
    let _nodes = tree.nodes();
    Ok(FileTree::new(version, statements, end))
}

/// The tree of the tokens of a file. NotInGrammar comes exactly where they have none within the bound of the version.
/// It takes time in proportion to the tokens, times how deep brackets stand in one another.
pub fn parse(alloc: Global, version: Version, tokens: Vec<Token>) -> Result<FileTree, ParseFault>
    requires { ArePlaced 0 tokens.items }
    // The tree is one of the grammar, and its tokens are these.
    ensures found { IfOk result (λ tree. ReadsFile version tokens.items (file tree)) }
    ensures version { IfOk result (λ tree. version_of tree ≡ version) }
    // A tree of the grammar with these tokens is the answer.
    ensures only { (f : File) → ReadsFile version tokens.items f → Answers result f }
{
    let (bytes, marks) = marks_of(alloc, tokens.as_slice())?;
    let tree = parse_marks(alloc, version, bytes, marks)?;
    Ok(file_with(alloc, version, &tree, tokens.as_slice())?)
}
