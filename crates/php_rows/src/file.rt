// Whole files as rows.
ghost use Rattle.std.specs.Prelude.{All, ◌≡◌, ◌<◌, ◌≤◌, ◌-◌, ◌^◌, ◌++◌, ◌∷◌, [], IsTrue, IfSome, suc, length, map, option_map, slice_index_or, slice_range};
ghost use Rattle.php_tree.specs.declared.token.Token.{Token};
ghost use Rattle.php_tree.specs.Ids.{bounds, place_of};
ghost use Rattle.php_tree.specs.Places.{ArePlaced};
ghost use Rattle.php_terminals.specs.Tokens.{tokens_in};
ghost use Rattle.php_tree.specs.Places.{are_placed};
ghost use Rattle.php_tree.specs.Tree.{depth, count};
ghost use Rattle.php_terminals.specs.Marked.{IsMark, token_at};
ghost use Rattle.php_rows.specs.Flatten.{fits, read};
ghost use Rattle.std.proofs.Props.{props};

use crate::flat::Flat;
use crate::inner::{at, parts_at};
use crate::parts::Parts;
use crate::row::Row;
use php_terminals::mark::Mark;
use php_terminals::tokens::Tokens;
use php_tree::{NodeKind, Version};
use span_edits::Span;

/// A file: the version in which it was read, its bytes, its tokens, of which the last one is its end, and its nodes in a
/// row, each before those inside it. A node's number is its index, and no call but `print` walks.
#[derive(Drop)]
pub struct RowTree {
    version: Version,
    bytes: Vec<u8>,
    marks: Vec<Mark>,
    nodes: Vec<Flat>,
    deep: u32,
    ghost marked: { All (IsMark bytes.items) marks.items } by { Prim.hlevel props },
    ghost ended: { 0 < length marks.items },
    ghost small: { length marks.items < 2 ^ 32 },
    ghost placed: { IsTrue (are_placed 0 (map (token_at bytes.items) marks.items)) },
    ghost few: { length nodes.items < 2 ^ 32 },
    ghost nested: { IsTrue (fits (length nodes.items) 0 (length marks.items - 1) nodes.items) },
    ghost deep_is: { deep ≡ depth (read (length nodes.items) 0 (length marks.items - 1) nodes.items (map (token_at bytes.items) marks.items)) },
}

// The last of some tokens.
fn last(marks: &[Mark]) -> u32
    requires some { 0 < length marks.now }
    requires small { length marks.now < 2 ^ 32 }
    ensures { result ≡ length marks.now - 1 }
{
    (marks.len() - 1) as u32
}

// The place of the tokens from one number to another, before the token that follows them.
fn place_between(tokens: Tokens<'_>, first: u32, end: u32) -> Span
    requires order { first ≤ end }
    requires within { end < length tokens.marks.now }
    requires placed { ArePlaced 0 (tokens_in tokens) }
    ensures { (next : Token) → (d : Token) → next ≡ slice_index_or (tokens_in tokens.entry) end d → bounds result ≡ place_of (slice_range (tokens_in tokens.entry) first end) next }
{
    let start = tokens.marks[first as usize].start;
    if first == end {
        return Span { start, end: start };
    }
    Span {
        start,
        end: tokens.marks[end as usize].lead,
    }
}

impl RowTree {
    ghost use Rattle.php_tree.specs.Ids.{node_at, span_at};
    ghost use Rattle.php_tree.specs.declared.token.Token.{Token};
    ghost use Rattle.php_tree.specs.Tree.{File, Forest};
    ghost use Rattle.php_rows.specs.Reading.{forest_in};
    ghost use Rattle.php_rows.specs.Rows.{IsWhole, nodes_read};
    ghost use Rattle.php_rows.specs.File.{bytes_in, file_in, node_view, tokens_of, version_in};

    /// A file of these bytes, tokens and nodes.
    pub fn new(version: Version, bytes: Vec<u8>, marks: Vec<Mark>, row: Row, deep: u32) -> RowTree
        requires marked { All (IsMark bytes.items) marks.items }
        requires placed { ArePlaced 0 (map (token_at bytes.items) marks.items) }
        requires small { length marks.items < 2 ^ 32 }
        requires few { nodes_read row < 2 ^ 32 }
        requires whole { (f : Forest) × ((last : Token) × IsWhole (map (token_at bytes.items) marks.items) row deep f last) }
        ensures version { version_in result ≡ version }
        ensures bytes { bytes_in result ≡ bytes.items }
        ensures file { (f : Forest) (last : Token) → IsWhole (map (token_at bytes.items) marks.items) row deep f last → file_in result ≡ record { statements = f; end = last } }
    {
        RowTree {
            version,
            bytes,
            marks,
            nodes: row.into_nodes(),
            deep,
        }
    }

    /// The version in which the file was read.
    pub fn version(&self) -> Version
        ensures { result ≡ version_in self.now }
    {
        self.version
    }

    /// The bytes of the file.
    pub fn bytes(&self) -> &[u8]
        ensures { result.now ≡ bytes_in self.now }
    {
        self.bytes.as_slice()
    }

    /// The tokens of the file, the one at its end included.
    pub fn tokens(&self) -> Tokens<'_>
        ensures tokens { tokens_in result ≡ tokens_of self.now }
        ensures bytes { result.bytes.now ≡ bytes_in self.now }
    {
        Tokens {
            bytes: self.bytes.as_slice(),
            marks: self.marks.as_slice(),
        }
    }

    /// The tokens of the statements, from the first node's on.
    pub fn statements(&self) -> Parts<'_>
        ensures parts { forest_in result ≡ (file_in self.now).statements }
        ensures number { result.number ≡ 0 }
        ensures bytes { result.tokens.bytes.now ≡ bytes_in self.now }
    {
        Parts {
            tokens: self.tokens(),
            nodes: self.nodes.as_slice(),
            number: 0,
            at: 0,
            end: last(self.marks.as_slice()),
        }
    }

    /// The token at the end: its text is empty, and its lead the trivia behind the last statement.
    pub fn end(&self) -> Mark
        ensures mark { IsMark (bytes_in self.now) result }
        ensures end { token_at (bytes_in self.now) result ≡ (file_in self.now).end }
    {
        self.marks[self.marks.len() - 1]
    }

    /// How many nodes the file has.
    pub fn nodes(&self) -> u32
        ensures { result ≡ count (file_in self.now).statements }
    {
        self.nodes.as_slice().len() as u32
    }

    /// How deep nodes stand in one another: 0 without statements, and 1 for a statement without child nodes.
    pub fn depth(&self) -> u32
        ensures { result ≡ depth (file_in self.now).statements }
    {
        self.deep
    }

    /// The node with a number, in preorder from 0, by its kind and its parts; none exactly where the number is `nodes()`
    /// or more.
    pub fn node(&self, id: u32) -> Option<(NodeKind, Parts<'_>)>
        ensures node { node_view result ≡ node_at (file_in self.now) id }
        ensures number { IfSome result (λ n. n.1.number ≡ suc id) }
        ensures bytes { IfSome result (λ n. n.1.tokens.bytes.now ≡ bytes_in self.now) }
    {
        let nodes = self.nodes.as_slice();
        if id as usize >= nodes.len() {
            return None;
        }
        let (node, behind) = at(nodes, id as usize);
        Some((node.kind, parts_at(self.tokens(), node, behind, id + 1)))
    }

    /// The place of the node with a number: from its first token's text to the end of its last one's, or the empty
    /// place before the next token; none exactly where the number is `nodes()` or more.
    pub fn span(&self, id: u32) -> Option<Span>
        ensures { option_map bounds result ≡ span_at (file_in self.now) id }
    {
        let nodes = self.nodes.as_slice();
        if id as usize >= nodes.len() {
            return None;
        }
        let (node, _) = at(nodes, id as usize);
        Some(place_between(self.tokens(), node.first, node.end))
    }
}
