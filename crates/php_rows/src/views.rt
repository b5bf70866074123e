// What stands in a node, without a walk.
ghost use Rattle.std.specs.Prelude.{◌≡◌, ◌≤◌, length, map, slice_range};
ghost use Rattle.php_tree.specs.Tree.{leaves};
ghost use Rattle.php_terminals.specs.Tokens.{tokens_in};
ghost use Rattle.php_rows.specs.Kinds.{kind_of, kinds};
ghost use Rattle.php_rows.specs.Reading.{IsLeading, bytes_of, forest_in};

use crate::flat::Flat;
use crate::next::split;
use crate::parts::Parts;
use php_terminals::tokens::Tokens;

// The tokens from one number to another.
pub fn between(tokens: Tokens<'_>, from: u32, to: u32) -> Tokens<'_>
    requires order { from ≤ to }
    requires within { to ≤ length tokens.marks.now }
    ensures tokens { tokens_in result ≡ slice_range (tokens_in tokens.entry) from to }
    ensures bytes { result.bytes.now ≡ tokens.entry.bytes.now }
{
    Tokens {
        bytes: tokens.bytes,
        marks: &tokens.marks[from as usize..to as usize],
    }
}

impl<'a> Parts<'a> {
    /// The tokens of the file.
    pub fn file_tokens(self) -> Tokens<'a>
        ensures { result ≡ self.entry.tokens }
    {
        self.tokens
    }

    /// The bytes of the file.
    pub fn bytes(self) -> &'a [u8]
        ensures { result.now ≡ bytes_of self.entry }
    {
        self.tokens.bytes
    }

    /// The number of the next node.
    pub fn number(self) -> u32
        ensures { result ≡ self.entry.number }
    {
        self.number
    }

    /// The nodes of these parts, inner ones too, each before those inside it.
    pub fn nodes(self) -> &'a [Flat]
        ensures { map kind_of result.now ≡ kinds (forest_in self.entry) }
    {
        self.nodes
    }

    /// The tokens of these parts, those of inner nodes too.
    pub fn own_tokens(self) -> Tokens<'a>
        ensures tokens { tokens_in result ≡ leaves (forest_in self.entry) }
        ensures bytes { result.bytes.now ≡ bytes_of self.entry }
    {
        between(self.tokens, self.at, self.end)
    }

    /// The tokens before the next node, or up to the end.
    pub fn leading(self) -> Tokens<'a>
        ensures tokens { IsLeading result self.entry }
        ensures bytes { result.bytes.now ≡ bytes_of self.entry }
    {
        match split(self.nodes) {
            None => between(self.tokens, self.at, self.end),
            Some((node, _)) => between(self.tokens, self.at, node.first),
        }
    }
}
