// What tokens of a file say: how many there are, what each is, and parts of them.
ghost use Rattle.std.specs.Prelude.{All, HoldsAt, IsTrue, ◌≡◌, ◌≤◌, ◌<◌, ◌↔◌, [], length, take, drop};
ghost use Rattle.php_terminals.specs.Ahead.{first_of, second_of, third_of};
ghost use Rattle.php_terminals.specs.Marked.{IsMark, token_at};
ghost use Rattle.php_terminals.specs.Tokens.{tokens_in};

use crate::mark::Mark;
use crate::marked::{lead_of, text_of};
use crate::terminal::Terminal;
use crate::tokens::Tokens;
use php_tree::TokenKind;

impl<'a> Tokens<'a> {
    /// The tokens at some places of these bytes.
    pub fn new(bytes: &'a [u8], marks: &'a [Mark]) -> Tokens<'a>
        requires { All (IsMark bytes.now) marks.now }
        ensures bytes { result.bytes.now ≡ bytes.now }
        ensures marks { result.marks.now ≡ marks.now }
    {
        Tokens { bytes, marks }
    }

    /// How many tokens there are.
    pub fn len(self) -> usize
        ensures { result ≡ length (tokens_in self.entry) }
    {
        self.marks.len()
    }

    /// Whether there are none.
    pub fn is_empty(self) -> bool
        ensures { IsTrue result ↔ (tokens_in self.entry ≡ []) }
    {
        self.marks.is_empty()
    }

    /// The tokens behind so many.
    pub fn behind(self, count: usize) -> Tokens<'a>
        ensures tokens { tokens_in result ≡ drop count (tokens_in self.entry) }
        ensures bytes { result.bytes.now ≡ self.entry.bytes.now }
        ensures marks { result.marks.now ≡ drop count self.entry.marks.now }
    {
        if count <= self.marks.len() {
            Tokens {
                bytes: self.bytes,
                marks: self.marks.split_at(count).1,
            }
        } else {
            Tokens {
                bytes: self.bytes,
                marks: &[],
            }
        }
    }

    /// The first tokens, as many as there are.
    pub fn front(self, count: usize) -> Tokens<'a>
        ensures tokens { tokens_in result ≡ take count (tokens_in self.entry) }
        ensures bytes { result.bytes.now ≡ self.entry.bytes.now }
        ensures marks { result.marks.now ≡ take count self.entry.marks.now }
    {
        if count < self.marks.len() {
            Tokens {
                bytes: self.bytes,
                marks: self.marks.split_at(count).0,
            }
        } else {
            self
        }
    }

    /// The class of the first token, and that of the end where there is none.
    pub fn first(self) -> Terminal
        ensures { result ≡ first_of (tokens_in self.entry) }
    {
        match self.marks {
            [] => Terminal::End,
            [mark, ..] => mark.class,
        }
    }

    /// The class of the token at a place, and that of the end where there is none.
    pub fn class(self, at: usize) -> Terminal
        ensures { result ≡ first_of (drop at (tokens_in self.entry)) }
    {
        self.behind(at).first()
    }

    /// The class of the second token.
    pub fn second(self) -> Terminal
        ensures { result ≡ second_of (tokens_in self.entry) }
    {
        self.class(1)
    }

    /// The class of the third token.
    pub fn third(self) -> Terminal
        ensures { result ≡ third_of (tokens_in self.entry) }
    {
        self.class(2)
    }

    /// The places of a token.
    pub fn mark(self, at: usize) -> Mark
        requires { at < length (tokens_in self) }
        ensures is_mark { IsMark self.entry.bytes.now result }
        ensures token { HoldsAt (λ t. t ≡ token_at self.entry.bytes.now result) (tokens_in self.entry) at }
    {
        self.marks[at]
    }

    /// The kind of a token.
    pub fn kind(self, at: usize) -> TokenKind
        requires { at < length (tokens_in self) }
        ensures { HoldsAt (λ t. result ≡ t.kind) (tokens_in self.entry) at }
    {
        self.mark(at).kind
    }

    /// The text of a token.
    pub fn text(self, at: usize) -> &'a [u8]
        requires { at < length (tokens_in self) }
        ensures { HoldsAt (λ t. result.now ≡ t.text) (tokens_in self.entry) at }
    {
        text_of(self.bytes, self.mark(at))
    }

    /// The trivia before a token.
    pub fn lead(self, at: usize) -> &'a [u8]
        requires { at < length (tokens_in self) }
        ensures { HoldsAt (λ t. result.now ≡ t.lead) (tokens_in self.entry) at }
    {
        lead_of(self.bytes, self.mark(at))
    }
}
