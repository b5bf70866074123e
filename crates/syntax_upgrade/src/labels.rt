// The label `enum` before a word.
//
// Before: enum and $a;
// After:  the same, reported
ghost use Rattle.std.specs.Prelude.{◌≡◌, ◌++◌, map, option_map, IfOk, IsTrue, None, OnOk};
ghost use Rattle.php_terminals.specs.Classify.{is_word_token as word_token};
ghost use Rattle.syntax_upgrade.specs.Calm as calm;
ghost use Rattle.syntax_upgrade.specs.Enums as spec;
ghost use Rattle.syntax_upgrade.specs.Found.{found_of};
ghost use Rattle.syntax_upgrade.specs.Labels.{is_word_behind as word_behind, label_next, may_be_enum as may_be, no_labels, place_if as placed_if, told as told_of};
ghost use Rattle.syntax_upgrade.specs.Spans.{ends_of};
ghost use Rattle.syntax_upgrade.specs.Words.{seen};

use crate::found::{Found, add};
use crate::past::past_bytes;
use crate::word::Word;
use php_terminals::terminal::Terminal;
use php_terminals::words::is_word;
use php_tree::TokenKind;
use rule_tables::{Cause, RuleId, Span};
use std::alloc::{AllocError, Global};
use std::marker::Model;

/// The class of the last token, its place where it is a label `enum` that may be a keyword, and what is reported.
#[derive(Drop)]
pub(crate) struct Labels {
    before: Terminal,
    held: Option<Span>,
    found: Vec<Found>,
}

impl Model for Labels {
    ghost use Rattle.std.specs.Prelude.{map, option_map};
    ghost use Rattle.syntax_upgrade.specs.Found.{found_of};
    ghost use Rattle.syntax_upgrade.specs.Spans.{ends_of};
    ghost use Rattle.syntax_upgrade.specs.Labels.{Labels as State};

    ghost Value = { State };

    ghost view = { λ l. record { before = l.before; held = option_map ends_of l.held; found = map found_of l.found.items } };
}

impl Labels {
    /// At the front of a file.
    pub(crate) fn new(alloc: Global) -> Labels
        ensures { result ≡ no_labels }
    {
        Labels {
            before: Terminal::End,
            held: None,
            found: Vec::new(alloc),
        }
    }

    /// Behind a token whose trivia begin at a place.
    pub(crate) fn step(&mut self, at: u32, token: Word) -> Result<(), AllocError>
        ensures { OnOk result (self.new ≡ label_next at (seen token.entry) self.old) }
    {
        tell(is_word_behind(token), self.held, &mut self.found)?;
        self.held = place_if(may_be_enum(self.before, token), at, token)?;
        self.before = token.class;
        Ok(())
    }

    /// Whether no label `enum` is held.
    pub(crate) fn is_free(&self) -> bool
        ensures { IsTrue result → self.now.held ≡ None }
    {
        match self.held {
            None => true,
            Some(_) => false,
        }
    }

    /// Behind tokens of which none is a label `enum`, where none is held: the last one is of a class.
    pub(crate) fn go_behind(&mut self, class: Terminal)
        ensures { self.new ≡ record { before = class; held = self.old.held; found = self.old.found } }
    {
        self.before = class;
    }

    /// What is reported.
    pub(crate) fn finish(self) -> Vec<Found>
        ensures { map found_of result.items ≡ self.found }
    {
        self.found
    }
}

fn is_heading(class: Terminal) -> bool
    ensures { result ≡ spec.is_heading class }
{
    matches!(class, Terminal::Extends | Terminal::Implements)
}

fn takes_label(class: Terminal) -> bool
    ensures { result ≡ spec.takes_label class }
{
    matches!(
        class,
        Terminal::Arrow | Terminal::DoubleColon | Terminal::Backslash
    )
}

// Whether each byte is white space.
fn are_white(bytes: &[u8]) -> bool
    ensures { result ≡ spec.are_white bytes.now }
{
    for byte in bytes {
        if !(*byte == b' ' || *byte == b'\t' || *byte == b'\n' || *byte == b'\r') {
            return false;
        }
    }
    true
}

// Whether there is white space, and nothing else.
fn is_white(lead: &[u8]) -> bool
    ensures { result ≡ spec.is_white lead.now }
{
    match lead {
        [] => false,
        [_, ..] => are_white(lead),
    }
}

fn is_label(kind: TokenKind) -> bool
    ensures { result ≡ spec.is_label kind }
{
    matches!(kind, TokenKind::Label)
}

// Whether a token is a label or a keyword.
fn is_word_token(token: Word) -> bool
    ensures { result ≡ word_token (seen token.entry) }
{
    matches!(token.kind, TokenKind::Label | TokenKind::Keyword)
}

// Whether a token is a word behind white space and no comment.
fn is_word_behind(token: Word) -> bool
    ensures { result ≡ word_behind (seen token.entry) }
{
    is_white(token.lead) && is_word_token(token) && !is_heading(token.class)
}

/// Whether a token of a kind with a text is a label `enum`.
pub(crate) fn is_enum(kind: TokenKind, text: &[u8]) -> bool
    ensures { result ≡ calm.is_enum kind text.now }
{
    is_label(kind) && is_word(b"enum", text)
}

// Whether a token is a label `enum` behind one of a class.
fn may_be_enum(before: Terminal, token: Word) -> bool
    ensures { result ≡ may_be before (seen token.entry) }
{
    is_label(token.kind) && is_word(b"enum", token.text) && !takes_label(before)
}

// Puts a place, if there is one, behind others where it is wanted.
fn tell(is_wanted: bool, held: Option<Span>, out: &mut Vec<Found>) -> Result<(), AllocError>
    ensures { OnOk result (map found_of out.new.items ≡ map found_of out.old.items ++ told_of is_wanted (option_map ends_of held)) }
{
    match held {
        None => Ok(()),
        Some(span) => {
            if !is_wanted {
                return Ok(());
            }
            add(
                span.start,
                span.end,
                RuleId::ReservedName,
                Cause::Always,
                out,
            )
        }
    }
}

// The place of a token whose trivia begin at a place, where it is wanted.
fn place_if(is_wanted: bool, at: u32, token: Word) -> Result<Option<Span>, AllocError>
    ensures { IfOk result (λ held. option_map ends_of held ≡ placed_if is_wanted at (seen token.entry)) }
{
    if !is_wanted {
        return Ok(None);
    }
    let start = past_bytes(at, token.lead)?;
    let end = past_bytes(start, token.text)?;
    Ok(Some(Span { start, end }))
}
