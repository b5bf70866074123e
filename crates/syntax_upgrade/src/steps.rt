// Tokens, each written by what it becomes.
ghost use Rattle.std.specs.Prelude.{◌≡◌, ◌<◌, ◌-◌, Bool, OnOk, false, true, take, drop, length};
ghost use Rattle.php_tree.specs.declared.token.TokenKind.TheVariants.{Op};
ghost use Rattle.tracked_changes.specs.Tokens.{put_also, retexted};
ghost use Rattle.syntax_rules.specs.DollarBrace.{ends_bare, escaped};
ghost use Rattle.syntax_rules.specs.Together.{token_by};
ghost use Rattle.syntax_upgrade.specs.Heads.{own_of, shown};
ghost use Rattle.syntax_upgrade.specs.NamesWalked.{Head, first_next, inner_next};
ghost use Rattle.syntax_upgrade.specs.Words.{seen};
ghost use Rattle.syntax_upgrade.specs.Written.{token_next};

use crate::brace_offset::own_text;
use crate::split_name::{Ahead, alone, as_kind};
use crate::word::Word;
use crate::writer::Writer;
use php_tree::TokenKind;
use std::alloc::AllocError;
use syntax_rules::Rules;

/// The first token of what parts begin with.
pub(crate) fn first(
    writer: &mut Writer,
    rules: Rules,
    braces: bool,
    token: Word,
    ahead: Ahead,
) -> Result<(), AllocError>
    ensures { (h : Head) → ahead ≡ shown h →
        OnOk result (writer.new ≡ first_next rules.split_names h (own_of rules braces (seen token.entry)) writer.old) }
{
    writer.begin(rules, token.lead, ahead)?;
    own_text(writer, braces, token)
}

/// A token inside a name.
pub(crate) fn inner(writer: &mut Writer, braces: bool, token: Word) -> Result<(), AllocError>
    ensures { (r : Rules) → OnOk result (writer.new ≡ inner_next (own_of r braces (seen token.entry)) writer.old) }
{
    writer.deleted(token.lead)?;
    own_text(writer, braces, token)
}

/// A text in the place of that of a token, which is then of this kind.
pub(crate) fn replaced(
    writer: &mut Writer,
    rules: Rules,
    kind: TokenKind,
    token: Word,
    text: &[u8],
) -> Result<(), AllocError>
    ensures { OnOk result (writer.new ≡ token_next rules.split_names (retexted kind text.now (token_by rules (seen token.entry))) writer.old) }
{
    writer.begin(rules, token.lead, as_kind(kind, token))?;
    writer.changed(text)
}

/// An operator that the edit just before puts in.
pub(crate) fn put(writer: &mut Writer, text: &[u8]) -> Result<(), AllocError>
    requires { writer.old.parens ≡ 0 }
    ensures { (apart : Bool) → OnOk result (writer.new ≡ token_next apart (put_also Op text.now) writer.old) }
{
    writer.also(text)
}

/// A token as it is, but for the comments before it.
pub(crate) fn plain(writer: &mut Writer, rules: Rules, token: Word) -> Result<(), AllocError>
    ensures { OnOk result (writer.new ≡ token_next rules.split_names (token_by rules (seen token.entry)) writer.old) }
{
    first(writer, rules, false, token, alone(false, token))
}

// A text without its last byte, and that byte.
fn split_last(text: &[u8]) -> (&[u8], &[u8])
    requires { 0 < length text.now }
    ensures front { result.0.now ≡ take (length text.now - 1) text.now }
    ensures last { result.1.now ≡ drop (length text.now - 1) text.now }
{
    text.split_at(text.len() - 1)
}

/// A text that ends in a bare `$`, with a backslash before it.
pub(crate) fn put_backslash(
    writer: &mut Writer,
    rules: Rules,
    token: Word,
) -> Result<(), AllocError>
    requires { ends_bare false token.text.now ≡ true }
    ensures { OnOk result (writer.new ≡ token_next rules.split_names (escaped (token_by rules (seen token.entry))) writer.old) }
{
    writer.begin(rules, token.lead, alone(false, token))?;
    let (front, last) = split_last(token.text);
    writer.kept(front)?;
    writer.changed(b"\\")?;
    writer.kept(last)
}
