// Variables in quoted texts have their braces outside.
//
// Before: "${a}"
// After:  "{$a}"
ghost use Rattle.std.specs.Prelude.{◌≡◌, ◌==◌, not, ◌&&◌, Bool, false, if◌then◌else◌, Option, IfOk, OnOk};
ghost use Rattle.php_tree.specs.Tree.{leaf};
ghost use Rattle.php_rows.specs.Reading.{forest_in};
ghost use Rattle.syntax_rules.specs.Around.{Around};
ghost use Rattle.syntax_rules.specs.DollarBrace.{dollar_name, ends_bare as is_bare, escaped, is_dollar_brace as dollar_brace, is_piece as piece};
ghost use Rattle.syntax_rules.specs.Together.{token_by};
ghost use Rattle.syntax_upgrade.specs.Roles.{role_of};
ghost use Rattle.syntax_upgrade.specs.Texts.{begins_dollar as dollar_first, dollar_next, other, role_behind as role_in_front, text_walked};
ghost use Rattle.syntax_upgrade.specs.Words.{seen};
ghost use Rattle.syntax_upgrade.specs.Written.{token_next};

use crate::next::{Part, next};
use crate::split_name::as_dollar_name;
use crate::steps::{plain, put, put_backslash, replaced};
use crate::word::Word;
use crate::writer::Writer;
use php_rows::Parts;
use php_tree::TokenKind;
use std::alloc::AllocError;
use syntax_rules::Rules;

/// What a token of a quoted text is: the name behind `${`, the `}` behind `${` and an expression, or another one.
#[derive(Clone, Copy)]
pub(crate) enum Role {
    Other,
    Named,
    Closing,
}

/// Whether a token is `${`.
pub(crate) fn is_dollar_brace(kind: TokenKind) -> bool
    ensures { result ≡ dollar_brace kind }
{
    matches!(kind, TokenKind::DollarBrace)
}

fn is_piece(kind: TokenKind) -> bool
    ensures { result ≡ piece kind }
{
    matches!(kind, TokenKind::Piece)
}

// Whether `${` stands first.
fn begins_dollar(parts: Parts) -> bool
    ensures { result ≡ dollar_first (forest_in parts.entry) }
{
    let mut left = parts;
    match next(&mut left) {
        None => false,
        Some(Part::Leaf(token)) => is_dollar_brace(token.kind),
        Some(Part::Node(_, _)) => false,
    }
}

// What follows `${`, in front of these parts.
fn role_behind(parts: Parts) -> Role
    ensures { role_of result ≡ role_in_front (forest_in parts.entry) }
{
    let mut left = parts;
    match next(&mut left) {
        None => Role::Other,
        Some(Part::Leaf(_)) => Role::Named,
        Some(Part::Node(_, _)) => Role::Closing,
    }
}

// Whether a byte is this one, and no backslash takes it along.
fn stands_bare(is_escaped: bool, byte: u8, this: u8) -> bool
    ensures { result ≡ (not is_escaped && (byte == this)) }
{
    !is_escaped && byte == this
}

// Whether a text ends in a `$` that no backslash takes along.
fn ends_bare(text: &[u8]) -> bool
    ensures { result ≡ is_bare false text.now }
{
    let mut is_escaped = false;
    let mut is_bare = false;
    for byte in text {
        is_bare = stands_bare(is_escaped, *byte, b'$');
        is_escaped = stands_bare(is_escaped, *byte, b'\\');
    }
    is_bare
}

// `${` by what follows it.
fn dollar(writer: &mut Writer, rules: Rules, token: Word, role: Role) -> Result<(), AllocError>
    ensures { OnOk result (writer.new ≡ dollar_next rules.split_names (role_of role) (token_by rules (seen token.entry)) writer.old) }
{
    match role {
        Role::Other => plain(writer, rules, token),
        Role::Named => replaced(writer, rules, TokenKind::CurlyOpen, token, b"{"),
        Role::Closing => {
            replaced(writer, rules, TokenKind::CurlyOpen, token, b"{")?;
            put(writer, b"$")?;
            put(writer, b"{")
        }
    }
}

// The name behind `${`.
fn name(writer: &mut Writer, rules: Rules, token: Word) -> Result<(), AllocError>
    ensures { OnOk result (writer.new ≡ token_next rules.split_names (dollar_name (token_by rules (seen token.entry))) writer.old) }
{
    writer.begin(rules, &[], as_dollar_name(token))?;
    writer.also(b"$")?;
    writer.trivia(rules, token.lead)?;
    writer.kept(token.text)
}

// A token of the text itself.
fn text(writer: &mut Writer, rules: Rules, token: Word, behind: Parts) -> Result<(), AllocError>
    ensures { OnOk result (writer.new ≡ token_next rules.split_names
        (if piece token.entry.kind && dollar_first (forest_in behind.entry) then escaped (token_by rules (seen token.entry)) else token_by rules (seen token.entry))
        writer.old) }
{
    if is_piece(token.kind) && begins_dollar(behind) && ends_bare(token.text) {
        return put_backslash(writer, rules, token);
    }
    plain(writer, rules, token)
}

/// The next token of a quoted text, in front of these parts, and what the one behind it is.
pub(crate) fn text_part(
    writer: &mut Writer,
    rules: Rules,
    token: Word,
    behind: Parts,
    role: Role,
) -> Result<Role, AllocError>
    ensures { (around : Bool → Option Around) (i : Bool) →
        IfOk result (λ r. text_walked rules around false (role_of r) (forest_in behind.entry) writer.new ≡ text_walked rules around i (role_of role) (leaf (seen token.entry) (forest_in behind.entry)) writer.old) }
{
    match role {
        Role::Named => name(writer, rules, token)?,
        Role::Closing => {
            replaced(writer, rules, TokenKind::Op, token, b"}")?;
            put(writer, b"}")?;
        }
        Role::Other => return opened(writer, rules, token, behind),
    }
    Ok(Role::Other)
}

// The next token of a quoted text, where none stands open.
fn opened(writer: &mut Writer, rules: Rules, token: Word, behind: Parts) -> Result<Role, AllocError>
    ensures { (around : Bool → Option Around) (i : Bool) →
        IfOk result (λ r. text_walked rules around false (role_of r) (forest_in behind.entry) writer.new ≡ text_walked rules around i other (leaf (seen token.entry) (forest_in behind.entry)) writer.old) }
{
    if is_dollar_brace(token.kind) {
        let role = role_behind(behind);
        dollar(writer, rules, token, role)?;
        return Ok(role);
    }
    text(writer, rules, token, behind)?;
    Ok(Role::Other)
}
