// Names lose the trivia inside them, and are set apart from a keyword in front.
//
// Before: return\ A \B;
// After:  return \A\B;
ghost use Rattle.std.specs.Prelude.{◌≡◌, ◌≤◌, ◌&&◌, ◌||◌, Bool, false, List, ℕ, suc, codes, Option, IfOk, drop, length};
ghost use Rattle.std.specs.Str.{bytes_eq};
ghost use Rattle.php_tree.specs.Tree.{Forest, leaf as leaf_then};
ghost use Rattle.php_terminals.specs.Tokens.{tokens_in};
ghost use Rattle.php_rows.specs.Flatten.{leafed};
ghost use Rattle.php_rows.specs.Reading.{forest_in, begins_with_token};
ghost use Rattle.syntax_rules.specs.Around.{Around};
ghost use Rattle.tracked_changes.specs.Tokens.{retexted};
ghost use Rattle.syntax_rules.specs.DollarBrace.{dollar_name};
ghost use Rattle.syntax_rules.specs.Together.{token_by};
ghost use Rattle.syntax_rules.specs.SplitName.{begins_root as root, is_backslash as backslash, is_keyword as keyword, keyword_behind as keyword_after, is_label as label, is_name as name, is_namespace as namespace, is_nothing as nothing, is_one as one, is_op as op, one_name};
ghost use Rattle.syntax_upgrade.specs.Heads.{alone_first, bare_of, may_go_on as goes_on, own_of, shown, shown_if_any};
ghost use Rattle.syntax_upgrade.specs.Written.{wants_space as wants};
ghost use Rattle.syntax_upgrade.specs.NamesWalked.{Head, are_one as one_by, begins as head, head_of, walked};
ghost use Rattle.syntax_upgrade.specs.Words.{seen};

use crate::steps::{first as first_of, inner as inside_name};
use crate::word::Word;
use crate::words::word_of;
use crate::writer::Writer;
use php_rows::Parts;
use php_terminals::tokens::Tokens;
use php_tree::TokenKind;
use std::alloc::AllocError;
use syntax_rules::Rules;

/// What parts begin with, a token or a whole name: its kind, how many tokens it has behind its first one, and of its text
/// and of its trivia whether it begins with `\` and whether it is empty.
#[derive(Clone, Copy)]
pub(crate) struct Ahead {
    pub(crate) kind: TokenKind,
    pub(crate) more: usize,
    pub(crate) rooted: bool,
    pub(crate) empty: bool,
    lead_rooted: bool,
    lead_empty: bool,
}

impl Ahead {
    /// Whether a space is wanted before it, where names are set apart, behind a keyword or not.
    pub(crate) fn wants_space(self, apart: bool, behind: bool) -> bool
        ensures { (h : Head) → self ≡ shown h → result ≡ wants apart behind h.token }
    {
        apart && behind && is_name(self.kind) && self.rooted && self.lead_empty
    }

    /// Whether a keyword stands directly behind it, where one stood before it or not.
    pub(crate) fn keyword_behind(self, behind: bool) -> bool
        ensures { (h : Head) → self ≡ shown h → result ≡ keyword_after behind h.token }
    {
        if self.empty {
            behind && self.lead_empty
        } else {
            is_keyword(self.kind)
        }
    }
}

fn begins_root(text: &[u8]) -> bool
    ensures { result ≡ root text.now }
{
    match text {
        [] => false,
        [first, ..] => *first == b'\\',
    }
}

/// Whether there are no bytes.
pub(crate) fn is_nothing(text: &[u8]) -> bool
    ensures { result ≡ nothing text.now }
{
    match text {
        [] => true,
        [_, ..] => false,
    }
}

fn is_brace(text: &[u8]) -> bool
    ensures { result ≡ (bytes_eq text.now (codes "{") || bytes_eq text.now (codes "}")) }
{
    text == b"{".as_slice() || text == b"}".as_slice()
}

// The kind that a token becomes, in an offset in braces or elsewhere.
fn kind_in(braces: bool, token: Word) -> TokenKind
    ensures { result ≡ (bare_of braces (seen token.entry)).kind }
{
    if braces && is_brace(token.text) {
        TokenKind::Op
    } else {
        token.kind
    }
}

/// A token alone.
pub(crate) fn alone(braces: bool, token: Word) -> Ahead
    ensures { (r : Rules) → result ≡ shown (record { more = 0; token = own_of r braces (seen token.entry) }) }
{
    let lead = token.lead;
    let text = token.text;
    Ahead {
        kind: kind_in(braces, token),
        more: 0,
        rooted: begins_root(text),
        empty: is_nothing(text),
        lead_rooted: begins_root(lead),
        lead_empty: is_nothing(lead),
    }
}

fn is_op(kind: TokenKind) -> bool
    ensures { result ≡ op kind }
{
    matches!(kind, TokenKind::Op)
}

fn is_label(kind: TokenKind) -> bool
    ensures { result ≡ label kind }
{
    matches!(kind, TokenKind::Label)
}

fn is_name(kind: TokenKind) -> bool
    ensures { result ≡ name kind }
{
    matches!(kind, TokenKind::Name)
}

pub(crate) fn is_keyword(kind: TokenKind) -> bool
    ensures { result ≡ keyword kind }
{
    matches!(kind, TokenKind::Keyword)
}

// Whether a token is the operator `\`.
fn is_backslash(braces: bool, token: Word) -> bool
    ensures { result ≡ backslash (bare_of braces (seen token.entry)) }
{
    is_op(kind_in(braces, token)) && token.text == b"\\".as_slice()
}

// Whether a token is a label, or the keyword `namespace`.
fn begins_name(braces: bool, token: Word) -> bool
    ensures { result ≡ (label (bare_of braces (seen token.entry)).kind || namespace (bare_of braces (seen token.entry))) }
{
    let kind = kind_in(braces, token);
    is_label(kind) || (is_keyword(kind) && token.text.eq_ignore_ascii_case(b"namespace"))
}

// Whether a token and what is ahead are one name, where trivia inside a name are deleted or not.
fn are_one(delete: bool, braces: bool, token: Word, ahead: Ahead) -> bool
    ensures { (h : Head) → ahead ≡ shown h → result ≡ one_by delete (bare_of braces (seen token.entry)) h.token }
{
    is_one(braces, token, ahead) && (delete || ahead.lead_empty)
}

// Whether a token and what is ahead may be one name.
fn is_one(braces: bool, token: Word, ahead: Ahead) -> bool
    ensures { (h : Head) → ahead ≡ shown h → result ≡ one (bare_of braces (seen token.entry)) h.token }
{
    (is_backslash(braces, token)
        && (is_label(ahead.kind) || (is_name(ahead.kind) && !ahead.rooted)))
        || (begins_name(braces, token) && is_name(ahead.kind) && ahead.rooted)
}

// A token in front of what is ahead. The only error is want of memory.
fn in_front(
    delete: bool,
    braces: bool,
    token: Word,
    ahead: Option<Ahead>,
) -> Result<Ahead, AllocError>
    ensures { (r : Rules) (o : Option Head) → ahead ≡ shown_if_any o → IfOk result (λ a. a ≡ shown (head_of delete (own_of r braces (seen token.entry)) o)) }
{
    match ahead {
        Some(ahead) => {
            if are_one(delete, braces, token, ahead) {
                joined(token, ahead)
            } else {
                Ok(alone(braces, token))
            }
        }
        None => Ok(alone(braces, token)),
    }
}

fn one_more(more: usize) -> Result<usize, AllocError>
    ensures { IfOk result (λ n. n ≡ suc more) }
{
    more.checked_add(1).ok_or(AllocError)
}

// Whether a name begins with `\`, by its first token and what is ahead.
fn is_rooted(rooted: bool, empty: bool, ahead: Ahead) -> bool
    ensures { result ≡ (rooted || (empty && (ahead.lead_rooted || (ahead.lead_empty && ahead.rooted)))) }
{
    rooted || (empty && (ahead.lead_rooted || (ahead.lead_empty && ahead.rooted)))
}

// Whether a name has no text, by its first token and what is ahead.
fn is_empty(empty: bool, ahead: Ahead) -> bool
    ensures { result ≡ (empty && (ahead.lead_empty && ahead.empty)) }
{
    empty && (ahead.lead_empty && ahead.empty)
}

// A token that is one with what is ahead.
fn joined(token: Word, ahead: Ahead) -> Result<Ahead, AllocError>
    ensures { (r : Rules) (h : Head) (braces : Bool) → ahead ≡ shown h →
        IfOk result (λ a. a ≡ shown (record { more = suc h.more; token = one_name (own_of r braces (seen token.entry)) h.token })) }
{
    let lead = token.lead;
    let text = token.text;
    let empty = is_nothing(text);
    let more = one_more(ahead.more)?;
    Ok(Ahead {
        kind: TokenKind::Name,
        more,
        rooted: is_rooted(begins_root(text), empty, ahead),
        empty: is_empty(empty, ahead),
        lead_rooted: begins_root(lead),
        lead_empty: is_nothing(lead),
    })
}

// Whether a token may be one with what is behind it.
fn may_go_on(braces: bool, token: Word) -> bool
    ensures { result ≡ goes_on (bare_of braces (seen token.entry)) }
{
    is_backslash(braces, token) || begins_name(braces, token)
}

// How many of some tokens from the first on may be one with what is behind them.
fn run(braces: bool, tokens: Tokens) -> usize
    ensures within { result ≤ length (tokens_in tokens.entry) }
    ensures ended { (r : Rules) (delete : Bool) (f : Forest) → begins_with_token f ≡ false →
        head delete (own_of r braces) (leafed (drop result (tokens_in tokens.entry)) f)
        ≡ alone_first (own_of r braces) (leafed (drop result (tokens_in tokens.entry)) f) }
{
    let mut count = 0;
    while count < tokens.marks.len() {
        if !may_go_on(braces, word_of(tokens, count)) {
            return count;
        }
        count += 1;
    }
    count
}

// The token that these begin with behind so many, alone, if any.
fn first(braces: bool, tokens: Tokens, at: usize) -> Option<Ahead>
    ensures { (r : Rules) (f : Forest) → begins_with_token f ≡ false →
        result ≡ shown_if_any (alone_first (own_of r braces) (leafed (drop at (tokens_in tokens.entry)) f)) }
{
    if at < tokens.marks.len() {
        Some(alone(braces, word_of(tokens, at)))
    } else {
        None
    }
}

/// What these parts begin with: a token, or a whole name. None where they begin with a node, or are none. The only error is
/// want of memory.
pub(crate) fn begins(delete: bool, braces: bool, parts: Parts) -> Result<Option<Ahead>, AllocError>
    ensures { (r : Rules) → IfOk result (λ a. a ≡ shown_if_any (head delete (own_of r braces) (forest_in parts.entry))) }
{
    let tokens = parts.leading();
    let mut left = run(braces, tokens);
    let mut ahead = first(braces, tokens, left);
    while left > 0 {
        left -= 1;
        ahead = Some(in_front(delete, braces, word_of(tokens, left), ahead)?);
    }
    Ok(ahead)
}

/// The first of some parts, a token: alone, or the name that begins with it.
pub(crate) fn head_of_parts(
    delete: bool,
    braces: bool,
    token: Word,
    parts: Parts,
) -> Result<Ahead, AllocError>
    ensures { (r : Rules) (f : Forest) → forest_in parts.entry ≡ leaf_then (seen token.entry) f →
        IfOk result (λ a. a ≡ shown (head_of delete (own_of r braces (seen token.entry)) (head delete (own_of r braces) f))) }
{
    if !may_go_on(braces, token) {
        return Ok(alone(braces, token));
    }
    match begins(delete, braces, parts)? {
        Some(ahead) => Ok(ahead),
        None => Ok(alone(braces, token)),
    }
}

/// The first token of these parts, where the next so many are inside a name, and then how many are.
pub(crate) fn named(
    writer: &mut Writer,
    rules: Rules,
    braces: bool,
    token: Word,
    parts: Parts,
    inner: usize,
) -> Result<usize, AllocError>
    ensures { (around : Bool → Option Around) (i : Bool) (f : Forest) → forest_in parts.entry ≡ leaf_then (seen token.entry) f →
        IfOk result (λ n. walked rules (own_of rules braces) around false n f writer.new
        ≡ walked rules (own_of rules braces) around i inner (leaf_then (seen token.entry) f) writer.old) }
{
    if inner > 0 {
        inside_name(writer, braces, token)?;
        return Ok(inner - 1);
    }
    let ahead = head_of_parts(rules.split_names, braces, token, parts)?;
    first_of(writer, rules, braces, token, ahead)?;
    Ok(ahead.more)
}

/// A token alone that becomes one of another kind.
pub(crate) fn as_kind(kind: TokenKind, token: Word) -> Ahead
    ensures { (r : Rules) (text : List ℕ) → result ≡ shown (record { more = 0; token = retexted kind text (token_by r (seen token.entry)) }) }
{
    let own = alone(false, token);
    Ahead { kind, ..own }
}

/// The name behind `${`, which becomes a variable.
pub(crate) fn as_dollar_name(token: Word) -> Ahead
    ensures { (r : Rules) → result ≡ shown (record { more = 0; token = dollar_name (token_by r (seen token.entry)) }) }
{
    let lead = token.lead;
    let text = token.text;
    let bare = is_nothing(lead);
    Ahead {
        kind: TokenKind::Variable,
        more: 0,
        rooted: begins_root(lead) || (bare && begins_root(text)),
        empty: bare && is_nothing(text),
        lead_rooted: false,
        lead_empty: true,
    }
}
