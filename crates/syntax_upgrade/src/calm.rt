// Nodes that no rule touches: their bytes stay as they are, and nothing of them is reported.
ghost use Rattle.std.specs.Prelude.{◌≡◌, ◌&&◌, ◌≤◌, ◌<◌, All, IfSome, Some, length, map, slice_range};
ghost use Rattle.std.specs.List.{list_all};
ghost use Rattle.php_terminals.specs.Marked.{IsMark, token_at};
ghost use Rattle.php_tree.specs.Tree.{leaves, tokens_bytes};
ghost use Rattle.php_terminals.specs.Tokens.{tokens_in};
ghost use Rattle.php_rows.specs.Reading.{bytes_of, forest_in};
ghost use Rattle.syntax_upgrade.specs.Calm as spec;
ghost use Rattle.syntax_upgrade.specs.CalmRuns.{AreRun, Stays, behind_mark, runs};

use crate::hash_comment::has_hash;
use crate::labels::is_enum;
use crate::node_rules::{is_reported_kind, is_reported_token};
use crate::reserved_name::is_doubtful;
use crate::split_name::is_keyword;
use crate::words::word_at;
use php_rows::{Flat, Parts};
use php_terminals::mark::Mark;
use php_terminals::marked::{lead_of, text_of};
use php_terminals::terminal::Terminal;
use php_terminals::tokens::Tokens;
use php_tree::{NodeKind, TokenKind};

/// Where a token begins and which number a node has that a rule may touch, the last ones that were found: what they stand in
/// is not looked through again.
#[derive(Clone, Copy)]
pub(crate) struct Loud {
    token: u32,
    node: u32,
}

impl Loud {
    /// Nothing yet.
    pub(crate) fn none() -> Loud {
        Loud {
            token: u32::MAX,
            node: u32::MAX,
        }
    }

    // Whether the token stands among some.
    fn has_token(self, tokens: Tokens) -> bool {
        match tokens.marks {
            [] => false,
            [first, ..] => {
                let last = tokens.marks[tokens.marks.len() - 1];
                first.lead <= self.token && self.token < last.end
            }
        }
    }

    // Whether the node stands among some, of which the first one has a number.
    fn has_node(self, number: u32, nodes: &[Flat]) -> bool {
        number <= self.node && ((self.node - number) as usize) < nodes.len()
    }
}

/// Where some tokens end, one directly behind another, the class of the last one, whether it is a keyword, and whether one may
/// be a `.`, or an operator that takes a `.` apart.
#[derive(Clone, Copy)]
pub(crate) struct Last {
    pub(crate) end: u32,
    pub(crate) class: Terminal,
    pub(crate) is_keyword: bool,
    takes: bool,
    joins: bool,
}

/// The tokens of a node: where the trivia of the first one begin, and what is known of the last one.
#[derive(Clone, Copy)]
pub(crate) struct Calm {
    pub(crate) start: u32,
    pub(crate) last: Last,
}

fn is_edited_kind(kind: NodeKind) -> bool
    ensures { result ≡ spec.is_edited_kind kind }
{
    matches!(
        kind,
        NodeKind::Ternary | NodeKind::ShortTernary | NodeKind::BraceOffset | NodeKind::Cast
    )
}

fn is_calm_kind(kind: NodeKind) -> bool
    ensures { result ≡ spec.is_calm_kind kind }
{
    !is_edited_kind(kind) && !is_reported_kind(kind)
}

fn are_calm_kinds(nodes: &[Flat]) -> bool
    ensures { result ≡ list_all (λ x. spec.is_calm_kind x.kind) nodes.now }
{
    nodes.iter().all(|node| is_calm_kind(node.kind))
}

fn is_calm_token(kind: TokenKind) -> bool
    ensures { result ≡ spec.is_calm_token kind }
{
    match kind {
        TokenKind::Name | TokenKind::DollarBrace => false,
        _ => true,
    }
}

fn is_calm_text(text: &[u8]) -> bool
    ensures { result ≡ spec.is_calm_text text.now }
{
    match text {
        [] => false,
        [byte] => !(*byte == b'\\'),
        [_, _, ..] => true,
    }
}

fn may_join(text: &[u8]) -> bool
    ensures { result ≡ spec.may_join text.now }
{
    match text {
        [] => false,
        [byte] => *byte == b'.',
        [_, _, ..] => false,
    }
}

fn may_take(text: &[u8]) -> bool
    ensures { result ≡ spec.may_take text.now }
{
    match text {
        [] => false,
        [byte] => *byte == b'+' || *byte == b'-',
        [first, second] => (*first == b'<' && *second == b'<')
            || (*first == b'>' && *second == b'>'),
        [_, _, _, ..] => false,
    }
}

// Whether no rule touches a token.
fn is_calm(bytes: &[u8], mark: Mark) -> bool
    requires { IsMark bytes.now mark }
    ensures { result ≡ spec.is_calm (token_at bytes.now mark) }
{
    let text = text_of(bytes, mark);
    is_calm_token(mark.kind)
        && (!is_doubtful(mark.class)
            && (is_calm_text(text)
                && (!has_hash(lead_of(bytes, mark))
                    && (!is_enum(mark.kind, text) && !is_reported_token(word_at(bytes, mark))))))
}

// Behind a token that stands behind another one.
fn behind(bytes: &[u8], last: Last, mark: Mark) -> Last
    requires { IsMark bytes.now mark }
    ensures { result ≡ behind_mark bytes.now last mark }
{
    let text = text_of(bytes, mark);
    Last {
        end: mark.end,
        class: mark.class,
        is_keyword: is_keyword(mark.kind),
        takes: last.takes || may_take(text),
        joins: last.joins || may_join(text),
    }
}

// Behind all of some tokens, if no rule touches one, and each stands directly behind the one before it.
fn run(bytes: &[u8], from: Last, marks: &[Mark], loud: &mut Loud) -> Option<Last>
    requires { All (IsMark bytes.now) marks.now }
    ensures { IfSome result (λ to. Some to ≡ runs bytes.now from marks.now) }
{
    let mut last = from;
    for mark in marks {
        if !(mark.lead == last.end && is_calm(bytes, *mark)) {
            loud.token = mark.start;
            return None;
        }
        last = behind(bytes, last, *mark);
        if is_mixed(last) {
            loud.token = mark.start;
            return None;
        }
    }
    Some(last)
}

// Whether one of some tokens may be a `.`, and one an operator that takes it apart.
fn is_mixed(last: Last) -> bool
    ensures { result ≡ (last.takes && last.joins) }
{
    last.takes && last.joins
}

// Some tokens that no rule touches, from the first one's trivia on.
fn calm_from(bytes: &[u8], first: Mark, marks: &[Mark], loud: &mut Loud) -> Option<Calm>
    requires marked { All (IsMark bytes.now) marks.now }
    requires first { IsMark bytes.now first }
    requires some { 0 < length marks.now }
    ensures { IfSome result (λ c. AreRun bytes.now (map (token_at bytes.now) marks.now) c) }
{
    let from = Last {
        end: first.lead,
        class: first.class,
        is_keyword: false,
        takes: false,
        joins: false,
    };
    match run(bytes, from, marks, loud) {
        None => None,
        Some(last) => {
            if is_mixed(last) {
                return None;
            }
            Some(Calm {
                start: first.lead,
                last,
            })
        }
    }
}

// Some tokens that no rule touches, if there are any.
fn calm_tokens(tokens: Tokens, loud: &mut Loud) -> Option<Calm>
    ensures { IfSome result (λ c. AreRun tokens.entry.bytes.now (tokens_in tokens.entry) c) }
{
    if tokens.marks.is_empty() {
        return None;
    }
    calm_from(tokens.bytes, tokens.marks[0], tokens.marks, loud)
}

// The number so many behind another one.
fn number_behind(number: u32, count: usize) -> u32 {
    match u32::try_from(count) {
        Ok(more) => number.saturating_add(more),
        Err(_) => u32::MAX,
    }
}

// How many of some nodes no rule touches, from the first one on.
fn calm_nodes(nodes: &[Flat]) -> usize {
    nodes
        .iter()
        .take_while(|node| is_calm_kind(node.kind))
        .count()
}

/// The tokens of a node of a kind that no rule touches, if it is one. What a rule may touch is kept, and where it stands in
/// the node, nothing is looked through.
pub(crate) fn calm_in(kind: NodeKind, parts: Parts, loud: &mut Loud) -> Option<Calm>
    ensures { IfSome result (λ c. Stays (bytes_of parts.entry) (kind, forest_in parts.entry) c) }
{
    let tokens = parts.own_tokens();
    let nodes = parts.nodes();
    let number = parts.number();
    if loud.has_token(tokens) || loud.has_node(number, nodes) {
        return None;
    }
    if !is_calm_kind(kind) {
        return None;
    }
    if !are_calm_kinds(nodes) {
        loud.node = number_behind(number, calm_nodes(nodes));
        return None;
    }
    match calm_tokens(tokens, loud) {
        None => None,
        Some(calm) => Some(calm),
    }
}

fn between(bytes: &[u8], start: u32, end: u32) -> &[u8]
    requires order { start ≤ end }
    requires within { end ≤ length bytes.now }
    ensures { result.now ≡ slice_range bytes.now start end }
{
    &bytes[start as usize..end as usize]
}

/// The bytes of a node that no rule touches.
pub(crate) fn text_in<'a>(kind: NodeKind, parts: Parts<'a>, calm: Calm) -> &'a [u8]
    requires { Stays (bytes_of parts) (kind, forest_in parts) calm }
    ensures { result.now ≡ tokens_bytes (leaves (forest_in parts.entry)) }
{
    let _kind = kind;
    let bytes = parts.bytes();
    between(bytes, calm.start, calm.last.end)
}
