// Parts of a node while they are read, from the last one on.
ghost use Rattle.std.specs.Prelude.{◌≡◌, ◌++◌, ◌∷◌, [], reverse, IfOk, OnOk};
ghost use Rattle.scope_names.specs.Form.{first_is, is_backslash, is_name_part as is_part, is_namespace as is_space, joins as one_name, part_before, part_of as part_of_token};
ghost use Rattle.node_names.specs.Drafts.{part_of, stacked, name_with};

use php_tree::{Token, TokenKind};
use std::alloc::{AllocError, Global};

/// A word with its text from the last byte on, and whether it is a part of a name; or a child node.
#[derive(Drop)]
pub enum Draft {
    Word(bool, TokenKind, Vec<u8>),
    Child,
}

fn is_name_part(kind: TokenKind, text: &[u8]) -> bool
    ensures { result ≡ is_part kind text.now }
{
    match kind {
        TokenKind::Label | TokenKind::Name => true,
        TokenKind::Op => text == b"\\".as_slice(),
        TokenKind::InlineHtml
        | TokenKind::OpenEcho
        | TokenKind::Variable
        | TokenKind::Keyword
        | TokenKind::Int
        | TokenKind::Float
        | TokenKind::Text
        | TokenKind::Quote
        | TokenKind::HeredocStart
        | TokenKind::Backtick
        | TokenKind::Cast
        | TokenKind::AttributeOpen
        | TokenKind::Semi
        | TokenKind::Close
        | TokenKind::End
        | TokenKind::Piece
        | TokenKind::CurlyOpen
        | TokenKind::DollarBrace
        | TokenKind::VarName
        | TokenKind::QuotedEnd => false,
    }
}

fn is_namespace(kind: TokenKind, text: &[u8]) -> bool
    ensures { result ≡ is_space kind text.now }
{
    match kind {
        TokenKind::Keyword => text.eq_ignore_ascii_case(b"namespace"),
        TokenKind::InlineHtml
        | TokenKind::OpenEcho
        | TokenKind::Variable
        | TokenKind::Label
        | TokenKind::Name
        | TokenKind::Int
        | TokenKind::Float
        | TokenKind::Text
        | TokenKind::Quote
        | TokenKind::HeredocStart
        | TokenKind::Backtick
        | TokenKind::Cast
        | TokenKind::Op
        | TokenKind::AttributeOpen
        | TokenKind::Semi
        | TokenKind::Close
        | TokenKind::End
        | TokenKind::Piece
        | TokenKind::CurlyOpen
        | TokenKind::DollarBrace
        | TokenKind::VarName
        | TokenKind::QuotedEnd => false,
    }
}

// Whether a text that is written from the last byte on begins with a backslash.
fn begins_at_root(text: &[u8]) -> bool
    ensures { result ≡ first_is is_backslash (reverse text.now) }
{
    match text {
        [] => false,
        [.., first] => *first == b'\\',
    }
}

// Whether a token and the name behind it are one name.
fn joins(token: &Token, text: &[u8]) -> bool
    ensures { result ≡ one_name token.now (reverse text.now) }
{
    is_name_part(token.kind, token.text.as_slice())
        || (is_namespace(token.kind, token.text.as_slice()) && begins_at_root(text))
}

// Writes bytes in front of a text that is written from the last byte on.
fn put_before(text: &mut Vec<u8>, bytes: &[u8]) -> Result<(), AllocError>
    ensures { OnOk result (reverse text.new.items ≡ bytes.now ++ reverse text.old.items) }
{
    let mut left = bytes;
    while let [front @ .., last] = left {
        text.push(*last)?;
        left = front;
    }
    Ok(())
}

fn alone(alloc: Global, token: &Token) -> Result<Draft, AllocError>
    ensures { IfOk result (λ d. part_of d ≡ part_of_token token.now) }
{
    let mut text = Vec::new(alloc);
    put_before(&mut text, token.text.as_slice())?;
    let is_name = is_name_part(token.kind, token.text.as_slice());
    Ok(Draft::Word(is_name, token.kind, text))
}

fn add(drafts: &mut Vec<Draft>, draft: Draft) -> Result<(), AllocError>
    ensures { OnOk result (drafts.new.items ≡ drafts.old.items ++ draft ∷ []) }
{
    drafts.push(draft)?;
    Ok(())
}

fn add_both(drafts: &mut Vec<Draft>, first: Draft, second: Draft) -> Result<(), AllocError>
    ensures { OnOk result (drafts.new.items ≡ drafts.old.items ++ first ∷ second ∷ []) }
{
    add(drafts, first)?;
    add(drafts, second)?;
    Ok(())
}

// A token before the name that stands first, where that was taken off.
fn add_to_name(
    alloc: Global,
    drafts: &mut Vec<Draft>,
    kind: TokenKind,
    mut text: Vec<u8>,
    token: &Token,
) -> Result<(), AllocError>
    ensures { OnOk result (stacked drafts.new.items ≡
        name_with token.now kind (reverse text.items) (stacked drafts.old.items)) }
{
    if joins(token, text.as_slice()) {
        put_before(&mut text, token.text.as_slice())?;
        add(drafts, Draft::Word(true, TokenKind::Name, text))?;
        return Ok(());
    }
    let draft = alone(alloc, token)?;
    add_both(drafts, Draft::Word(true, kind, text), draft)
}

/// A token before the parts that were read.
pub fn add_token(alloc: Global, drafts: &mut Vec<Draft>, token: &Token) -> Result<(), AllocError>
    ensures { OnOk result (stacked drafts.new.items ≡ part_before token.now (stacked drafts.old.items)) }
{
    match drafts.pop() {
        None => {
            let draft = alone(alloc, token)?;
            add(drafts, draft)
        }
        Some(Draft::Word(true, kind, text)) => add_to_name(alloc, drafts, kind, text, token),
        Some(Draft::Word(false, kind, text)) => {
            let draft = alone(alloc, token)?;
            add_both(drafts, Draft::Word(false, kind, text), draft)
        }
        Some(Draft::Child) => {
            let draft = alone(alloc, token)?;
            add_both(drafts, Draft::Child, draft)
        }
    }
}
