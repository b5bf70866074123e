// The kinds of tokens whose text settles them: words, and whole numbers.
ghost use Rattle.std.specs.Prelude.{◌≡◌, ◌≤◌, ◌<◌, ◌+◌, ◌*◌, ◌^◌, ◌∷◌, [], nat_le, length, drop, cond, IfSome, IfNone, Some, true, false};
ghost use Rattle.php_tree.specs.declared.token.TokenKind.TheVariants.{Int, Float};
ghost use Rattle.php_spellings.specs.declared.table.Kind.TheVariants.{Word};
ghost use Rattle.php_spellings.specs.Words.{greatest_int, digit_value, value_step, value_from, whole_number, token_of};

use crate::classes::{digit, lower};
use crate::keywords::keyword;
use crate::table::Kind;
use php_tree::TokenKind;

const GREATEST: u64 = 9_223_372_036_854_775_807;

// The value of a digit of any base to 16.
fn value_of(byte: u8) -> u64
    ensures is { result ≡ digit_value byte }
    ensures small { result < 256 }
{
    if digit(byte) {
        (byte - 48) as u64
    } else {
        lower(byte).saturating_sub(87) as u64
    }
}

// The value with one more digit, up to the greatest Int.
fn next_value(base: u64, value: u64, byte: u8) -> Option<u64>
    requires low { 2 ≤ base }
    requires high { base ≤ 16 }
    requires value_within { value ≤ greatest_int }
    ensures found { IfSome result (λ v. v ≡ value_step base value byte) }
    ensures within { IfSome result (λ v. v ≤ greatest_int) }
    ensures past { IfNone result (greatest_int < value_step base value byte) }
{
    if byte == 95 {
        return Some(value);
    }
    let digit = value_of(byte);
    let most = (GREATEST - digit) / base;
    if value > most {
        return None;
    }
    Some(value * base + digit)
}

// Whether the digits are an Int.
#[tactic(auto, using(crate::proofs::ValueLemmas::value_more, crate::proofs::ValueLemmas::value_past, crate::proofs::ValueLemmas::value_end))]
fn fits(base: u64, digits: &[u8]) -> bool
    requires low { 2 ≤ base }
    requires high { base ≤ 16 }
    ensures { result ≡ nat_le (value_from base 0 digits.now) greatest_int }
{
    let mut value = 0;
    for byte in digits {
        match next_value(base, value, *byte) {
            None => return false,
            Some(next) => value = next,
        }
    }
    true
}

// An Int, or a Float past the greatest one.
fn number(base: u64, digits: &[u8]) -> TokenKind
    requires low { 2 ≤ base }
    requires high { base ≤ 16 }
    ensures { result ≡ whole_number base digits.now }
{
    if fits(base, digits) {
        TokenKind::Int
    } else {
        TokenKind::Float
    }
}

// The digits behind `0x` or `0b`.
fn past_base(text: &[u8]) -> &[u8]
    ensures { result.now ≡ drop 2 text.now }
{
    match text {
        [] => text,
        [_] => &[],
        [_, _, ..] => {
            let (_, digits) = text.split_at(2);
            digits
        }
    }
}

fn word_kind(text: &[u8]) -> TokenKind
    ensures { Some result ≡ token_of Word text.now }
{
    if keyword(text) {
        TokenKind::Keyword
    } else {
        TokenKind::Label
    }
}

/// The kind of a token whose text a row describes; none of trivia.
pub fn token_kind(kind: Kind, text: &[u8]) -> Option<TokenKind>
    ensures { result ≡ token_of kind text.now }
{
    match kind {
        Kind::Space => None,
        Kind::Comment => None,
        Kind::Tag => None,
        Kind::OpenEcho => Some(TokenKind::OpenEcho),
        Kind::InlineHtml => Some(TokenKind::InlineHtml),
        Kind::Variable => Some(TokenKind::Variable),
        Kind::Word => Some(word_kind(text)),
        Kind::Label => Some(TokenKind::Label),
        Kind::Keyword => Some(TokenKind::Keyword),
        Kind::Name => Some(TokenKind::Name),
        Kind::Decimal => Some(number(10, text)),
        Kind::Octal => Some(number(8, text)),
        Kind::Hexadecimal => Some(number(16, past_base(text))),
        Kind::Binary => Some(number(2, past_base(text))),
        Kind::Digits => Some(TokenKind::Int),
        Kind::Float => Some(TokenKind::Float),
        Kind::Text => Some(TokenKind::Text),
        Kind::Quote => Some(TokenKind::Quote),
        Kind::Backtick => Some(TokenKind::Backtick),
        Kind::HeredocStart => Some(TokenKind::HeredocStart),
        Kind::Cast => Some(TokenKind::Cast),
        Kind::Op => Some(TokenKind::Op),
        Kind::AttributeOpen => Some(TokenKind::AttributeOpen),
        Kind::Semi => Some(TokenKind::Semi),
        Kind::Close => Some(TokenKind::Close),
        Kind::Piece => Some(TokenKind::Piece),
        Kind::CurlyOpen => Some(TokenKind::CurlyOpen),
        Kind::DollarBrace => Some(TokenKind::DollarBrace),
        Kind::VarName => Some(TokenKind::VarName),
        Kind::QuotedEnd => Some(TokenKind::QuotedEnd),
    }
}
