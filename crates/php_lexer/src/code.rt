// The longest token of code.
ghost use Rattle.std.specs.Prelude.{◌≡◌, ◌∷◌, [], true, false, nat_eq, IsTrue};
ghost use Rattle.php_spellings.specs.Bytes.{is_letter, is_digit, is_space, lower};
ghost use Rattle.php_lexer.specs.RulesCode.{common_rows, code_rows, number_rows};
ghost use Rattle.php_lexer.specs.Letters.{letter_rows};
ghost use Rattle.php_lexer.specs.Scan.{scan_by};

use crate::marks::{hash, mark_scan};
use crate::rows::{longer, word};
use crate::walks::{labels, spaces};
use php_spellings::classes::{digit, letter, lower, space};
use php_spellings::table::{Follow, Kind, Shape, Spot, State, Tail, Until};
use php_tree::Version;

// A letter that begins `yield`, or is `b` before a text.
fn marked_word(bytes: &[u8]) -> Option<(Kind, usize)>
    ensures { result ≡ scan_by [] letter_rows bytes.now }
{
    let line = Tail::Shaped(Shape::HeredocLine, Spot::Begin);
    let heredoc = longer(Kind::HeredocStart, word(b"b<<<", line, b"", bytes), None);
    let quote = word(b"b\"", Tail::When(Follow::Anything), b"", bytes);
    let quoted = longer(Kind::Quote, quote, heredoc);
    let nowdoc = longer(
        Kind::Text,
        word(b"b<<<", Tail::NowdocRest, b"", bytes),
        quoted,
    );
    let closed = word(b"b\"", Tail::UpTo(Until::Closed), b"", bytes);
    let double = longer(Kind::Text, closed, nowdoc);
    let simple = word(b"b'", Tail::UpTo(Until::Simple), b"", bytes);
    let single = longer(Kind::Text, simple, double);
    let plain = longer(Kind::Word, word(b"", Tail::AnyWord, b"", bytes), single);
    longer(
        Kind::Keyword,
        word(b"yield", Tail::UpTo(Until::From), b"", bytes),
        plain,
    )
}

// A letter that begins neither `yield` nor a text behind `b`.
fn plain_word(first: u8, rest: &[u8], bytes: &[u8]) -> Option<(Kind, usize)>
    requires whole { bytes.now ≡ first ∷ rest.now }
    requires head { is_letter first ≡ true }
    requires not_b { lower first ≡ 98 → ⊥ }
    requires not_y { lower first ≡ 121 → ⊥ }
    ensures { result ≡ scan_by [] common_rows (first ∷ rest.now) }
{
    Some((Kind::Word, labels(b"", bytes)))
}

#[tactic(auto, using(crate::proofs::Dispatch::letter_scan))]
fn word_scan(first: u8, rest: &[u8], bytes: &[u8]) -> Option<(Kind, usize)>
    requires whole { bytes.now ≡ first ∷ rest.now }
    requires head { is_letter first ≡ true }
    ensures { result ≡ scan_by [] common_rows (first ∷ rest.now) }
{
    let head = lower(first);
    if head == 98 {
        return marked_word(bytes);
    }
    if head == 121 {
        return marked_word(bytes);
    }
    plain_word(first, rest, bytes)
}

fn numbers(bytes: &[u8]) -> Option<(Kind, usize)>
    ensures { result ≡ scan_by [] number_rows bytes.now }
{
    let point = word(b"", Tail::Shaped(Shape::Float, Spot::Begin), b"", bytes);
    let float = longer(Kind::Float, point, None);
    let two = word(b"0b", Tail::Shaped(Shape::Binary, Spot::Begin), b"", bytes);
    let binary = longer(Kind::Binary, two, float);
    let sixteen = word(
        b"0x",
        Tail::Shaped(Shape::Hexadecimal, Spot::Begin),
        b"",
        bytes,
    );
    let hexadecimal = longer(Kind::Hexadecimal, sixteen, binary);
    let eight = word(b"0", Tail::Shaped(Shape::Octal, Spot::Whole), b"", bytes);
    let octal = longer(Kind::Octal, eight, hexadecimal);
    let ten = word(b"", Tail::Shaped(Shape::Decimal, Spot::Begin), b"", bytes);
    longer(Kind::Decimal, ten, octal)
}

#[tactic(auto, using(crate::proofs::Dispatch::digit_scan))]
fn number_scan(first: u8, rest: &[u8], bytes: &[u8]) -> Option<(Kind, usize)>
    requires whole { bytes.now ≡ first ∷ rest.now }
    requires head { is_digit first ≡ true }
    ensures { result ≡ scan_by [] common_rows (first ∷ rest.now) }
{
    numbers(bytes)
}

#[tactic(auto, using(crate::proofs::RunLemmas::space_direct))]
fn space_scan(first: u8, rest: &[u8], bytes: &[u8]) -> Option<(Kind, usize)>
    requires whole { bytes.now ≡ first ∷ rest.now }
    requires head { is_space first ≡ true }
    ensures { result ≡ scan_by [] common_rows (first ∷ rest.now) }
{
    Some((Kind::Space, spaces(b"", State::First, bytes)))
}

// The longest token that both versions have.
fn common_scan(first: u8, rest: &[u8], bytes: &[u8]) -> Option<(Kind, usize)>
    requires { bytes.now ≡ first ∷ rest.now }
    ensures { result ≡ scan_by [] common_rows (first ∷ rest.now) }
{
    if letter(first) {
        word_scan(first, rest, bytes)
    } else if space(first) {
        space_scan(first, rest, bytes)
    } else if digit(first) {
        number_scan(first, rest, bytes)
    } else {
        mark_scan(first, rest, bytes)
    }
}

// With a name of 8.3, which a letter or a `\` begins.
#[tactic(auto, using(crate::proofs::Dispatch::older_scan, crate::proofs::Dispatch::newer_scan, crate::proofs::Dispatch::nameless_scan))]
fn named_scan(version: Version, first: u8, rest: &[u8], bytes: &[u8]) -> Option<(Kind, usize)>
    requires whole { bytes.now ≡ first ∷ rest.now }
    requires head { nat_eq first 35 ≡ false }
    ensures { result ≡ scan_by [] (code_rows version) (first ∷ rest.now) }
{
    let common = common_scan(first, rest, bytes);
    match version {
        Version::V74 => common,
        Version::V83 => {
            if letter(first) || first == 92 {
                let name = Tail::Shaped(Shape::Name, Spot::Begin);
                longer(Kind::Name, word(b"", name, b"", bytes), common)
            } else {
                common
            }
        }
    }
}

fn first_scan(version: Version, first: u8, rest: &[u8], bytes: &[u8]) -> Option<(Kind, usize)>
    requires { bytes.now ≡ first ∷ rest.now }
    ensures { result ≡ scan_by [] (code_rows version) (first ∷ rest.now) }
{
    if first == 35 {
        hash(version, rest)
    } else {
        named_scan(version, first, rest, bytes)
    }
}

/// The longest token of code.
#[tactic(auto, using(crate::proofs::Dispatch::no_bytes))]
pub fn code_scan(version: Version, bytes: &[u8]) -> Option<(Kind, usize)>
    ensures { result ≡ scan_by [] (code_rows version) bytes.now }
{
    match bytes {
        [] => None,
        [first, ..] => {
            let (_, rest) = bytes.split_at(1);
            first_scan(version, *first, rest, bytes)
        }
    }
}
