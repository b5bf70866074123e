// The longest token of code that begins with a mark, by the bytes behind the mark.
ghost use Rattle.std.specs.Prelude.{◌≡◌, ◌≤◌, ◌<◌, ◌+◌, ◌^◌, ◌∷◌, [], length, drop, cond, IfSome, Some, None, false};
ghost use Rattle.php_tree.specs.declared.version.Version.TheVariants.{V74};
ghost use Rattle.php_spellings.specs.Bytes.{starts_word, is_letter, is_space, is_digit};
ghost use Rattle.php_lexer.specs.RulesCode.{common_rows, code_rows};
ghost use Rattle.php_lexer.specs.Scan.{add_to, tail_len, scan_by};

use crate::rows::{bounded_length, longer, word};
use php_spellings::classes::starts_word;
use php_spellings::table::{Follow, Kind, Run, Shape, Spot, State, Tail, Until};
use php_tree::Version;

// The length of a word, by the part of it behind the mark and its whole length, and of what stands
// behind it.
#[tactic(auto, using(php_spellings::proofs::StartLemmas::word_within))]
fn behind(word: &[u8], len: usize, tail: Tail, rest: &[u8]) -> Option<usize>
    requires short { len ≤ 8 }
    ensures { result ≡ cond (starts_word word.now rest.now) (add_to len (tail_len [] tail (drop (length word.now) rest.now))) None }
{
    if !starts_word(word, rest) {
        return None;
    }
    let (_, after) = rest.split_at(word.len());
    match bounded_length(tail, b"", after) {
        None => None,
        Some(n) => Some(len + n),
    }
}

// The length of an operator.
fn mark(word: &[u8], len: usize, rest: &[u8]) -> Option<usize>
    requires short { len ≤ 8 }
    ensures { result ≡ cond (starts_word word.now rest.now) (add_to len (Some 0)) None }
{
    behind(word, len, Tail::When(Follow::Anything), rest)
}

// `!`
fn bang(rest: &[u8]) -> Option<(Kind, usize)>
    ensures { result ≡ scan_by [] common_rows (33 ∷ rest.now) }
{
    let last = longer(Kind::Op, mark(b"==", 3, rest), None);
    let second = longer(Kind::Op, mark(b"=", 2, rest), last);
    longer(Kind::Op, Some(1), second)
}

// `"`: a closed text, or the front of a quoted one
fn double_quote(rest: &[u8]) -> Option<(Kind, usize)>
    ensures { result ≡ scan_by [] common_rows (34 ∷ rest.now) }
{
    let last = longer(Kind::Quote, Some(1), None);
    longer(
        Kind::Text,
        behind(b"", 1, Tail::UpTo(Until::Closed), rest),
        last,
    )
}

// `$`
fn dollar(rest: &[u8]) -> Option<(Kind, usize)>
    ensures { result ≡ scan_by [] common_rows (36 ∷ rest.now) }
{
    let last = longer(Kind::Op, Some(1), None);
    longer(
        Kind::Variable,
        behind(b"", 1, Tail::SomeOf(Run::Labels, State::First), rest),
        last,
    )
}

// `%`
fn percent(rest: &[u8]) -> Option<(Kind, usize)>
    ensures { result ≡ scan_by [] common_rows (37 ∷ rest.now) }
{
    let last = longer(Kind::Op, mark(b"=", 2, rest), None);
    longer(Kind::Op, Some(1), last)
}

// `&`
fn ampersand(rest: &[u8]) -> Option<(Kind, usize)>
    ensures { result ≡ scan_by [] common_rows (38 ∷ rest.now) }
{
    let last = longer(Kind::Op, mark(b"=", 2, rest), None);
    let second = longer(Kind::Op, mark(b"&", 2, rest), last);
    longer(Kind::Op, Some(1), second)
}

// `'`
fn single_quote(rest: &[u8]) -> Option<(Kind, usize)>
    ensures { result ≡ scan_by [] common_rows (39 ∷ rest.now) }
{
    longer(
        Kind::Text,
        behind(b"", 1, Tail::UpTo(Until::Simple), rest),
        None,
    )
}

// `(`
fn parenthesis(rest: &[u8]) -> Option<(Kind, usize)>
    ensures { result ≡ scan_by [] common_rows (40 ∷ rest.now) }
{
    let last = longer(Kind::Op, Some(1), None);
    longer(
        Kind::Cast,
        behind(b"", 1, Tail::UpTo(Until::CastWord), rest),
        last,
    )
}

// `*`
fn star(rest: &[u8]) -> Option<(Kind, usize)>
    ensures { result ≡ scan_by [] common_rows (42 ∷ rest.now) }
{
    let last = longer(Kind::Op, mark(b"*=", 3, rest), None);
    let second = longer(Kind::Op, mark(b"=", 2, rest), last);
    let third = longer(Kind::Op, mark(b"*", 2, rest), second);
    longer(Kind::Op, Some(1), third)
}

// `+`
fn plus(rest: &[u8]) -> Option<(Kind, usize)>
    ensures { result ≡ scan_by [] common_rows (43 ∷ rest.now) }
{
    let last = longer(Kind::Op, mark(b"=", 2, rest), None);
    let second = longer(Kind::Op, mark(b"+", 2, rest), last);
    longer(Kind::Op, Some(1), second)
}

// `-`
fn minus(rest: &[u8]) -> Option<(Kind, usize)>
    ensures { result ≡ scan_by [] common_rows (45 ∷ rest.now) }
{
    let last = longer(Kind::Op, mark(b">", 2, rest), None);
    let second = longer(Kind::Op, mark(b"=", 2, rest), last);
    let third = longer(Kind::Op, mark(b"-", 2, rest), second);
    longer(Kind::Op, Some(1), third)
}

// `/`
fn slash(rest: &[u8]) -> Option<(Kind, usize)>
    ensures { result ≡ scan_by [] common_rows (47 ∷ rest.now) }
{
    let last = longer(Kind::Op, mark(b"=", 2, rest), None);
    let second = longer(
        Kind::Op,
        behind(b"", 1, Tail::When(Follow::NoStar), rest),
        last,
    );
    let third = longer(
        Kind::Comment,
        behind(b"/", 2, Tail::AnyRun(Run::Line), rest),
        second,
    );
    longer(
        Kind::Comment,
        behind(b"*", 2, Tail::UpTo(Until::Block), rest),
        third,
    )
}

// `:`
fn colon(rest: &[u8]) -> Option<(Kind, usize)>
    ensures { result ≡ scan_by [] common_rows (58 ∷ rest.now) }
{
    let last = longer(Kind::Op, mark(b":", 2, rest), None);
    longer(Kind::Op, Some(1), last)
}

// `<`
fn less(rest: &[u8]) -> Option<(Kind, usize)>
    ensures { result ≡ scan_by [] common_rows (60 ∷ rest.now) }
{
    let last = longer(Kind::Op, mark(b"<=", 3, rest), None);
    let second = longer(Kind::Op, mark(b">", 2, rest), last);
    let third = longer(Kind::Op, mark(b"=>", 3, rest), second);
    let fourth = longer(Kind::Op, mark(b"=", 2, rest), third);
    let fifth = longer(
        Kind::Op,
        behind(b"<", 2, Tail::When(Follow::NoNowdocAfterTwo), rest),
        fourth,
    );
    let sixth = longer(
        Kind::Op,
        behind(b"", 1, Tail::When(Follow::NoNowdocAfterOne), rest),
        fifth,
    );
    let seventh = longer(
        Kind::HeredocStart,
        behind(
            b"<<",
            3,
            Tail::Shaped(Shape::HeredocLine, Spot::Begin),
            rest,
        ),
        sixth,
    );
    longer(
        Kind::Text,
        behind(b"<<", 3, Tail::NowdocRest, rest),
        seventh,
    )
}

// `=`
fn equals(rest: &[u8]) -> Option<(Kind, usize)>
    ensures { result ≡ scan_by [] common_rows (61 ∷ rest.now) }
{
    let last = longer(Kind::Op, mark(b">", 2, rest), None);
    let second = longer(Kind::Op, mark(b"==", 3, rest), last);
    let third = longer(Kind::Op, mark(b"=", 2, rest), second);
    longer(Kind::Op, Some(1), third)
}

// `>`
fn greater(rest: &[u8]) -> Option<(Kind, usize)>
    ensures { result ≡ scan_by [] common_rows (62 ∷ rest.now) }
{
    let last = longer(Kind::Op, mark(b">=", 3, rest), None);
    let second = longer(Kind::Op, mark(b">", 2, rest), last);
    let third = longer(Kind::Op, mark(b"=", 2, rest), second);
    longer(Kind::Op, Some(1), third)
}

// `?`
fn question(rest: &[u8]) -> Option<(Kind, usize)>
    ensures { result ≡ scan_by [] common_rows (63 ∷ rest.now) }
{
    let last = longer(Kind::Op, mark(b"?=", 3, rest), None);
    let second = longer(Kind::Op, mark(b"?", 2, rest), last);
    let third = longer(Kind::Op, Some(1), second);
    let fourth = longer(Kind::Close, mark(b">\r\n", 4, rest), third);
    let fifth = longer(Kind::Close, mark(b">\r", 3, rest), fourth);
    let sixth = longer(Kind::Close, mark(b">\n", 3, rest), fifth);
    longer(Kind::Close, mark(b">", 2, rest), sixth)
}

// `^`
fn caret(rest: &[u8]) -> Option<(Kind, usize)>
    ensures { result ≡ scan_by [] common_rows (94 ∷ rest.now) }
{
    let last = longer(Kind::Op, mark(b"=", 2, rest), None);
    longer(Kind::Op, Some(1), last)
}

// `|`
fn bar(rest: &[u8]) -> Option<(Kind, usize)>
    ensures { result ≡ scan_by [] common_rows (124 ∷ rest.now) }
{
    let last = longer(Kind::Op, mark(b"=", 2, rest), None);
    let second = longer(Kind::Op, mark(b"|", 2, rest), last);
    longer(Kind::Op, Some(1), second)
}

// `.`, which may begin a number
fn point(rest: &[u8], bytes: &[u8]) -> Option<(Kind, usize)>
    requires { bytes.now ≡ 46 ∷ rest.now }
    ensures { result ≡ scan_by [] common_rows (46 ∷ rest.now) }
{
    let last = longer(Kind::Op, mark(b"..", 3, rest), None);
    let second = longer(Kind::Op, mark(b"=", 2, rest), last);
    let third = longer(Kind::Op, Some(1), second);
    let number = Tail::Shaped(Shape::Float, Spot::Begin);
    longer(Kind::Float, word(b"", number, b"", bytes), third)
}

// `#`
pub fn hash(version: Version, rest: &[u8]) -> Option<(Kind, usize)>
    ensures { result ≡ scan_by [] (code_rows version) (35 ∷ rest.now) }
{
    match version {
        Version::V74 => longer(
            Kind::Comment,
            behind(b"", 1, Tail::AnyRun(Run::Line), rest),
            None,
        ),
        Version::V83 => {
            let comment = behind(b"", 1, Tail::AnyRun(Run::HashLine), rest);
            longer(
                Kind::AttributeOpen,
                mark(b"[", 2, rest),
                longer(Kind::Comment, comment, None),
            )
        }
    }
}

// Any byte but `#`, of no letter, white space or digit.
pub fn mark_scan(first: u8, rest: &[u8], bytes: &[u8]) -> Option<(Kind, usize)>
    requires whole { bytes.now ≡ first ∷ rest.now }
    requires no_letter { is_letter first ≡ false }
    requires no_space { is_space first ≡ false }
    requires no_digit { is_digit first ≡ false }
    ensures { result ≡ scan_by [] common_rows (first ∷ rest.now) }
{
    match first {
        33 => bang(rest),
        34 => double_quote(rest),
        36 => dollar(rest),
        37 => percent(rest),
        38 => ampersand(rest),
        39 => single_quote(rest),
        40 => parenthesis(rest),
        41 => Some((Kind::Op, 1)),
        42 => star(rest),
        43 => plus(rest),
        44 => Some((Kind::Op, 1)),
        45 => minus(rest),
        46 => point(rest, bytes),
        47 => slash(rest),
        58 => colon(rest),
        59 => Some((Kind::Semi, 1)),
        60 => less(rest),
        61 => equals(rest),
        62 => greater(rest),
        63 => question(rest),
        64 => Some((Kind::Op, 1)),
        91 => Some((Kind::Op, 1)),
        92 => Some((Kind::Op, 1)),
        93 => Some((Kind::Op, 1)),
        94 => caret(rest),
        96 => Some((Kind::Backtick, 1)),
        123 => Some((Kind::Op, 1)),
        124 => bar(rest),
        125 => Some((Kind::Op, 1)),
        126 => Some((Kind::Op, 1)),
        _ => None,
    }
}
