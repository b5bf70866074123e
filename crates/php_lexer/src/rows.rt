// The lengths that the rows of the token tables count.
ghost use Rattle.std.specs.Prelude.{◌≡◌, ◌≤◌, ◌<◌, ◌+◌, ◌∷◌, ◌&&◌, [], length, take, drop, cond, IfSome, Some, None};
ghost use Rattle.php_spellings.specs.declared.table.State.TheVariants.{First};
ghost use Rattle.php_spellings.specs.Bytes.{lower, starts_word};
ghost use Rattle.php_lexer.specs.Heredocs.{begins_nowdoc};
ghost use Rattle.php_lexer.specs.Rules.{follows, begins_text, is_b};
ghost use Rattle.php_lexer.specs.Scan.{some_len, some_run_len, word_len, name_len, here_len, nothing_if, tail_len, behind, longer};

use crate::heredocs::{end_line_length, nowdoc_length, opens_nowdoc};
use crate::shapes::shape_length;
use crate::walks::{run_length, until_length};
use php_spellings::classes::{first_is, lower, starts_word};
use php_spellings::table::{Follow, Kind, Run, State, Tail};

fn positive(n: usize) -> Option<usize>
    ensures { result ≡ some_len n }
{
    if n == 0 { None } else { Some(n) }
}

// Whether the first line of a nowdoc begins behind these of its `<<<`.
#[tactic(auto, using(php_spellings::proofs::StartLemmas::word_within))]
fn nowdoc_behind(marks: &[u8], bytes: &[u8]) -> bool
    ensures { result ≡ (starts_word marks.now bytes.now && begins_nowdoc (drop (length marks.now) bytes.now)) }
{
    if !starts_word(marks, bytes) {
        return false;
    }
    let (_, rest) = bytes.split_at(marks.len());
    opens_nowdoc(rest)
}

// Whether the bytes may follow.
fn following(follow: Follow, bytes: &[u8]) -> bool
    ensures { result ≡ follows follow bytes.now }
{
    match follow {
        Follow::Anything => true,
        Follow::Nothing => bytes.is_empty(),
        Follow::NoStar => !first_is(42, bytes),
        Follow::Dollar => first_is(36, bytes),
        Follow::NoNowdocAfterOne => !nowdoc_behind(b"<<", bytes),
        Follow::NoNowdocAfterTwo => !nowdoc_behind(b"<", bytes),
    }
}

// Whether the bytes are `b`.
fn binary_mark(bytes: &[u8]) -> bool
    ensures { result ≡ is_b bytes.now }
{
    match bytes {
        [] => false,
        [only] => lower(*only) == 98,
        [_, _, ..] => false,
    }
}

// Whether a text in single quotes or a nowdoc begins behind `b`.
fn text_behind(bytes: &[u8]) -> bool
    ensures { result ≡ begins_text bytes.now }
{
    first_is(39, bytes) || nowdoc_behind(b"<<<", bytes)
}

// The length of a label, but of no `b` that belongs to a text.
pub fn word_length(bytes: &[u8]) -> Option<usize>
    ensures { result ≡ word_len bytes.now }
{
    let len = run_length(Run::Labels, b"", State::First, bytes);
    let (text, rest) = bytes.split_at(len);
    if binary_mark(text) && text_behind(rest) {
        return None;
    }
    positive(len)
}

// The length of a label before `[` or `}`.
fn name_length(bytes: &[u8]) -> Option<usize>
    ensures { result ≡ name_len bytes.now }
{
    let len = run_length(Run::Labels, b"", State::First, bytes);
    let (_, rest) = bytes.split_at(len);
    match rest {
        [] => None,
        [next, ..] => {
            if *next == 91 || *next == 125 {
                positive(len)
            } else {
                None
            }
        }
    }
}

fn nothing(test: bool) -> Option<usize>
    ensures { result ≡ here_len test }
{
    if test { Some(0) } else { None }
}

fn some_run(run: Run, label: &[u8], state: State, bytes: &[u8]) -> Option<usize>
    ensures { result ≡ some_run_len run label.now state bytes.now }
{
    positive(run_length(run, label, state, bytes))
}

// The length of what stands behind a word.
#[tactic(auto, using(crate::proofs::Within::tail_within))]
pub fn tail_length(tail: Tail, label: &[u8], bytes: &[u8]) -> Option<usize>
    ensures { result ≡ tail_len label.now tail bytes.now }
{
    match tail {
        Tail::When(follow) => nothing(following(follow, bytes)),
        Tail::AnyRun(run) => Some(run_length(run, label, State::First, bytes)),
        Tail::SomeOf(run, state) => some_run(run, label, state, bytes),
        Tail::UpTo(until) => until_length(until, bytes),
        Tail::Shaped(shape, spot) => shape_length(shape, spot, bytes),
        Tail::AnyWord => word_length(bytes),
        Tail::BracedName => name_length(bytes),
        Tail::EndLine => end_line_length(label, bytes),
        Tail::NowdocRest => nowdoc_length(bytes),
    }
}

// The length of what stands behind a word, within the bytes.
#[tactic(auto, using(crate::proofs::Within::tail_within))]
pub fn bounded_length(tail: Tail, label: &[u8], bytes: &[u8]) -> Option<usize>
    ensures is { result ≡ tail_len label.now tail bytes.now }
    ensures within { IfSome result (λ n. n ≤ length bytes.now) }
{
    tail_length(tail, label, bytes)
}

// The length of the word and what stands behind it.
#[tactic(auto, using(php_spellings::proofs::StartLemmas::word_within))]
pub fn word(word: &[u8], tail: Tail, label: &[u8], bytes: &[u8]) -> Option<usize>
    ensures { result ≡ behind lower word.now (tail_len label.now tail) bytes.now }
{
    if !starts_word(word, bytes) {
        return None;
    }
    let (_, rest) = bytes.split_at(word.len());
    match bounded_length(tail, label, rest) {
        None => None,
        Some(len) => Some(word.len() + len),
    }
}

// The longer of two tokens, the first where they are equally long.
pub fn longer(kind: Kind, len: Option<usize>, other: Option<(Kind, usize)>) -> Option<(Kind, usize)>
    ensures { result ≡ longer kind len other }
{
    match len {
        None => other,
        Some(n) => match other {
            None => Some((kind, n)),
            Some(x) => { if n < x.1 { Some(x) } else { Some((kind, n)) } }
        },
    }
}
