// How far runs go, and where texts with a closing byte end.
ghost use Rattle.std.specs.Prelude.{◌≡◌, ◌≤◌, ◌+◌, ◌∷◌, length, drop, IfSome, codes};
ghost use Rattle.php_spellings.specs.declared.table.State.TheVariants.{First};
ghost use Rattle.php_spellings.specs.declared.table.Run.TheVariants.{Spaces, Labels};
ghost use Rattle.std.specs.List.{prefix_len};
ghost use Rattle.php_spellings.specs.Bytes.{is_space};
ghost use Rattle.php_lexer.specs.Heredocs.{no_label};
ghost use Rattle.php_lexer.specs.Tails.{begins_part, begins_tag, in_piece, in_line, goes, escape, moved, word_alone, begins_type, closes, bars, stepped};
ghost use Rattle.php_lexer.specs.Scan.{run_len, until_len};

use crate::heredocs::last_line;
use php_spellings::classes::{
    blank_byte, first_is, first_letter, first_space, label_byte, label_bytes, letter, line_end,
    lower, space, starts_word,
};
use php_spellings::table::{Mark, Run, State, Until};

// Whether a part of a quoted text begins with the byte.
fn part(byte: u8, rest: &[u8]) -> bool
    ensures { result ≡ begins_part byte rest.now }
{
    match rest {
        [] => false,
        [next, ..] => byte == 36 && (letter(*next) || *next == 123) || byte == 123 && *next == 36,
    }
}

// Whether an opening tag begins, behind its `<`.
#[tactic(auto, using(php_spellings::proofs::StartLemmas::word_within))]
fn tag(rest: &[u8]) -> bool
    ensures { result ≡ begins_tag rest.now }
{
    if starts_word(b"?=", rest) {
        return true;
    }
    if !starts_word(b"?php", rest) {
        return false;
    }
    let (_, behind) = rest.split_at(4);
    behind.is_empty() || first_space(behind)
}

// The state behind a byte of a text in which a backslash takes the next byte along.
fn escaped(state: State, byte: u8) -> State
    ensures { result ≡ escape state byte }
{
    match state {
        State::Escaped => State::Plain,
        State::First => {
            if byte == 92 {
                State::Escaped
            } else {
                State::Plain
            }
        }
        State::Plain => {
            if byte == 92 {
                State::Escaped
            } else {
                State::Plain
            }
        }
    }
}

// Whether the first of the bytes belongs to a piece of a quoted text.
fn piece(mark: Mark, label: &[u8], state: State, byte: u8, rest: &[u8], bytes: &[u8]) -> bool
    requires { bytes.now ≡ byte ∷ rest.now }
    ensures { result ≡ in_piece mark label.now state byte rest.now }
{
    match state {
        State::Escaped => true,
        State::First => match mark {
            Mark::Double => byte != 34 && !part(byte, rest),
            Mark::Back => byte != 96 && !part(byte, rest),
            Mark::Here => !last_line(label, bytes) && !part(byte, rest),
        },
        State::Plain => match mark {
            Mark::Double => byte != 34 && !part(byte, rest),
            Mark::Back => byte != 96 && !part(byte, rest),
            Mark::Here => !part(byte, rest),
        },
    }
}

// Whether a byte of a comment of one line belongs to it.
fn line(byte: u8, rest: &[u8]) -> bool
    ensures { result ≡ in_line byte rest.now }
{
    !line_end(byte) && !(byte == 63 && first_is(62, rest))
}

// Whether the first of the bytes belongs to the run.
fn going(run: Run, label: &[u8], state: State, byte: u8, rest: &[u8], bytes: &[u8]) -> bool
    requires { bytes.now ≡ byte ∷ rest.now }
    ensures { result ≡ goes run label.now state byte rest.now }
{
    match run {
        Run::Spaces => space(byte),
        Run::Labels => match state {
            State::First => letter(byte),
            State::Plain => label_byte(byte),
            State::Escaped => label_byte(byte),
        },
        Run::Line => line(byte, rest),
        Run::HashLine => match state {
            State::First => byte != 91 && line(byte, rest),
            State::Plain => line(byte, rest),
            State::Escaped => line(byte, rest),
        },
        Run::Html => !(byte == 60 && tag(rest)),
        Run::Body(mark) => piece(mark, label, state, byte, rest, bytes),
    }
}

fn next_state(run: Run, state: State, byte: u8) -> State
    ensures { result ≡ moved run state byte }
{
    match run {
        Run::Body(Mark::Here) => {
            if line_end(byte) {
                State::First
            } else {
                escaped(state, byte)
            }
        }
        Run::Body(Mark::Double) => escaped(state, byte),
        Run::Body(Mark::Back) => escaped(state, byte),
        Run::Spaces => State::Plain,
        Run::Labels => State::Plain,
        Run::Line => State::Plain,
        Run::HashLine => State::Plain,
        Run::Html => State::Plain,
    }
}

// How many bytes of white space the bytes begin with.
fn space_count(bytes: &[u8]) -> usize
    ensures count { result ≡ prefix_len is_space bytes.now }
    ensures within { result ≤ length bytes.now }
{
    bytes.iter().take_while(|byte| space(**byte)).count()
}

// The length of a run of white space.
pub fn spaces(label: &[u8], first: State, bytes: &[u8]) -> usize
    ensures count { result ≡ run_len Spaces label.now first bytes.now }
    ensures within { result ≤ length bytes.now }
{
    space_count(bytes)
}

// The length of a label that begins here.
#[tactic(auto, using(crate::proofs::RunLemmas::letter_run, crate::proofs::RunLemmas::no_letter_run))]
pub fn labels(label: &[u8], bytes: &[u8]) -> usize
    ensures count { result ≡ run_len Labels label.now First bytes.now }
    ensures within { result ≤ length bytes.now }
{
    if first_letter(bytes) {
        label_bytes(bytes)
    } else {
        0
    }
}

// The length of a run, byte by byte.
#[tactic(auto, using(crate::proofs::Steps::run_step, crate::proofs::Steps::run_stop, crate::proofs::Steps::run_end, php_spellings::proofs::StartLemmas::split))]
fn any_run(run: Run, label: &[u8], first: State, bytes: &[u8]) -> usize
    ensures count { result ≡ run_len run label.now first bytes.now }
    ensures within { result ≤ length bytes.now }
{
    let mut state = first;
    for (at, byte) in bytes.iter().enumerate() {
        let (_, here) = bytes.split_at(at);
        let (_, rest) = bytes.split_at(at + 1);
        if !going(run, label, state, *byte, rest, here) {
            return at;
        }
        state = next_state(run, state, *byte);
    }
    bytes.len()
}

// The length of a run of labels.
fn label_run(label: &[u8], first: State, bytes: &[u8]) -> usize
    ensures count { result ≡ run_len Labels label.now first bytes.now }
    ensures within { result ≤ length bytes.now }
{
    match first {
        State::First => labels(label, bytes),
        State::Plain => any_run(Run::Labels, label, first, bytes),
        State::Escaped => any_run(Run::Labels, label, first, bytes),
    }
}

// The length of the run.
pub fn run_length(run: Run, label: &[u8], first: State, bytes: &[u8]) -> usize
    ensures count { result ≡ run_len run label.now first bytes.now }
    ensures within { result ≤ length bytes.now }
{
    match run {
        Run::Spaces => spaces(label, first, bytes),
        Run::Labels => label_run(label, first, bytes),
        Run::Line => any_run(run, label, first, bytes),
        Run::HashLine => any_run(run, label, first, bytes),
        Run::Html => any_run(run, label, first, bytes),
        Run::Body(_) => any_run(run, label, first, bytes),
    }
}

// Whether the word begins the bytes, and no byte of a label follows it.
#[tactic(auto, using(php_spellings::proofs::StartLemmas::word_within))]
fn word_only(word: &[u8], bytes: &[u8]) -> bool
    ensures { result ≡ word_alone word.now bytes.now }
{
    if !starts_word(word, bytes) {
        return false;
    }
    let (_, rest) = bytes.split_at(word.len());
    match rest {
        [] => true,
        [next, ..] => !label_byte(*next),
    }
}

// Whether one of the words that name a type begins the bytes, of which the first is a letter.
fn any_type_word(bytes: &[u8]) -> bool
    ensures { result ≡ begins_type bytes.now }
{
    word_only(b"int", bytes)
        || word_only(b"integer", bytes)
        || word_only(b"bool", bytes)
        || word_only(b"boolean", bytes)
        || word_only(b"string", bytes)
        || word_only(b"array", bytes)
        || word_only(b"object", bytes)
        || word_only(b"float", bytes)
        || word_only(b"double", bytes)
        || word_only(b"binary", bytes)
        || word_only(b"real", bytes)
        || word_only(b"unset", bytes)
}

// Whether one of the words that name a type begins the bytes.
#[tactic(auto, using(crate::proofs::RunLemmas::no_type))]
fn type_word(bytes: &[u8]) -> bool
    ensures { result ≡ begins_type bytes.now }
{
    if first_letter(bytes) {
        any_type_word(bytes)
    } else {
        false
    }
}

fn closing(until: Until, state: State, byte: u8) -> bool
    ensures { result ≡ closes until state byte }
{
    match state {
        State::First => match until {
            Until::Simple => byte == 39,
            Until::Closed => byte == 34,
            Until::Block => false,
            Until::CastWord => false,
            Until::From => false,
        },
        State::Plain => match until {
            Until::Simple => byte == 39,
            Until::Closed => byte == 34,
            Until::Block => false,
            Until::CastWord => byte == 41,
            Until::From => false,
        },
        State::Escaped => match until {
            Until::Simple => false,
            Until::Closed => false,
            Until::Block => byte == 47,
            Until::CastWord => byte == 41,
            Until::From => lower(byte) == 109,
        },
    }
}

fn barred(until: Until, state: State, byte: u8, rest: &[u8], bytes: &[u8]) -> bool
    requires { bytes.now ≡ byte ∷ rest.now }
    ensures { result ≡ bars until state byte rest.now }
{
    match state {
        State::First => match until {
            Until::Simple => false,
            Until::Closed => part(byte, rest),
            Until::Block => false,
            Until::CastWord => !(blank_byte(byte) || type_word(bytes)),
            Until::From => !space(byte),
        },
        State::Plain => match until {
            Until::Simple => false,
            Until::Closed => part(byte, rest),
            Until::Block => false,
            Until::CastWord => !(letter(byte) || blank_byte(byte) || byte == 41),
            Until::From => !(space(byte) || word_only(b"from", bytes)),
        },
        State::Escaped => match until {
            Until::Simple => false,
            Until::Closed => false,
            Until::Block => false,
            Until::CastWord => !(blank_byte(byte) || byte == 41),
            Until::From => false,
        },
    }
}

fn later_state(until: Until, state: State, byte: u8) -> State
    ensures { result ≡ stepped until state byte }
{
    match until {
        Until::Simple => escaped(state, byte),
        Until::Closed => escaped(state, byte),
        Until::Block => {
            if byte == 42 {
                State::Escaped
            } else {
                State::Plain
            }
        }
        Until::CastWord => match state {
            State::First => {
                if blank_byte(byte) {
                    State::First
                } else {
                    State::Plain
                }
            }
            State::Plain => {
                if blank_byte(byte) {
                    State::Escaped
                } else {
                    State::Plain
                }
            }
            State::Escaped => State::Escaped,
        },
        Until::From => match state {
            State::First => State::Plain,
            State::Plain => {
                if space(byte) {
                    State::Plain
                } else {
                    State::Escaped
                }
            }
            State::Escaped => State::Escaped,
        },
    }
}

// The length of a text up to its closing byte.
#[tactic(auto, using(crate::proofs::Steps::until_step, crate::proofs::Steps::until_bar, crate::proofs::Steps::until_close, crate::proofs::Steps::until_end, php_spellings::proofs::StartLemmas::split))]
pub fn until_length(until: Until, bytes: &[u8]) -> Option<usize>
    ensures count { result ≡ until_len until First bytes.now }
    ensures within { IfSome result (λ n. n ≤ length bytes.now) }
{
    let mut state = State::First;
    for (at, byte) in bytes.iter().enumerate() {
        let (_, here) = bytes.split_at(at);
        let (_, rest) = bytes.split_at(at + 1);
        if barred(until, state, *byte, rest, here) {
            return None;
        }
        if closing(until, state, *byte) {
            return Some(at + 1);
        }
        state = later_state(until, state, *byte);
    }
    None
}
