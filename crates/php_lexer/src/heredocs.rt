// The ends of heredocs and nowdocs.
ghost use Rattle.std.specs.Prelude.{◌≡◌, ◌≤◌, ◌<◌, ◌+◌, ◌^◌, ◌∷◌, [], length, drop, IfSome, false};
ghost use Rattle.php_spellings.specs.Bytes.{skip_blanks};
ghost use Rattle.php_lexer.specs.Heredocs.{begins_label, ends_heredoc, behind_quote, begins_nowdoc, nowdoc_label, nowdoc_head};
ghost use Rattle.php_lexer.specs.Scan.{end_line_len, body_len, nowdoc_len, add_to};

use php_spellings::classes::{
    blanks, first_is, first_letter, first_line_end, label_byte, label_bytes, line_end, starts_with,
};

// Whether the bytes begin with the label, and no byte of a label follows it.
#[tactic(auto, using(php_spellings::proofs::StartLemmas::starts_within))]
fn label_only(label: &[u8], bytes: &[u8]) -> bool
    ensures { result ≡ begins_label label.now bytes.now }
{
    if !starts_with(label, bytes) {
        return false;
    }
    let (_, rest) = bytes.split_at(label.len());
    match rest {
        [] => true,
        [next, ..] => !label_byte(*next),
    }
}

// Whether the line that begins here ends the heredoc with the label.
pub fn last_line(label: &[u8], bytes: &[u8]) -> bool
    ensures { result ≡ ends_heredoc label.now bytes.now }
{
    let (_, rest) = bytes.split_at(blanks(bytes));
    label_only(label, rest)
}

// The length of blanks and the label, where no byte of a label follows.
#[tactic(auto, using(crate::proofs::Steps::end_line_is, php_spellings::proofs::StartLemmas::starts_within, crate::proofs::Steps::label_len_is))]
pub fn end_line_length(label: &[u8], bytes: &[u8]) -> Option<usize>
    ensures count { result ≡ end_line_len label.now bytes.now }
    ensures within { IfSome result (λ n. n ≤ length bytes.now) }
{
    let blank = blanks(bytes);
    let (_, rest) = bytes.split_at(blank);
    match label {
        [] => None,
        [_, ..] => {
            if !label_only(label, rest) {
                return None;
            }
            Some(blank + label.len())
        }
    }
}

// The bytes behind the opening quote of a nowdoc's label.
fn past_quote(bytes: &[u8]) -> &[u8]
    ensures { result.now ≡ behind_quote bytes.now }
{
    let (_, quoted) = bytes.split_at(blanks(bytes));
    match quoted {
        [] => quoted,
        [_, ..] => {
            let (_, label) = quoted.split_at(1);
            label
        }
    }
}

// Whether the first line of a nowdoc begins here, behind `<<<`.
pub fn opens_nowdoc(bytes: &[u8]) -> bool
    ensures { result ≡ begins_nowdoc bytes.now }
{
    let (_, quoted) = bytes.split_at(blanks(bytes));
    if !first_is(39, quoted) {
        return false;
    }
    let label = past_quote(bytes);
    if !first_letter(label) {
        return false;
    }
    let (_, closing) = label.split_at(label_bytes(label));
    match closing {
        [] => false,
        [quote, ..] => {
            let (_, line) = closing.split_at(1);
            *quote == 39 && first_line_end(line)
        }
    }
}

// The length of a text up to the first line that ends the heredoc with the label, with that line's
// blanks and label. A line begins behind the first line end.
#[tactic(auto, using(crate::proofs::Steps::body_step, crate::proofs::Steps::body_stop, crate::proofs::Steps::body_end))]
fn body_length(label: &[u8], bytes: &[u8]) -> Option<usize>
    ensures { result ≡ body_len label.now false bytes.now }
{
    let mut fresh = false;
    for (at, byte) in bytes.iter().enumerate() {
        let (_, here) = bytes.split_at(at);
        let ended = fresh && last_line(label, here);
        if ended {
            return longer_by(at, end_line_length(label, here));
        }
        fresh = line_end(*byte);
    }
    None
}

// So many bytes more.
fn longer_by(n: usize, len: Option<usize>) -> Option<usize>
    requires { IfSome len (λ m. n + m < 2 ^ 64) }
    ensures { result ≡ add_to n len }
{
    match len {
        None => None,
        Some(m) => Some(n + m),
    }
}

// The label of a nowdoc, behind `<<<`.
fn quoted_label(bytes: &[u8]) -> &[u8]
    ensures { result.now ≡ nowdoc_label bytes.now }
{
    let quoted = past_quote(bytes);
    let (label, _) = quoted.split_at(label_bytes(quoted));
    label
}

// The length of a whole nowdoc, behind `<<<`.
pub fn nowdoc_length(bytes: &[u8]) -> Option<usize>
    ensures { result ≡ nowdoc_len bytes.now }
{
    if !opens_nowdoc(bytes) {
        return None;
    }
    let label = quoted_label(bytes);
    let head = blanks(bytes) + label.len() + 2;
    let (_, body) = bytes.split_at(head);
    longer_by(head, body_length(label, body))
}
