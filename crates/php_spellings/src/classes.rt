// Classes of bytes, and how bytes begin.
ghost use Rattle.std.specs.Prelude.{◌≡◌, ◌≤◌, length, nat_eq, IsTrue};
ghost use Rattle.php_spellings.specs.Bytes.{is_blank_byte, is_line_end, is_space, is_digit, is_letter, is_label_byte, lower, starts, starts_word, begins, begins_by, blanks_len, label_len};

pub fn blank_byte(byte: u8) -> bool
    ensures { result ≡ is_blank_byte byte }
{
    byte == 32 || byte == 9
}

pub fn line_end(byte: u8) -> bool
    ensures { result ≡ is_line_end byte }
{
    byte == 10 || byte == 13
}

pub fn space(byte: u8) -> bool
    ensures { result ≡ is_space byte }
{
    blank_byte(byte) || line_end(byte)
}

pub fn digit(byte: u8) -> bool
    ensures { result ≡ is_digit byte }
{
    48 <= byte && byte <= 57
}

pub fn letter(byte: u8) -> bool
    ensures { result ≡ is_letter byte }
{
    65 <= byte && byte <= 90 || 97 <= byte && byte <= 122 || byte == 95 || 128 <= byte
}

pub fn label_byte(byte: u8) -> bool
    ensures { result ≡ is_label_byte byte }
{
    letter(byte) || digit(byte)
}

pub fn lower(byte: u8) -> u8
    ensures { result ≡ lower byte }
{
    if 65 <= byte && byte <= 90 {
        byte + 32
    } else {
        byte
    }
}

// Whether the bytes begin with these.
#[tactic(auto, using(crate::proofs::StartLemmas::starts_step, crate::proofs::StartLemmas::starts_short, crate::proofs::StartLemmas::starts_differ, crate::proofs::StartLemmas::starts_end))]
pub fn starts_with(word: &[u8], bytes: &[u8]) -> bool
    ensures { result ≡ starts word.now bytes.now }
{
    for (at, byte) in word.iter().enumerate() {
        if at >= bytes.len() {
            return false;
        }
        let same = *byte == bytes[at];
        if !same {
            return false;
        }
    }
    true
}

// Whether the bytes begin with a word, without ASCII case; the word is in lower case.
#[tactic(auto, using(crate::proofs::StartLemmas::word_step, crate::proofs::StartLemmas::word_short, crate::proofs::StartLemmas::word_differ, crate::proofs::StartLemmas::word_end))]
pub fn starts_word(word: &[u8], bytes: &[u8]) -> bool
    ensures { result ≡ starts_word word.now bytes.now }
{
    for (at, byte) in word.iter().enumerate() {
        if at >= bytes.len() {
            return false;
        }
        let same = *byte == lower(bytes[at]);
        if !same {
            return false;
        }
    }
    true
}

pub fn first_is(byte: u8, bytes: &[u8]) -> bool
    ensures { result ≡ begins_by byte bytes.now }
{
    match bytes {
        [] => false,
        [next, ..] => *next == byte,
    }
}

pub fn first_letter(bytes: &[u8]) -> bool
    ensures { result ≡ begins is_letter bytes.now }
{
    match bytes {
        [] => false,
        [next, ..] => letter(*next),
    }
}

pub fn first_line_end(bytes: &[u8]) -> bool
    ensures { result ≡ begins is_line_end bytes.now }
{
    match bytes {
        [] => false,
        [next, ..] => line_end(*next),
    }
}

pub fn first_space(bytes: &[u8]) -> bool
    ensures { result ≡ begins is_space bytes.now }
{
    match bytes {
        [] => false,
        [next, ..] => space(*next),
    }
}

// How many blanks the bytes begin with.
pub fn blanks(bytes: &[u8]) -> usize
    ensures count { result ≡ blanks_len bytes.now }
    ensures within { result ≤ length bytes.now }
{
    bytes.iter().take_while(|b| blank_byte(**b)).count()
}

// How many bytes of labels the bytes begin with.
pub fn label_bytes(bytes: &[u8]) -> usize
    ensures count { result ≡ label_len bytes.now }
    ensures within { result ≤ length bytes.now }
{
    bytes.iter().take_while(|b| label_byte(**b)).count()
}
