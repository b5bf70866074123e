// The keywords.
ghost use Rattle.std.specs.Prelude.{◌≡◌, ◌∷◌, []};
ghost use Rattle.php_spellings.specs.Words.{keywords, words_by, is_word, is_word_of, is_keyword};

use crate::classes::{lower, starts_word};

// Whether the text is the word, without ASCII case.
fn same(word: &[u8], text: &[u8]) -> bool
    ensures { result ≡ is_word word.now text.now }
{
    word.len() == text.len() && starts_word(word, text)
}

fn on_a(text: &[u8]) -> bool
    ensures { result ≡ is_word_of (words_by 97 keywords) text.now }
{
    same(b"abstract", text) || same(b"and", text) || same(b"array", text) || same(b"as", text)
}

fn on_b(text: &[u8]) -> bool
    ensures { result ≡ is_word_of (words_by 98 keywords) text.now }
{
    same(b"break", text)
}

fn on_c(text: &[u8]) -> bool
    ensures { result ≡ is_word_of (words_by 99 keywords) text.now }
{
    same(b"callable", text)
        || same(b"case", text)
        || same(b"catch", text)
        || same(b"class", text)
        || same(b"clone", text)
        || same(b"const", text)
        || same(b"continue", text)
}

fn on_d(text: &[u8]) -> bool
    ensures { result ≡ is_word_of (words_by 100 keywords) text.now }
{
    same(b"declare", text) || same(b"default", text) || same(b"die", text) || same(b"do", text)
}

fn on_e(text: &[u8]) -> bool
    ensures { result ≡ is_word_of (words_by 101 keywords) text.now }
{
    same(b"echo", text)
        || same(b"else", text)
        || same(b"elseif", text)
        || same(b"empty", text)
        || same(b"enddeclare", text)
        || same(b"endfor", text)
        || same(b"endforeach", text)
        || same(b"endif", text)
        || same(b"endswitch", text)
        || same(b"endwhile", text)
        || same(b"eval", text)
        || same(b"exit", text)
        || same(b"extends", text)
}

fn on_f(text: &[u8]) -> bool
    ensures { result ≡ is_word_of (words_by 102 keywords) text.now }
{
    same(b"final", text)
        || same(b"finally", text)
        || same(b"fn", text)
        || same(b"for", text)
        || same(b"foreach", text)
        || same(b"function", text)
}

fn on_g(text: &[u8]) -> bool
    ensures { result ≡ is_word_of (words_by 103 keywords) text.now }
{
    same(b"global", text) || same(b"goto", text)
}

fn on_i(text: &[u8]) -> bool
    ensures { result ≡ is_word_of (words_by 105 keywords) text.now }
{
    same(b"if", text)
        || same(b"implements", text)
        || same(b"include", text)
        || same(b"include_once", text)
        || same(b"instanceof", text)
        || same(b"insteadof", text)
        || same(b"interface", text)
        || same(b"isset", text)
}

fn on_l(text: &[u8]) -> bool
    ensures { result ≡ is_word_of (words_by 108 keywords) text.now }
{
    same(b"list", text)
}

fn on_n(text: &[u8]) -> bool
    ensures { result ≡ is_word_of (words_by 110 keywords) text.now }
{
    same(b"namespace", text) || same(b"new", text)
}

fn on_o(text: &[u8]) -> bool
    ensures { result ≡ is_word_of (words_by 111 keywords) text.now }
{
    same(b"or", text)
}

fn on_p(text: &[u8]) -> bool
    ensures { result ≡ is_word_of (words_by 112 keywords) text.now }
{
    same(b"print", text)
        || same(b"private", text)
        || same(b"protected", text)
        || same(b"public", text)
}

fn on_r(text: &[u8]) -> bool
    ensures { result ≡ is_word_of (words_by 114 keywords) text.now }
{
    same(b"require", text) || same(b"require_once", text) || same(b"return", text)
}

fn on_s(text: &[u8]) -> bool
    ensures { result ≡ is_word_of (words_by 115 keywords) text.now }
{
    same(b"static", text) || same(b"switch", text)
}

fn on_t(text: &[u8]) -> bool
    ensures { result ≡ is_word_of (words_by 116 keywords) text.now }
{
    same(b"throw", text) || same(b"trait", text) || same(b"try", text)
}

fn on_u(text: &[u8]) -> bool
    ensures { result ≡ is_word_of (words_by 117 keywords) text.now }
{
    same(b"unset", text) || same(b"use", text)
}

fn on_v(text: &[u8]) -> bool
    ensures { result ≡ is_word_of (words_by 118 keywords) text.now }
{
    same(b"var", text)
}

fn on_w(text: &[u8]) -> bool
    ensures { result ≡ is_word_of (words_by 119 keywords) text.now }
{
    same(b"while", text)
}

fn on_x(text: &[u8]) -> bool
    ensures { result ≡ is_word_of (words_by 120 keywords) text.now }
{
    same(b"xor", text)
}

fn on_y(text: &[u8]) -> bool
    ensures { result ≡ is_word_of (words_by 121 keywords) text.now }
{
    same(b"yield", text)
}

fn on_line(text: &[u8]) -> bool
    ensures { result ≡ is_word_of (words_by 95 keywords) text.now }
{
    same(b"__halt_compiler", text)
}

// Whether the text is a keyword that begins with the letter.
fn keyword_on(letter: u8, text: &[u8]) -> bool
    ensures { result ≡ is_word_of (words_by letter keywords) text.now }
{
    match letter {
        95 => on_line(text),
        97 => on_a(text),
        98 => on_b(text),
        99 => on_c(text),
        100 => on_d(text),
        101 => on_e(text),
        102 => on_f(text),
        103 => on_g(text),
        105 => on_i(text),
        108 => on_l(text),
        110 => on_n(text),
        111 => on_o(text),
        112 => on_p(text),
        114 => on_r(text),
        115 => on_s(text),
        116 => on_t(text),
        117 => on_u(text),
        118 => on_v(text),
        119 => on_w(text),
        120 => on_x(text),
        121 => on_y(text),
        _ => false,
    }
}

/// Whether the text is a keyword.
pub fn keyword(text: &[u8]) -> bool
    ensures { result ≡ is_keyword text.now }
{
    match text {
        [] => false,
        [first, ..] => keyword_on(lower(*first), text),
    }
}
