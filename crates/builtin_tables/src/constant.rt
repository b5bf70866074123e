// Constants that both versions have with one value, by the lengths of their names.
ghost use Rattle.std.specs.Prelude.{◌≡◌};
ghost use Rattle.builtin_tables.specs.Constants.{constant_named, named_constants, word_constants};
ghost use Rattle.builtin_tables.specs.Named.{found, found_exactly, of_length, rows_of};

use crate::named::{find_exact_row, find_row};

/// The value of a constant.
#[derive(Clone, Copy, Debug, PartialEq, Eq)]
pub enum ConstantValue {
    /// Null.
    Null,
    /// A bool.
    Bool(bool),
    /// An int.
    Int(i64),
    /// The text of a newline.
    LineEnd,
}

static WORDS: [(&str, ConstantValue); 3] = [
    ("true", ConstantValue::Bool(true)),
    ("false", ConstantValue::Bool(false)),
    ("null", ConstantValue::Null),
];

static LENGTH_7: [(&str, ConstantValue); 8] = [
    ("PHP_EOL", ConstantValue::LineEnd),
    ("E_ERROR", ConstantValue::Int(1)),
    ("E_PARSE", ConstantValue::Int(4)),
    ("INI_ALL", ConstantValue::Int(7)),
    ("LOCK_SH", ConstantValue::Int(1)),
    ("LOCK_EX", ConstantValue::Int(2)),
    ("LOCK_UN", ConstantValue::Int(3)),
    ("LOCK_NB", ConstantValue::Int(4)),
];

static LENGTH_8: [(&str, ConstantValue); 8] = [
    ("E_NOTICE", ConstantValue::Int(8)),
    ("E_STRICT", ConstantValue::Int(2048)),
    ("SORT_ASC", ConstantValue::Int(4)),
    ("INI_USER", ConstantValue::Int(1)),
    ("ENT_XML1", ConstantValue::Int(16)),
    ("SEEK_SET", ConstantValue::Int(0)),
    ("SEEK_CUR", ConstantValue::Int(1)),
    ("SEEK_END", ConstantValue::Int(2)),
];

static LENGTH_9: [(&str, ConstantValue); 6] = [
    ("E_WARNING", ConstantValue::Int(2)),
    ("EXTR_SKIP", ConstantValue::Int(1)),
    ("EXTR_REFS", ConstantValue::Int(256)),
    ("SORT_DESC", ConstantValue::Int(3)),
    ("ENT_XHTML", ConstantValue::Int(32)),
    ("ENT_HTML5", ConstantValue::Int(48)),
];

static LENGTH_10: [(&str, ConstantValue); 7] = [
    ("CASE_LOWER", ConstantValue::Int(0)),
    ("CASE_UPPER", ConstantValue::Int(1)),
    ("INI_PERDIR", ConstantValue::Int(2)),
    ("INI_SYSTEM", ConstantValue::Int(4)),
    ("ENT_COMPAT", ConstantValue::Int(2)),
    ("ENT_QUOTES", ConstantValue::Int(3)),
    ("ENT_IGNORE", ConstantValue::Int(4)),
];

static LENGTH_11: [(&str, ConstantValue); 5] = [
    ("PHP_INT_MAX", ConstantValue::Int(i64::MAX)),
    ("PHP_INT_MIN", ConstantValue::Int(i64::MIN)),
    ("SORT_STRING", ConstantValue::Int(2)),
    ("ENT_HTML401", ConstantValue::Int(0)),
    ("FILE_APPEND", ConstantValue::Int(8)),
];

static LENGTH_12: [(&str, ConstantValue); 16] = [
    ("PHP_INT_SIZE", ConstantValue::Int(8)),
    ("E_CORE_ERROR", ConstantValue::Int(16)),
    ("E_USER_ERROR", ConstantValue::Int(256)),
    ("E_DEPRECATED", ConstantValue::Int(8192)),
    ("SORT_REGULAR", ConstantValue::Int(0)),
    ("SORT_NUMERIC", ConstantValue::Int(1)),
    ("SORT_NATURAL", ConstantValue::Int(6)),
    ("COUNT_NORMAL", ConstantValue::Int(0)),
    ("PHP_URL_HOST", ConstantValue::Int(1)),
    ("PHP_URL_PORT", ConstantValue::Int(2)),
    ("PHP_URL_USER", ConstantValue::Int(3)),
    ("PHP_URL_PASS", ConstantValue::Int(4)),
    ("PHP_URL_PATH", ConstantValue::Int(5)),
    ("STR_PAD_LEFT", ConstantValue::Int(0)),
    ("STR_PAD_BOTH", ConstantValue::Int(2)),
    ("ENT_NOQUOTES", ConstantValue::Int(0)),
];

static LENGTH_13: [(&str, ConstantValue); 5] = [
    ("E_USER_NOTICE", ConstantValue::Int(1024)),
    ("UPLOAD_ERR_OK", ConstantValue::Int(0)),
    ("PHP_URL_QUERY", ConstantValue::Int(6)),
    ("STR_PAD_RIGHT", ConstantValue::Int(1)),
    ("HTML_ENTITIES", ConstantValue::Int(1)),
];

static LENGTH_14: [(&str, ConstantValue); 9] = [
    ("E_CORE_WARNING", ConstantValue::Int(32)),
    ("E_USER_WARNING", ConstantValue::Int(512)),
    ("EXTR_OVERWRITE", ConstantValue::Int(0)),
    ("EXTR_IF_EXISTS", ConstantValue::Int(6)),
    ("SORT_FLAG_CASE", ConstantValue::Int(8)),
    ("PHP_URL_SCHEME", ConstantValue::Int(0)),
    ("ENT_SUBSTITUTE", ConstantValue::Int(8)),
    ("ENT_DISALLOWED", ConstantValue::Int(128)),
    ("PREG_SET_ORDER", ConstantValue::Int(2)),
];

static LENGTH_15: [(&str, ConstantValue); 4] = [
    ("E_COMPILE_ERROR", ConstantValue::Int(64)),
    ("EXTR_PREFIX_ALL", ConstantValue::Int(3)),
    ("COUNT_RECURSIVE", ConstantValue::Int(1)),
    ("INI_SCANNER_RAW", ConstantValue::Int(1)),
];

static LENGTH_16: [(&str, ConstantValue); 4] = [
    ("EXTR_PREFIX_SAME", ConstantValue::Int(2)),
    ("PHP_URL_FRAGMENT", ConstantValue::Int(7)),
    ("PATHINFO_DIRNAME", ConstantValue::Int(1)),
    ("PREG_GREP_INVERT", ConstantValue::Int(1)),
];

static LENGTH_17: [(&str, ConstantValue); 11] = [
    ("E_COMPILE_WARNING", ConstantValue::Int(128)),
    ("E_USER_DEPRECATED", ConstantValue::Int(16384)),
    ("CONNECTION_NORMAL", ConstantValue::Int(0)),
    ("INI_SCANNER_TYPED", ConstantValue::Int(2)),
    ("PHP_QUERY_RFC1738", ConstantValue::Int(1)),
    ("PHP_QUERY_RFC3986", ConstantValue::Int(2)),
    ("PHP_ROUND_HALF_UP", ConstantValue::Int(1)),
    ("PATHINFO_BASENAME", ConstantValue::Int(2)),
    ("PATHINFO_FILENAME", ConstantValue::Int(8)),
    ("HTML_SPECIALCHARS", ConstantValue::Int(0)),
    ("SCANDIR_SORT_NONE", ConstantValue::Int(2)),
];

static LENGTH_18: [(&str, ConstantValue); 9] = [
    ("UPLOAD_ERR_PARTIAL", ConstantValue::Int(3)),
    ("UPLOAD_ERR_NO_FILE", ConstantValue::Int(4)),
    ("SORT_LOCALE_STRING", ConstantValue::Int(5)),
    ("CONNECTION_ABORTED", ConstantValue::Int(1)),
    ("CONNECTION_TIMEOUT", ConstantValue::Int(2)),
    ("INI_SCANNER_NORMAL", ConstantValue::Int(0)),
    ("PHP_ROUND_HALF_ODD", ConstantValue::Int(4)),
    ("PATHINFO_EXTENSION", ConstantValue::Int(4)),
    ("PREG_PATTERN_ORDER", ConstantValue::Int(1)),
];

static LENGTH_19: [(&str, ConstantValue); 7] = [
    ("E_RECOVERABLE_ERROR", ConstantValue::Int(4096)),
    ("UPLOAD_ERR_INI_SIZE", ConstantValue::Int(1)),
    ("EXTR_PREFIX_INVALID", ConstantValue::Int(4)),
    ("PHP_ROUND_HALF_DOWN", ConstantValue::Int(2)),
    ("PHP_ROUND_HALF_EVEN", ConstantValue::Int(3)),
    ("PREG_OFFSET_CAPTURE", ConstantValue::Int(256)),
    ("PREG_SPLIT_NO_EMPTY", ConstantValue::Int(1)),
];

static LENGTH_20: [(&str, ConstantValue); 3] = [
    ("UPLOAD_ERR_FORM_SIZE", ConstantValue::Int(2)),
    ("UPLOAD_ERR_EXTENSION", ConstantValue::Int(8)),
    ("ARRAY_FILTER_USE_KEY", ConstantValue::Int(2)),
];

static LENGTH_21: [(&str, ConstantValue); 7] = [
    ("UPLOAD_ERR_NO_TMP_DIR", ConstantValue::Int(6)),
    ("UPLOAD_ERR_CANT_WRITE", ConstantValue::Int(7)),
    ("EXTR_PREFIX_IF_EXISTS", ConstantValue::Int(5)),
    ("ARRAY_FILTER_USE_BOTH", ConstantValue::Int(1)),
    ("FILE_USE_INCLUDE_PATH", ConstantValue::Int(1)),
    ("FILE_IGNORE_NEW_LINES", ConstantValue::Int(2)),
    ("FILE_SKIP_EMPTY_LINES", ConstantValue::Int(4)),
];

static LENGTH_22: [(&str, ConstantValue); 2] = [
    ("SCANDIR_SORT_ASCENDING", ConstantValue::Int(0)),
    ("PREG_UNMATCHED_AS_NULL", ConstantValue::Int(512)),
];

static LENGTH_23: [(&str, ConstantValue); 2] = [
    ("FILE_NO_DEFAULT_CONTEXT", ConstantValue::Int(16)),
    ("SCANDIR_SORT_DESCENDING", ConstantValue::Int(1)),
];

static LENGTH_24: [(&str, ConstantValue); 1] = [(
    "PREG_SPLIT_DELIM_CAPTURE",
    ConstantValue::Int(2),
)];

static LENGTH_25: [(&str, ConstantValue); 1] = [(
    "PREG_SPLIT_OFFSET_CAPTURE",
    ConstantValue::Int(4),
)];

static LENGTH_27: [(&str, ConstantValue); 1] = [(
    "DEBUG_BACKTRACE_IGNORE_ARGS",
    ConstantValue::Int(2),
)];

static LENGTH_30: [(&str, ConstantValue); 1] = [(
    "DEBUG_BACKTRACE_PROVIDE_OBJECT",
    ConstantValue::Int(1),
)];

// The constants whose names have a length.
#[tactic(auto, unfolding(crate::specs::Constants::named_constants))]
fn rows_of_length(length: usize) -> &'static [(&'static str, ConstantValue)]
    ensures { rows_of result.now ≡ of_length length named_constants }
{
    match length {
        7 => &LENGTH_7,
        8 => &LENGTH_8,
        9 => &LENGTH_9,
        10 => &LENGTH_10,
        11 => &LENGTH_11,
        12 => &LENGTH_12,
        13 => &LENGTH_13,
        14 => &LENGTH_14,
        15 => &LENGTH_15,
        16 => &LENGTH_16,
        17 => &LENGTH_17,
        18 => &LENGTH_18,
        19 => &LENGTH_19,
        20 => &LENGTH_20,
        21 => &LENGTH_21,
        22 => &LENGTH_22,
        23 => &LENGTH_23,
        24 => &LENGTH_24,
        25 => &LENGTH_25,
        27 => &LENGTH_27,
        30 => &LENGTH_30,
        _ => &[],
    }
}

// The value of the constant of a name, with case.
#[tactic(auto, using(crate::proofs::LengthLemmas::found_exactly_in_length))]
fn named_constant(name: &[u8]) -> Option<ConstantValue>
    ensures { result ≡ found_exactly named_constants name.now }
{
    find_exact_row(rows_of_length(name.len()), name)
}

// The value of a constant that is a word of the language.
#[tactic(auto, unfolding(crate::specs::Constants::word_constants))]
fn word_constant(name: &[u8]) -> Option<ConstantValue>
    ensures { result ≡ found word_constants name.now }
{
    find_row(&WORDS, name)
}

/// The value of the constant of a name without a `\\`, or `None` where it is none that both versions have with one
/// value. `true`, `false` and `null` are told apart without case, all others with case. `E_ALL`, `PHP_VERSION` and
/// what a build or a machine decides are none of them. (PHP manual, "Predefined Constants".)
pub fn builtin_constant(name: &[u8]) -> Option<ConstantValue>
    ensures { result ≡ constant_named name.now }
{
    match word_constant(name) {
        Some(value) => Some(value),
        None => named_constant(name),
    }
}
