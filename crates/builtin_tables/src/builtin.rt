// The builtin functions of the profile.
ghost use Rattle.std.specs.Prelude.{◌≡◌};
ghost use Rattle.builtin_tables.specs.Builtins.{builtin_rows, row_of};
ghost use Rattle.builtin_tables.specs.Named.{found, of_length, rows_of};

use crate::kinds::{ArgumentKind, Change, ResultKind};
use crate::named::find_row;

/// The builtin functions of the profile, in the order of their table.
#[derive(Clone, Copy, Debug, PartialEq, Eq)]
pub enum Builtin {
    /// `strlen`.
    Strlen,
    /// `count`.
    Count,
    /// `substr`.
    Substr,
    /// `strpos`.
    Strpos,
    /// `implode`.
    Implode,
    /// `join`, another name of `implode`.
    Join,
    /// `explode`.
    Explode,
    /// `str_repeat`.
    StrRepeat,
    /// `str_replace`.
    StrReplace,
    /// `trim`.
    Trim,
    /// `chr`.
    Chr,
    /// `ord`.
    Ord,
    /// `intval`.
    Intval,
    /// `intdiv`.
    Intdiv,
    /// `is_int`.
    IsInt,
    /// `is_string`.
    IsString,
    /// `is_array`.
    IsArray,
    /// `is_null`.
    IsNull,
    /// `is_bool`.
    IsBool,
    /// `is_float`.
    IsFloat,
    /// `is_real`, which 8.0 removed.
    IsReal,
    /// `array_keys`.
    ArrayKeys,
    /// `array_values`.
    ArrayValues,
    /// `array_key_exists`.
    ArrayKeyExists,
    /// `get_class` without arguments.
    GetClass,
    /// `define`.
    Define,
    /// `get_magic_quotes_gpc`, which 8.0 removed.
    GetMagicQuotesGpc,
    /// `get_magic_quotes_runtime`, which 8.0 removed.
    GetMagicQuotesRuntime,
}

/// A row of the table of builtins.
#[derive(Clone, Copy)]
pub struct BuiltinRow {
    /// The name, in lower case.
    pub name: &'static str,
    /// The kinds of the arguments, in order.
    pub arguments: &'static [ArgumentKind],
    /// How many of them must be given, from the first one on.
    pub required: usize,
    /// What a call comes to.
    pub value: ResultKind,
    /// What 8.3 does otherwise.
    pub change: Change,
}

static TEXT: [ArgumentKind; 1] = [ArgumentKind::Text];

static ARRAY: [ArgumentKind; 1] = [ArgumentKind::Array];

static TEXT_INT_INT: [ArgumentKind; 3] = [ArgumentKind::Text, ArgumentKind::Int, ArgumentKind::Int];

static TEXT_TEXT_OR_INT: [ArgumentKind; 2] = [ArgumentKind::Text, ArgumentKind::TextOrInt];

static TEXT_SCALAR_ARRAY: [ArgumentKind; 2] = [ArgumentKind::Text, ArgumentKind::ScalarArray];

static TEXT_TEXT: [ArgumentKind; 2] = [ArgumentKind::Text, ArgumentKind::Text];

static TEXT_INT: [ArgumentKind; 2] = [ArgumentKind::Text, ArgumentKind::Int];

static TEXT_TEXT_TEXT: [ArgumentKind; 3] = [
    ArgumentKind::Text,
    ArgumentKind::Text,
    ArgumentKind::Text,
];

static INT: [ArgumentKind; 1] = [ArgumentKind::Int];

static SCALAR: [ArgumentKind; 1] = [ArgumentKind::Scalar];

static INT_INT: [ArgumentKind; 2] = [ArgumentKind::Int, ArgumentKind::Int];

static ANY: [ArgumentKind; 1] = [ArgumentKind::Any];

static TEXT_OR_INT_ARRAY: [ArgumentKind; 2] = [ArgumentKind::TextOrInt, ArgumentKind::Array];

static NOTHING: [ArgumentKind; 0] = [];

static TEXT_SCALAR_BOOL: [ArgumentKind; 3] = [
    ArgumentKind::Text,
    ArgumentKind::Scalar,
    ArgumentKind::Bool,
];

impl Builtin {
    /// The row of the builtin.
    pub fn row(self) -> BuiltinRow
        ensures name { result.name.now ≡ (row_of self).name }
        ensures arguments { result.arguments.now ≡ (row_of self).arguments }
        ensures required { result.required ≡ (row_of self).required }
        ensures value { result.value ≡ (row_of self).value }
        ensures change { result.change ≡ (row_of self).change }
    {
        match self {
            Builtin::Strlen => row("strlen", &TEXT, 1, ResultKind::Int, Change::Same),
            Builtin::Count => row("count", &ARRAY, 1, ResultKind::Int, Change::Same),
            Builtin::Substr => row(
                "substr",
                &TEXT_INT_INT,
                2,
                ResultKind::TextOrFalse,
                Change::PastEnd,
            ),
            Builtin::Strpos => row(
                "strpos",
                &TEXT_TEXT_OR_INT,
                2,
                ResultKind::IntOrFalse,
                Change::Needle,
            ),
            Builtin::Implode => row(
                "implode",
                &TEXT_SCALAR_ARRAY,
                2,
                ResultKind::Text,
                Change::Exchanged,
            ),
            Builtin::Join => row(
                "join",
                &TEXT_SCALAR_ARRAY,
                2,
                ResultKind::Text,
                Change::Exchanged,
            ),
            Builtin::Explode => row("explode", &TEXT_TEXT, 2, ResultKind::TextList, Change::Same),
            Builtin::StrRepeat => row("str_repeat", &TEXT_INT, 2, ResultKind::Text, Change::Same),
            Builtin::StrReplace => row(
                "str_replace",
                &TEXT_TEXT_TEXT,
                3,
                ResultKind::Text,
                Change::Same,
            ),
            Builtin::Trim => row("trim", &TEXT, 1, ResultKind::Text, Change::Same),
            Builtin::Chr => row("chr", &INT, 1, ResultKind::Byte, Change::Same),
            Builtin::Ord => row("ord", &TEXT, 1, ResultKind::Int, Change::Same),
            Builtin::Intval => row("intval", &SCALAR, 1, ResultKind::Int, Change::Same),
            Builtin::Intdiv => row("intdiv", &INT_INT, 2, ResultKind::Int, Change::Same),
            Builtin::IsInt => row("is_int", &ANY, 1, ResultKind::Bool, Change::Same),
            Builtin::IsString => row("is_string", &ANY, 1, ResultKind::Bool, Change::Same),
            Builtin::IsArray => row("is_array", &ANY, 1, ResultKind::Bool, Change::Same),
            Builtin::IsNull => row("is_null", &ANY, 1, ResultKind::Bool, Change::Same),
            Builtin::IsBool => row("is_bool", &ANY, 1, ResultKind::Bool, Change::Same),
            Builtin::IsFloat => row("is_float", &ANY, 1, ResultKind::False, Change::Same),
            Builtin::IsReal => row("is_real", &ANY, 1, ResultKind::False, Change::Removed),
            Builtin::ArrayKeys => row("array_keys", &ARRAY, 1, ResultKind::KeyList, Change::Same),
            Builtin::ArrayValues => row(
                "array_values",
                &ARRAY,
                1,
                ResultKind::ValueList,
                Change::Same,
            ),
            Builtin::ArrayKeyExists => row(
                "array_key_exists",
                &TEXT_OR_INT_ARRAY,
                2,
                ResultKind::Bool,
                Change::Same,
            ),
            Builtin::GetClass => row(
                "get_class",
                &NOTHING,
                0,
                ResultKind::ClassName,
                Change::Same,
            ),
            Builtin::Define => row(
                "define",
                &TEXT_SCALAR_BOOL,
                2,
                ResultKind::Bool,
                Change::ConstantCase,
            ),
            Builtin::GetMagicQuotesGpc => row(
                "get_magic_quotes_gpc",
                &NOTHING,
                0,
                ResultKind::False,
                Change::Removed,
            ),
            Builtin::GetMagicQuotesRuntime => row(
                "get_magic_quotes_runtime",
                &NOTHING,
                0,
                ResultKind::False,
                Change::Removed,
            ),
        }
    }

    /// The builtin of a name, without ASCII case, or `None` exactly where no builtin of the profile has it.
    #[tactic(auto, using(crate::proofs::LengthLemmas::found_in_length))]
    pub fn named(name: &[u8]) -> Option<Builtin>
        ensures { result ≡ found builtin_rows name.now }
    {
        find_row(rows_of_length(name.len()), name)
    }
}

fn row(
    name: &'static str,
    arguments: &'static [ArgumentKind],
    required: usize,
    value: ResultKind,
    change: Change,
) -> BuiltinRow
    ensures name { result.name.now ≡ name.now }
    ensures arguments { result.arguments.now ≡ arguments.now }
    ensures required { result.required ≡ required }
    ensures value { result.value ≡ value }
    ensures change { result.change ≡ change }
{
    BuiltinRow {
        name,
        arguments,
        required,
        value,
        change,
    }
}

static LENGTH_3: [(&str, Builtin); 2] = [("chr", Builtin::Chr), ("ord", Builtin::Ord)];

static LENGTH_4: [(&str, Builtin); 2] = [("join", Builtin::Join), ("trim", Builtin::Trim)];

static LENGTH_5: [(&str, Builtin); 1] = [("count", Builtin::Count)];

static LENGTH_6: [(&str, Builtin); 7] = [
    ("strlen", Builtin::Strlen),
    ("substr", Builtin::Substr),
    ("strpos", Builtin::Strpos),
    ("intval", Builtin::Intval),
    ("intdiv", Builtin::Intdiv),
    ("is_int", Builtin::IsInt),
    ("define", Builtin::Define),
];

static LENGTH_7: [(&str, Builtin); 5] = [
    ("implode", Builtin::Implode),
    ("explode", Builtin::Explode),
    ("is_null", Builtin::IsNull),
    ("is_bool", Builtin::IsBool),
    ("is_real", Builtin::IsReal),
];

static LENGTH_8: [(&str, Builtin); 2] = [
    ("is_array", Builtin::IsArray),
    ("is_float", Builtin::IsFloat),
];

static LENGTH_9: [(&str, Builtin); 2] = [
    ("is_string", Builtin::IsString),
    ("get_class", Builtin::GetClass),
];

static LENGTH_10: [(&str, Builtin); 2] = [
    ("str_repeat", Builtin::StrRepeat),
    ("array_keys", Builtin::ArrayKeys),
];

static LENGTH_11: [(&str, Builtin); 1] = [("str_replace", Builtin::StrReplace)];

static LENGTH_12: [(&str, Builtin); 1] = [("array_values", Builtin::ArrayValues)];

static LENGTH_16: [(&str, Builtin); 1] = [("array_key_exists", Builtin::ArrayKeyExists)];

static LENGTH_20: [(&str, Builtin); 1] = [("get_magic_quotes_gpc", Builtin::GetMagicQuotesGpc)];

static LENGTH_24: [(&str, Builtin); 1] = [(
    "get_magic_quotes_runtime",
    Builtin::GetMagicQuotesRuntime,
)];

// The builtins whose names have a length.
#[tactic(auto, unfolding(crate::specs::Builtins::builtin_rows))]
fn rows_of_length(length: usize) -> &'static [(&'static str, Builtin)]
    ensures { rows_of result.now ≡ of_length length builtin_rows }
{
    match length {
        3 => &LENGTH_3,
        4 => &LENGTH_4,
        5 => &LENGTH_5,
        6 => &LENGTH_6,
        7 => &LENGTH_7,
        8 => &LENGTH_8,
        9 => &LENGTH_9,
        10 => &LENGTH_10,
        11 => &LENGTH_11,
        12 => &LENGTH_12,
        16 => &LENGTH_16,
        20 => &LENGTH_20,
        24 => &LENGTH_24,
        _ => &[],
    }
}
