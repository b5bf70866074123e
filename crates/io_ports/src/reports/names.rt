// The names of codes and causes.
ghost use Rattle.std.specs.Prelude.{◌≡◌, IfOk, map, string_bytes};
ghost use Rattle.std.specs.Option.{option_copied};
ghost use Rattle.io_ports.specs.Names.{name_of, code_names, cause_names, code_text, cause_text};

use std::alloc::{AllocError, Global};

static CODES: [(u16, &str); 47] = [
    (1, "nested-ternary"),
    (2, "dot-precedence"),
    (3, "brace-offset"),
    (4, "real-cast"),
    (5, "unset-cast"),
    (6, "hash-comment"),
    (7, "split-name"),
    (8, "dollar-brace"),
    (9, "reserved-name"),
    (10, "loose-compare"),
    (11, "word-arithmetic"),
    (12, "next-key"),
    (13, "old-constructor"),
    (14, "inherited-static"),
    (15, "dynamic-property"),
    (16, "get-class"),
    (17, "static-call"),
    (18, "bare-constant"),
    (19, "removed-call"),
    (20, "implode-order"),
    (21, "substr-false"),
    (22, "strpos-needle"),
    (98, "nullsafe-text"),
    (99, "static-twice"),
    (100, "parent"),
    (101, "float"),
    (102, "eval"),
    (103, "variable-variable"),
    (104, "include"),
    (105, "handler"),
    (106, "magic"),
    (107, "generator"),
    (108, "closure"),
    (109, "goto"),
    (110, "trait"),
    (111, "foreach-object"),
    (112, "text-offset-write"),
    (113, "ticks"),
    (114, "unknown-call"),
    (115, "unknown-class"),
    (116, "unknown-constant"),
    (117, "argument"),
    (118, "override"),
    (119, "other-form"),
    (120, "declared-type"),
    (121, "magic-constant"),
    (122, "builtin-name"),
];

static CAUSES: [(u16, &str); 8] = [
    (1, "off"),
    (2, "types"),
    (3, "order"),
    (4, "called"),
    (5, "dynamic"),
    (6, "shape"),
    (7, "namespace"),
    (8, "always"),
];

// The name beside a number.
fn name_in(rows: &'static [(u16, &'static str)], number: u16) -> Option<&'static str>
    ensures { option_copied result ≡ name_of number (map (λ r. (r.0, r.1.now)) rows.now) }
{
    for row in rows {
        if row.0 == number {
            return Some(row.1);
        }
    }
    None
}

/// The name of a rule, 1 to 22, or of a form outside, 98 to 122. No other number has one.
pub fn code_name(code: u16) -> Option<&'static str>
    ensures { option_copied result ≡ name_of code code_names }
{
    name_in(CODES.as_slice(), code)
}

/// The name of a cause, 1 to 8. No other number has one.
pub fn cause_name(cause: u16) -> Option<&'static str>
    ensures { option_copied result ≡ name_of cause cause_names }
{
    name_in(CAUSES.as_slice(), cause)
}

/// The name of a code, or its decimal number where it has none.
#[tactic(auto, unfolding(crate::specs::Names::code_text))]
pub fn text_of_code(alloc: Global, code: u16) -> Result<String, AllocError>
    ensures { IfOk result (λ s. string_bytes s ≡ code_text code) }
{
    match code_name(code) {
        Some(name) => String::from_str(alloc, name),
        None => format!(in alloc; "{code}"),
    }
}

/// The name of a cause, or its decimal number where it has none.
#[tactic(auto, unfolding(crate::specs::Names::cause_text))]
pub fn text_of_cause(alloc: Global, cause: u16) -> Result<String, AllocError>
    ensures { IfOk result (λ s. string_bytes s ≡ cause_text cause) }
{
    match cause_name(cause) {
        Some(name) => String::from_str(alloc, name),
        None => format!(in alloc; "{cause}"),
    }
}
