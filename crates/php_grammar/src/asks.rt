// What a form asks of a token.
ghost use Rattle.std.specs.Prelude.{◌≡◌};
ghost use Rattle.php_terminals.specs.Marked.{IsMark, token_at};
ghost use Rattle.php_grammar.specs.Accepts.{accepts, in_set, is_class_label, is_free_label, is_function_label, same_class};

use crate::levels::binary_level;
use php_terminals::classify::{
    is_any_label, is_attribute_by, is_called_label, is_class, is_constant_label, is_full,
    is_modifier, is_plain_label, is_qualified, is_relative, is_sign_or_tight, is_word_kind,
    names_refused,
};
use php_terminals::mark::Mark;
use php_terminals::marked::text_of;
use php_terminals::terminal::{Terminal, code};
use php_tree::{TokenKind, Version};

// A label that a constant, an alias, a goto or a directive may have, and a name alone.
fn is_free_label(version: Version, class: Terminal) -> bool
    ensures { result ≡ is_free_label version class }
{
    match version {
        Version::V74 => is_any_label(class),
        Version::V83 => is_constant_label(class),
    }
}

// A label that a function may have.
fn is_function_label(version: Version, class: Terminal) -> bool
    ensures { result ≡ is_function_label version class }
{
    match version {
        Version::V74 => is_any_label(class),
        Version::V83 => is_called_label(class),
    }
}

// A label that a class, an interface or a trait may have.
fn is_class_label(version: Version, class: Terminal) -> bool
    ensures { result ≡ is_class_label version class }
{
    match version {
        Version::V74 => is_any_label(class),
        Version::V83 => is_plain_label(class),
    }
}

// The same class.
fn same_class(one: Terminal, other: Terminal) -> bool
    ensures { result ≡ same_class one other }
{
    code(one) == code(other)
}

// Whether a token at some places is of a class that stands for several.
fn in_set(version: Version, asked: Terminal, bytes: &[u8], mark: Mark) -> bool
    requires { IsMark bytes.now mark }
    ensures { result ≡ in_set version asked mark.class (token_at bytes.now mark) }
{
    let class = mark.class;
    match asked {
        Terminal::AnyLabel => is_any_label(class),
        Terminal::FreeLabel => is_free_label(version, class),
        Terminal::FunctionLabel => is_function_label(version, class),
        Terminal::ClassLabel => is_class_label(version, class),
        Terminal::NameToken => is_free_label(version, class)
            || is_qualified(class)
            || is_full(class)
            || is_relative(class),
        Terminal::CalledName => is_function_label(version, class)
            || is_qualified(class)
            || is_full(class)
            || is_relative(class),
        Terminal::NamespaceToken => is_any_label(class) || is_qualified(class),
        Terminal::ImportedName => is_free_label(version, class)
            || is_qualified(class)
            || is_full(class),
        Terminal::ImportedClass => is_class_label(version, class)
            || (is_qualified(class) || is_full(class)) && !names_refused(text_of(bytes, mark)),
        Terminal::GroupedName => is_free_label(version, class) || is_qualified(class),
        Terminal::GroupedClass => is_class_label(version, class)
            || is_qualified(class) && !names_refused(text_of(bytes, mark)),
        Terminal::AttributeName => is_attribute_by(mark.kind, text_of(bytes, mark)),
        Terminal::AnyWord => is_word_kind(mark.kind),
        Terminal::ConstantWord => is_word_kind(mark.kind) && !is_class(class),
        Terminal::Modifier => is_modifier(class),
        Terminal::BinaryOperator => binary_level(version, class) > 0,
        Terminal::SignOrTight => is_sign_or_tight(class),
        _ => false,
    }
}

/// Whether the token at some places is of the class that a form asks for.
pub fn accepts(version: Version, asked: Terminal, bytes: &[u8], mark: Mark) -> bool
    requires { IsMark bytes.now mark }
    ensures { result ≡ accepts version asked (token_at bytes.now mark) }
{
    in_set(version, asked, bytes, mark) || same_class(asked, mark.class)
}
