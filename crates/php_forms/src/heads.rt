// How statements and members begin.
ghost use Rattle.std.specs.Prelude.{◌≡◌, drop};
ghost use Rattle.php_terminals.specs.Ahead.{first_of, second_of, third_of};
ghost use Rattle.php_terminals.specs.Tokens.{tokens_in};
ghost use Rattle.php_forms.specs.Forms.{form_view};
ghost use Rattle.php_forms.specs.Heads.{attribute, behind_modifiers, case_form, chosen_form, function_form, if_form, label_form, member_form, modified_form, modifiers_len, namespace_form, statement_form, static_form, trait_use_form};

use crate::declarations::{ATTRIBUTE, CLASS_CONST, METHOD, PROPERTY, TRAIT_USE};
use crate::forms::or_else;
use crate::item::{Form, Item, NOTHING};
use crate::statements::{
    CASE, DEFAULT, EXPR_STMT, FUNCTION, IF, IF_ALT, LABEL, NAMESPACE, STATICS, simple_form,
};
use php_terminals::classify::{is_any_label, is_modifier};
use php_terminals::terminal::Terminal;
use php_terminals::tokens::Tokens;
use php_tree::{NodeKind, Version};

// An `if`, by what stands behind its condition.
fn if_form(behind_condition: Terminal) -> Form
    ensures { (result.0, result.1.now) ≡ if_form behind_condition }
{
    match behind_condition {
        Terminal::Colon => (NodeKind::IfAlt, &IF_ALT),
        _ => (NodeKind::If, &IF),
    }
}

// What begins with `static`.
fn static_form(second: Terminal) -> Form
    ensures { (result.0, result.1.now) ≡ static_form second }
{
    match second {
        Terminal::Variable => (NodeKind::Statics, &STATICS),
        _ => (NodeKind::ExprStmt, &EXPR_STMT),
    }
}

// What begins with `function`: a function where a name follows, else a closure.
fn function_form(second: Terminal, third: Terminal) -> Form
    ensures { (result.0, result.1.now) ≡ function_form second third }
{
    let name = match second {
        Terminal::Ampersand => third,
        _ => second,
    };
    if is_any_label(name) {
        (NodeKind::Function, &FUNCTION)
    } else {
        (NodeKind::ExprStmt, &EXPR_STMT)
    }
}

// What begins with `namespace`.
fn namespace_form(second: Terminal) -> Form
    ensures { (result.0, result.1.now) ≡ namespace_form second }
{
    match second {
        Terminal::Backslash => (NodeKind::ExprStmt, &EXPR_STMT),
        _ => (NodeKind::Namespace, &NAMESPACE),
    }
}

// What begins with a label.
fn label_form(second: Terminal) -> Form
    ensures { (result.0, result.1.now) ≡ label_form second }
{
    match second {
        Terminal::Colon => (NodeKind::LabelStmt, &LABEL),
        _ => (NodeKind::ExprStmt, &EXPR_STMT),
    }
}

// The form of a statement that its first token doesn't settle.
fn chosen_form(tokens: Tokens<'_>) -> Option<Form>
    ensures { form_view result ≡ chosen_form (tokens_in tokens.entry) }
{
    match tokens.first() {
        Terminal::If => Some(if_form(tokens.behind(1).past_group())),
        Terminal::Static => Some(static_form(tokens.second())),
        Terminal::Function => Some(function_form(tokens.second(), tokens.third())),
        Terminal::Namespace => Some(namespace_form(tokens.second())),
        Terminal::Label => Some(label_form(tokens.second())),
        Terminal::Match => Some(label_form(tokens.second())),
        Terminal::Readonly => Some(label_form(tokens.second())),
        Terminal::MixedOrNever => Some(label_form(tokens.second())),
        _ => None,
    }
}

/// The form of the statement that begins here.
pub fn statement_form(tokens: Tokens<'_>) -> Option<Form>
    ensures { form_view result ≡ statement_form (tokens_in tokens.entry) }
{
    or_else(chosen_form(tokens), Some(simple_form(tokens.first())))
}

/// The form of a case.
pub fn case_form(first: Terminal) -> Option<Form>
    ensures { form_view result ≡ case_form first }
{
    match first {
        Terminal::Case => Some((NodeKind::Case, &CASE)),
        Terminal::Default => Some((NodeKind::Case, &DEFAULT)),
        _ => None,
    }
}

// How many modifiers there are here.
fn modifiers_len(tokens: Tokens<'_>) -> usize
    ensures { result ≡ modifiers_len (tokens_in tokens.entry) }
{
    for i in 0..tokens.len() {
        if !is_modifier(tokens.class(i)) {
            return i;
        }
    }
    tokens.len()
}

// The class of the token behind the modifiers.
fn behind_modifiers(tokens: Tokens<'_>) -> Terminal
    ensures { result ≡ behind_modifiers (tokens_in tokens.entry) }
{
    tokens.behind(modifiers_len(tokens)).first()
}

// A member with modifiers, by what stands behind them.
fn modified_form(class: Terminal) -> Form
    ensures { (result.0, result.1.now) ≡ modified_form class }
{
    match class {
        Terminal::Function => (NodeKind::Method, &METHOD),
        Terminal::Const => (NodeKind::ClassConst, &CLASS_CONST),
        _ => (NodeKind::Property, &PROPERTY),
    }
}

// A use of traits.
fn trait_use_form(first: Terminal) -> Option<Form>
    ensures { form_view result ≡ trait_use_form first }
{
    match first {
        Terminal::Use => Some((NodeKind::TraitUse, &TRAIT_USE)),
        _ => None,
    }
}

/// The form of the member that begins here.
pub fn member_form(tokens: Tokens<'_>) -> Option<Form>
    ensures { form_view result ≡ member_form (tokens_in tokens.entry) }
{
    or_else(
        trait_use_form(tokens.first()),
        Some(modified_form(behind_modifiers(tokens))),
    )
}

/// The attribute before a class: 8.3 alone has one.
pub fn attribute(version: Version, first: Terminal) -> &'static [Item]
    ensures { result.now ≡ attribute version first }
{
    match version {
        Version::V74 => &NOTHING,
        Version::V83 => match first {
            Terminal::AttributeOpen => &ATTRIBUTE,
            _ => &NOTHING,
        },
    }
}
