// How expressions begin.
ghost use Rattle.std.specs.Prelude.{◌≡◌, ◌↔◌, IsTrue, true};
ghost use Rattle.php_terminals.specs.Ahead.{first_of, second_of};
ghost use Rattle.php_terminals.specs.Tokens.{tokens_in};
ghost use Rattle.php_forms.specs.Forms.{form_view};
ghost use Rattle.php_grammar.specs.Operands.{array_word_form, bracket_form, chosen_operand, class_ref_form, created, dollar_form, entry_form, entry_list_form, instance_ref, name_form, named_form, named_prop_form, old_cast_form, operand_form, place_form, simple_variable_form, static_member_form, static_name_form, static_operand, static_prop_form, target_form, target_list_form, yield_value};

use php_forms::atoms::{
    ARRAY_BRACKETS, ARRAY_WORD, CALL, CONSTANT, CREATED_CLASS, CREATED_NAME, CREATED_REF,
    CREATED_STATIC, LIST_BRACKETS, LIST_WORD, NAME_CALL, NAME_CONST, NAME_PROP, OLD_CAST, REF,
    STATIC, STATIC_ARROW, STATIC_CALL, STATIC_CLOSURE, STATIC_CONST, STATIC_PROP, VARIABLE,
    VARIABLE_BRACES, VARIABLE_DOLLAR, YIELDED, atom_form,
};
use php_forms::forms::or_else;
use php_forms::item::{Form, Item, NOTHING};
use php_terminals::marks::{
    begins_place, ends_item, goes_on, is_assign, is_double_colon, is_name_part, is_variable_start,
};
use php_terminals::terminal::Terminal;
use php_terminals::tokens::Tokens;
use php_tree::{NodeKind, Version};

// A variable that begins with `$`.
fn dollar_form(second: Terminal) -> Form
    ensures { (result.0, result.1.now) ≡ dollar_form second }
{
    match second {
        Terminal::OpenBrace => (NodeKind::Variable, &VARIABLE_BRACES),
        _ => (NodeKind::Variable, &VARIABLE_DOLLAR),
    }
}

// A class by a name, and the member that begins here.
fn static_name_form(member: Tokens<'_>) -> Form
    ensures { (result.0, result.1.now) ≡ static_name_form (tokens_in member.entry) }
{
    if member.is_called() {
        (NodeKind::StaticCall, &NAME_CALL)
    } else if is_variable_start(member.first()) {
        (NodeKind::StaticProp, &NAME_PROP)
    } else {
        (NodeKind::ClassConstant, &NAME_CONST)
    }
}

// What begins with a name, by what stands behind it.
fn name_form(rest: Tokens<'_>) -> Form
    ensures { (result.0, result.1.now) ≡ name_form (tokens_in rest.entry) }
{
    match rest.first() {
        Terminal::OpenParen => (NodeKind::Call, &CALL),
        Terminal::DoubleColon => static_name_form(rest.behind(1)),
        _ => (NodeKind::Constant, &CONSTANT),
    }
}

// The class `static`, and the member that begins here.
fn static_member_form(member: Tokens<'_>) -> Form
    ensures { (result.0, result.1.now) ≡ static_member_form (tokens_in member.entry) }
{
    if member.is_called() {
        (NodeKind::StaticCall, &STATIC_CALL)
    } else if is_variable_start(member.first()) {
        (NodeKind::StaticProp, &STATIC_PROP)
    } else {
        (NodeKind::ClassConstant, &STATIC_CONST)
    }
}

// An expression that begins with `static`.
fn static_operand(tokens: Tokens<'_>) -> Option<Form>
    ensures { form_view result ≡ static_operand (tokens_in tokens.entry) }
{
    match tokens.second() {
        Terminal::Function => Some((NodeKind::Closure, &STATIC_CLOSURE)),
        Terminal::Fn => Some((NodeKind::Arrow, &STATIC_ARROW)),
        Terminal::DoubleColon => Some(static_member_form(tokens.behind(2))),
        _ => None,
    }
}

// `[`, as a list form where a test holds, else as an array.
fn bracket_form(is_list: bool) -> Form
    ensures { (result.0, result.1.now) ≡ bracket_form is_list }
{
    if is_list {
        (NodeKind::List, &LIST_BRACKETS)
    } else {
        (NodeKind::Array, &ARRAY_BRACKETS)
    }
}

// What begins with `array`.
fn array_word_form(second: Terminal) -> Option<Form>
    ensures { form_view result ≡ array_word_form second }
{
    match second {
        Terminal::OpenParen => Some((NodeKind::Array, &ARRAY_WORD)),
        _ => None,
    }
}

// `(real)` and `(unset)`, in 7.4 alone.
fn old_cast_form(version: Version) -> Option<Form>
    ensures { form_view result ≡ old_cast_form version }
{
    match version {
        Version::V74 => Some((NodeKind::Cast, &OLD_CAST)),
        Version::V83 => None,
    }
}

// An expression that begins with a name.
fn named_form(tokens: Tokens<'_>) -> Option<Form>
    ensures { form_view result ≡ named_form (tokens_in tokens.entry) }
{
    if is_name_part(tokens.first()) {
        Some(name_form(tokens.behind_name()))
    } else {
        None
    }
}

// The form of an expression that its first token doesn't settle.
fn chosen_operand(version: Version, tokens: Tokens<'_>) -> Option<Form>
    ensures { form_view result ≡ chosen_operand version (tokens_in tokens.entry) }
{
    match tokens.first() {
        Terminal::Dollar => Some(dollar_form(tokens.second())),
        Terminal::Static => static_operand(tokens),
        Terminal::OpenBracket => Some(bracket_form(is_assign(tokens.past_group()))),
        Terminal::Array => array_word_form(tokens.second()),
        Terminal::List => Some((NodeKind::List, &LIST_WORD)),
        Terminal::OldCast => old_cast_form(version),
        _ => None,
    }
}

/// The form of the expression that begins here, before any operator behind it.
pub fn operand_form(version: Version, tokens: Tokens<'_>) -> Option<Form>
    ensures { form_view result ≡ operand_form version (tokens_in tokens.entry) }
{
    let settled = or_else(named_form(tokens), atom_form(tokens.first()));
    or_else(settled, chosen_operand(version, tokens))
}

/// The form of a variable expression.
pub fn place_form(version: Version, tokens: Tokens<'_>) -> Option<Form>
    ensures { form_view result ≡ place_form version (tokens_in tokens.entry) }
{
    if begins_place(tokens.first()) {
        operand_form(version, tokens)
    } else {
        None
    }
}

// A list form, or an array that goes on.
fn target_list_form(tokens: Tokens<'_>) -> Option<Form>
    ensures { form_view result ≡ target_list_form (tokens_in tokens.entry) }
{
    match tokens.first() {
        Terminal::OpenBracket => Some(bracket_form(!goes_on(tokens.past_group()))),
        Terminal::List => Some((NodeKind::List, &LIST_WORD)),
        _ => None,
    }
}

/// The form of what a foreach or a list form writes.
pub fn target_form(version: Version, tokens: Tokens<'_>) -> Option<Form>
    ensures { form_view result ≡ target_form version (tokens_in tokens.entry) }
{
    or_else(target_list_form(tokens), place_form(version, tokens))
}

// A list form in a list form, or an array that begins a key.
fn entry_list_form(tokens: Tokens<'_>) -> Option<Form>
    ensures { form_view result ≡ entry_list_form (tokens_in tokens.entry) }
{
    match tokens.first() {
        Terminal::OpenBracket => Some(bracket_form(ends_item(tokens.past_group()))),
        _ => None,
    }
}

/// The form of the first expression of an item of a list form.
pub fn entry_form(version: Version, tokens: Tokens<'_>) -> Option<Form>
    ensures { form_view result ≡ entry_form version (tokens_in tokens.entry) }
{
    or_else(entry_list_form(tokens), operand_form(version, tokens))
}

/// The form of a variable, `$` before a variable, or `${` with an expression.
pub fn simple_variable_form(tokens: Tokens<'_>) -> Option<Form>
    ensures { form_view result ≡ simple_variable_form (tokens_in tokens.entry) }
{
    match tokens.first() {
        Terminal::Variable => Some((NodeKind::Variable, &VARIABLE)),
        Terminal::Dollar => Some(dollar_form(tokens.second())),
        _ => None,
    }
}

// A static property of a class by a name.
fn named_prop_form(first: Terminal) -> Option<Form>
    ensures { form_view result ≡ named_prop_form first }
{
    if is_name_part(first) {
        Some((NodeKind::StaticProp, &NAME_PROP))
    } else {
        None
    }
}

// A static property of the class `static`.
fn static_prop_form(first: Terminal) -> Option<Form>
    ensures { form_view result ≡ static_prop_form first }
{
    match first {
        Terminal::Static => Some((NodeKind::StaticProp, &STATIC_PROP)),
        _ => None,
    }
}

/// The form of an expression that names a class without a call.
pub fn class_ref_form(tokens: Tokens<'_>) -> Option<Form>
    ensures { form_view result ≡ class_ref_form (tokens_in tokens.entry) }
{
    let here = tokens.first();
    let property = or_else(named_prop_form(here), static_prop_form(here));
    or_else(property, simple_variable_form(tokens))
}

/// What `new` makes: a class by a name alone, an anonymous one, or one that an expression names.
pub fn created(tokens: Tokens<'_>) -> &'static [Item]
    ensures { result.now ≡ created (tokens_in tokens.entry) }
{
    let here = tokens.first();
    if is_name_part(here) {
        return if is_double_colon(tokens.behind_name().first()) {
            &CREATED_REF
        } else {
            &CREATED_NAME
        };
    }
    match here {
        Terminal::Class => &CREATED_CLASS,
        Terminal::Static => {
            if is_double_colon(tokens.second()) {
                &CREATED_REF
            } else {
                &CREATED_STATIC
            }
        }
        _ => &CREATED_REF,
    }
}

/// The class behind `instanceof`.
pub fn instance_ref(tokens: Tokens<'_>) -> &'static [Item]
    ensures { result.now ≡ instance_ref (tokens_in tokens.entry) }
{
    let here = tokens.first();
    if is_name_part(here) {
        return if is_double_colon(tokens.behind_name().first()) {
            &REF
        } else {
            &CONSTANT
        };
    }
    match here {
        Terminal::Static => {
            if is_double_colon(tokens.second()) {
                &REF
            } else {
                &STATIC
            }
        }
        _ => &REF,
    }
}

/// The value of a `yield`, where an expression begins.
pub fn yield_value(version: Version, tokens: Tokens<'_>) -> &'static [Item]
    ensures { result.now ≡ yield_value version (tokens_in tokens.entry) }
{
    match operand_form(version, tokens) {
        Some(_) => &YIELDED,
        None => &NOTHING,
    }
}
