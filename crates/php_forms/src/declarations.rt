// Functions, classes, constants, namespaces and uses.
ghost use Rattle.std.specs.Prelude.{◌≡◌};
ghost use Rattle.php_forms.specs.Declarations.{alias, by_ref, class_alias, class_grouped, class_modifiers, class_use_rest, extends, first_value, grouped, implements, members, method_body, modifiers, more_class_consts, more_class_grouped, more_class_grouped_last, more_class_uses, more_consts, more_grouped, more_grouped_last, more_params, more_uses, more_variables, namespace_body, namespace_rest, nullable, param_type, params, parents, property_type, return_type, trait_rules, type_word, use_body, use_rest, used_class, used_grouped, variadic};

use crate::item::Item::{self, Node, Part, Repeats, Span, Word};
use crate::item::{ANY, Group, NOTHING, Sort};
use php_terminals::terminal::Terminal;

pub static ATTRIBUTE: [Item; 3] = [
    Word(Terminal::AttributeOpen),
    Word(Terminal::AttributeName),
    Word(Terminal::CloseBracket),
];

pub static TRAIT_USE: [Item; 4] = [
    Word(Terminal::Use),
    Part(Group::Name),
    Repeats(Group::MoreNames),
    Part(Group::TraitRules),
];

pub static METHOD: [Item; 9] = [
    Repeats(Group::Modifiers),
    Word(Terminal::Function),
    Part(Group::ByRef),
    Word(Terminal::AnyWord),
    Word(Terminal::OpenParen),
    Part(Group::Params),
    Word(Terminal::CloseParen),
    Part(Group::ReturnType),
    Part(Group::MethodBody),
];

pub static CLASS_CONST: [Item; 7] = [
    Repeats(Group::Modifiers),
    Word(Terminal::Const),
    Word(Terminal::ConstantWord),
    Word(Terminal::Assign),
    Node(Sort::Operand(ANY)),
    Repeats(Group::MoreClassConsts),
    Word(Terminal::Semi),
];

pub static PROPERTY: [Item; 7] = [
    Word(Terminal::Modifier),
    Repeats(Group::Modifiers),
    Part(Group::PropertyType),
    Word(Terminal::Variable),
    Part(Group::FirstValue),
    Repeats(Group::MoreVariables),
    Word(Terminal::Semi),
];

pub static PARAM: [Item; 5] = [
    Part(Group::ParamType),
    Part(Group::ByRef),
    Part(Group::Variadic),
    Word(Terminal::Variable),
    Part(Group::FirstValue),
];

pub static TYPE_NAME: [Item; 2] = [Part(Group::Nullable), Part(Group::TypeWord)];

static BY_REF: [Item; 1] = [Word(Terminal::Ampersand)];

static FIRST_VALUE: [Item; 2] = [Word(Terminal::Assign), Node(Sort::Operand(ANY))];

static MORE_VARIABLES: [Item; 3] = [
    Word(Terminal::Comma),
    Word(Terminal::Variable),
    Part(Group::FirstValue),
];

static PARAMS: [Item; 2] = [Node(Sort::Param), Repeats(Group::MoreParams)];

static MORE_PARAMS: [Item; 2] = [Word(Terminal::Comma), Node(Sort::Param)];

static PARAM_TYPE: [Item; 1] = [Node(Sort::TypeName)];

static VARIADIC: [Item; 1] = [Word(Terminal::Ellipsis)];

static RETURN_TYPE: [Item; 2] = [Word(Terminal::Colon), Node(Sort::TypeName)];

static NULLABLE: [Item; 1] = [Word(Terminal::Question)];

static TYPE_WORD_ARRAY: [Item; 1] = [Word(Terminal::Array)];

static TYPE_WORD_CALLABLE: [Item; 1] = [Word(Terminal::Callable)];

static TYPE_WORD: [Item; 1] = [Part(Group::Name)];

static CLASS_MODIFIERS: [Item; 1] = [Word(Terminal::ClassModifier)];

static EXTENDS: [Item; 2] = [Word(Terminal::Extends), Part(Group::Name)];

static PARENTS: [Item; 3] = [
    Word(Terminal::Extends),
    Part(Group::Name),
    Repeats(Group::MoreNames),
];

static IMPLEMENTS: [Item; 3] = [
    Word(Terminal::Implements),
    Part(Group::Name),
    Repeats(Group::MoreNames),
];

static MEMBERS: [Item; 1] = [Node(Sort::Member)];

static MODIFIERS: [Item; 1] = [Word(Terminal::Modifier)];

static METHOD_BODY_OPEN_BRACE: [Item; 1] = [Node(Sort::Block)];

static METHOD_BODY: [Item; 1] = [Word(Terminal::Semi)];

static MORE_CLASS_CONSTS: [Item; 4] = [
    Word(Terminal::Comma),
    Word(Terminal::ConstantWord),
    Word(Terminal::Assign),
    Node(Sort::Operand(ANY)),
];

static TRAIT_RULES_OPEN_BRACE: [Item; 3] = [
    Word(Terminal::OpenBrace),
    Span,
    Word(Terminal::CloseBrace),
];

static MORE_CONSTS: [Item; 4] = [
    Word(Terminal::Comma),
    Word(Terminal::FreeLabel),
    Word(Terminal::Assign),
    Node(Sort::Operand(ANY)),
];

static NAMESPACE_BODY_OPEN_BRACE: [Item; 3] = [
    Word(Terminal::OpenBrace),
    Repeats(Group::Statements),
    Word(Terminal::CloseBrace),
];

static NAMESPACE_BODY: [Item; 2] = [Part(Group::NamespaceName), Part(Group::NamespaceRest)];

static USE_BODY_FUNCTION: [Item; 3] = [
    Word(Terminal::Function),
    Part(Group::ImportedName),
    Part(Group::UseRest),
];

static USE_BODY_CONST: [Item; 3] = [
    Word(Terminal::Const),
    Part(Group::ImportedName),
    Part(Group::UseRest),
];

static USE_BODY: [Item; 2] = [Part(Group::UsedClass), Part(Group::ClassUseRest)];

static USE_REST_BACKSLASH: [Item; 5] = [
    Word(Terminal::Backslash),
    Word(Terminal::OpenBrace),
    Part(Group::Grouped),
    Repeats(Group::MoreGrouped),
    Word(Terminal::CloseBrace),
];

static USE_REST: [Item; 2] = [Part(Group::Alias), Repeats(Group::MoreUses)];

static MORE_USES: [Item; 3] = [
    Word(Terminal::Comma),
    Part(Group::ImportedName),
    Part(Group::Alias),
];

static ALIAS: [Item; 2] = [Word(Terminal::As), Word(Terminal::FreeLabel)];

static GROUPED_FUNCTION: [Item; 3] = [
    Word(Terminal::Function),
    Part(Group::GroupedName),
    Part(Group::Alias),
];

static GROUPED_CONST: [Item; 3] = [
    Word(Terminal::Const),
    Part(Group::GroupedName),
    Part(Group::Alias),
];

static GROUPED: [Item; 2] = [Part(Group::GroupedName), Part(Group::Alias)];

static MORE_GROUPED_LAST_CLOSE_BRACE: [Item; 1] = [Word(Terminal::Comma)];

static MORE_GROUPED_LAST: [Item; 2] = [Word(Terminal::Comma), Part(Group::Grouped)];

static CLASS_USE_REST_BACKSLASH: [Item; 5] = [
    Word(Terminal::Backslash),
    Word(Terminal::OpenBrace),
    Part(Group::ClassGrouped),
    Repeats(Group::MoreClassGrouped),
    Word(Terminal::CloseBrace),
];

static CLASS_USE_REST: [Item; 2] = [Part(Group::ClassAlias), Repeats(Group::MoreClassUses)];

static MORE_CLASS_USES: [Item; 3] = [
    Word(Terminal::Comma),
    Part(Group::UsedClass),
    Part(Group::ClassAlias),
];

static CLASS_ALIAS: [Item; 2] = [Word(Terminal::As), Word(Terminal::ClassLabel)];

static CLASS_GROUPED: [Item; 2] = [Part(Group::UsedGrouped), Part(Group::ClassAlias)];

static MORE_CLASS_GROUPED_LAST: [Item; 2] = [Word(Terminal::Comma), Part(Group::ClassGrouped)];

static USED_CLASS_AS: [Item; 1] = [Part(Group::ImportedName)];

static USED_CLASS: [Item; 1] = [Part(Group::ImportedClass)];

static USED_GROUPED_AS: [Item; 1] = [Part(Group::GroupedName)];

static USED_GROUPED: [Item; 1] = [Part(Group::GroupedClass)];

// The mark of a reference.
pub fn by_ref(first: Terminal) -> &'static [Item]
    ensures { result.now ≡ by_ref first }
{
    match first {
        Terminal::Ampersand => &BY_REF,
        _ => &NOTHING,
    }
}

// A first value.
pub fn first_value(first: Terminal) -> &'static [Item]
    ensures { result.now ≡ first_value first }
{
    match first {
        Terminal::Assign => &FIRST_VALUE,
        _ => &NOTHING,
    }
}

// The other variables of a list, each with its first value.
pub fn more_variables(first: Terminal) -> &'static [Item]
    ensures { result.now ≡ more_variables first }
{
    match first {
        Terminal::Comma => &MORE_VARIABLES,
        _ => &NOTHING,
    }
}

// The parameters.
pub fn params(first: Terminal) -> &'static [Item]
    ensures { result.now ≡ params first }
{
    match first {
        Terminal::CloseParen => &NOTHING,
        _ => &PARAMS,
    }
}

// The other parameters.
pub fn more_params(first: Terminal) -> &'static [Item]
    ensures { result.now ≡ more_params first }
{
    match first {
        Terminal::Comma => &MORE_PARAMS,
        _ => &NOTHING,
    }
}

// The type of a parameter.
pub fn param_type(first: Terminal) -> &'static [Item]
    ensures { result.now ≡ param_type first }
{
    match first {
        Terminal::Variable | Terminal::Ampersand | Terminal::Ellipsis => &NOTHING,
        _ => &PARAM_TYPE,
    }
}

// The mark of a variadic parameter, and of a spread argument.
pub fn variadic(first: Terminal) -> &'static [Item]
    ensures { result.now ≡ variadic first }
{
    match first {
        Terminal::Ellipsis => &VARIADIC,
        _ => &NOTHING,
    }
}

// The type of what is returned.
pub fn return_type(first: Terminal) -> &'static [Item]
    ensures { result.now ≡ return_type first }
{
    match first {
        Terminal::Colon => &RETURN_TYPE,
        _ => &NOTHING,
    }
}

// The mark of a type with null.
pub fn nullable(first: Terminal) -> &'static [Item]
    ensures { result.now ≡ nullable first }
{
    match first {
        Terminal::Question => &NULLABLE,
        _ => &NOTHING,
    }
}

// A type without its mark.
pub fn type_word(first: Terminal) -> &'static [Item]
    ensures { result.now ≡ type_word first }
{
    match first {
        Terminal::Array => &TYPE_WORD_ARRAY,
        Terminal::Callable => &TYPE_WORD_CALLABLE,
        _ => &TYPE_WORD,
    }
}

// The modifiers of a class.
pub fn class_modifiers(first: Terminal) -> &'static [Item]
    ensures { result.now ≡ class_modifiers first }
{
    match first {
        Terminal::ClassModifier => &CLASS_MODIFIERS,
        _ => &NOTHING,
    }
}

// The parent of a class.
pub fn extends(first: Terminal) -> &'static [Item]
    ensures { result.now ≡ extends first }
{
    match first {
        Terminal::Extends => &EXTENDS,
        _ => &NOTHING,
    }
}

// The parents of an interface.
pub fn parents(first: Terminal) -> &'static [Item]
    ensures { result.now ≡ parents first }
{
    match first {
        Terminal::Extends => &PARENTS,
        _ => &NOTHING,
    }
}

// The interfaces of a class.
pub fn implements(first: Terminal) -> &'static [Item]
    ensures { result.now ≡ implements first }
{
    match first {
        Terminal::Implements => &IMPLEMENTS,
        _ => &NOTHING,
    }
}

// The members of a class, an interface or a trait.
pub fn members(first: Terminal) -> &'static [Item]
    ensures { result.now ≡ members first }
{
    match first {
        Terminal::CloseBrace | Terminal::End => &NOTHING,
        _ => &MEMBERS,
    }
}

// The modifiers of a member.
pub fn modifiers(first: Terminal) -> &'static [Item]
    ensures { result.now ≡ modifiers first }
{
    match first {
        Terminal::ClassModifier | Terminal::Visibility | Terminal::Static => &MODIFIERS,
        _ => &NOTHING,
    }
}

// The type of a property.
pub fn property_type(first: Terminal) -> &'static [Item]
    ensures { result.now ≡ property_type first }
{
    match first {
        Terminal::Variable => &NOTHING,
        _ => &PARAM_TYPE,
    }
}

// The body of a method, or none.
pub fn method_body(first: Terminal) -> &'static [Item]
    ensures { result.now ≡ method_body first }
{
    match first {
        Terminal::OpenBrace => &METHOD_BODY_OPEN_BRACE,
        _ => &METHOD_BODY,
    }
}

// The other constants of a class constant.
pub fn more_class_consts(first: Terminal) -> &'static [Item]
    ensures { result.now ≡ more_class_consts first }
{
    match first {
        Terminal::Comma => &MORE_CLASS_CONSTS,
        _ => &NOTHING,
    }
}

// What a use of traits ends with.
pub fn trait_rules(first: Terminal) -> &'static [Item]
    ensures { result.now ≡ trait_rules first }
{
    match first {
        Terminal::OpenBrace => &TRAIT_RULES_OPEN_BRACE,
        _ => &METHOD_BODY,
    }
}

// The other constants of a `const`.
pub fn more_consts(first: Terminal) -> &'static [Item]
    ensures { result.now ≡ more_consts first }
{
    match first {
        Terminal::Comma => &MORE_CONSTS,
        _ => &NOTHING,
    }
}

// What stands behind `namespace`.
pub fn namespace_body(first: Terminal) -> &'static [Item]
    ensures { result.now ≡ namespace_body first }
{
    match first {
        Terminal::OpenBrace => &NAMESPACE_BODY_OPEN_BRACE,
        _ => &NAMESPACE_BODY,
    }
}

// What stands behind the name of a namespace.
pub fn namespace_rest(first: Terminal) -> &'static [Item]
    ensures { result.now ≡ namespace_rest first }
{
    match first {
        Terminal::OpenBrace => &NAMESPACE_BODY_OPEN_BRACE,
        _ => &METHOD_BODY,
    }
}

// What a use imports: functions, constants, or classes and namespaces.
pub fn use_body(first: Terminal) -> &'static [Item]
    ensures { result.now ≡ use_body first }
{
    match first {
        Terminal::Function => &USE_BODY_FUNCTION,
        Terminal::Const => &USE_BODY_CONST,
        _ => &USE_BODY,
    }
}

// Behind the first name of a use of functions or constants.
pub fn use_rest(first: Terminal) -> &'static [Item]
    ensures { result.now ≡ use_rest first }
{
    match first {
        Terminal::Backslash => &USE_REST_BACKSLASH,
        _ => &USE_REST,
    }
}

// The other names of a use of functions or constants.
pub fn more_uses(first: Terminal) -> &'static [Item]
    ensures { result.now ≡ more_uses first }
{
    match first {
        Terminal::Comma => &MORE_USES,
        _ => &NOTHING,
    }
}

// The alias of a function or a constant.
pub fn alias(first: Terminal) -> &'static [Item]
    ensures { result.now ≡ alias first }
{
    match first {
        Terminal::As => &ALIAS,
        _ => &NOTHING,
    }
}

// A name in the braces of a use of functions or constants.
pub fn grouped(first: Terminal) -> &'static [Item]
    ensures { result.now ≡ grouped first }
{
    match first {
        Terminal::Function => &GROUPED_FUNCTION,
        Terminal::Const => &GROUPED_CONST,
        _ => &GROUPED,
    }
}

// Behind a comma in such braces.
fn more_grouped_last(second: Terminal) -> &'static [Item]
    ensures { result.now ≡ more_grouped_last second }
{
    match second {
        Terminal::CloseBrace => &MORE_GROUPED_LAST_CLOSE_BRACE,
        _ => &MORE_GROUPED_LAST,
    }
}

// The other names in the braces of a use of functions or constants, which may end with a comma.
pub fn more_grouped(first: Terminal, second: Terminal) -> &'static [Item]
    ensures { result.now ≡ more_grouped first second }
{
    match first {
        Terminal::Comma => more_grouped_last(second),
        _ => &NOTHING,
    }
}

// Behind the first name of a use of classes.
pub fn class_use_rest(first: Terminal) -> &'static [Item]
    ensures { result.now ≡ class_use_rest first }
{
    match first {
        Terminal::Backslash => &CLASS_USE_REST_BACKSLASH,
        _ => &CLASS_USE_REST,
    }
}

// The other names of a use of classes.
pub fn more_class_uses(first: Terminal) -> &'static [Item]
    ensures { result.now ≡ more_class_uses first }
{
    match first {
        Terminal::Comma => &MORE_CLASS_USES,
        _ => &NOTHING,
    }
}

// The alias of a class.
pub fn class_alias(first: Terminal) -> &'static [Item]
    ensures { result.now ≡ class_alias first }
{
    match first {
        Terminal::As => &CLASS_ALIAS,
        _ => &NOTHING,
    }
}

// A name in the braces of a use of classes.
pub fn class_grouped(first: Terminal) -> &'static [Item]
    ensures { result.now ≡ class_grouped first }
{
    match first {
        Terminal::Function => &GROUPED_FUNCTION,
        Terminal::Const => &GROUPED_CONST,
        _ => &CLASS_GROUPED,
    }
}

// Behind a comma in such braces.
fn more_class_grouped_last(second: Terminal) -> &'static [Item]
    ensures { result.now ≡ more_class_grouped_last second }
{
    match second {
        Terminal::CloseBrace => &MORE_GROUPED_LAST_CLOSE_BRACE,
        _ => &MORE_CLASS_GROUPED_LAST,
    }
}

// The other names in the braces of a use of classes, which may end with a comma.
pub fn more_class_grouped(first: Terminal, second: Terminal) -> &'static [Item]
    ensures { result.now ≡ more_class_grouped first second }
{
    match first {
        Terminal::Comma => more_class_grouped_last(second),
        _ => &NOTHING,
    }
}

// A name in a use of classes: a name with an alias, or before braces, is no class of that name.
pub fn used_class(second: Terminal) -> &'static [Item]
    ensures { result.now ≡ used_class second }
{
    match second {
        Terminal::As | Terminal::Backslash => &USED_CLASS_AS,
        _ => &USED_CLASS,
    }
}

// A name in the braces of a use of classes: a name with an alias is no class of that name.
pub fn used_grouped(second: Terminal) -> &'static [Item]
    ensures { result.now ≡ used_grouped second }
{
    match second {
        Terminal::As => &USED_GROUPED_AS,
        _ => &USED_GROUPED,
    }
}
