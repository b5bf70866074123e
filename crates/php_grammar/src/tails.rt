// How expressions go on.
ghost use Rattle.std.specs.Prelude.{◌≡◌};
ghost use Rattle.php_terminals.specs.Tokens.{tokens_in};
ghost use Rattle.php_forms.specs.Forms.{form_view, when};
ghost use Rattle.php_grammar.specs.Tails.{assign_tail, binary_tail, brace_tail, chosen_tail, class_ref_tail, embedded_tail, entry_by, entry_end, interpolated_tail, left_by, left_fits, member_tail, operand_by, operator_tail, place_by, postfix_tail, read_by, refused_unless, short_left_fits, static_tail, target_by, ternary_tail};

use crate::bases::{
    is_callee, is_class_base, is_list, is_member_base, is_offset_base, is_short_ternary, is_target,
    is_variable, is_variable_expression,
};
use crate::levels::{binary_items, binary_level, left_limit};
use php_forms::forms::or_else;
use php_forms::item::Item::{self, Node as Operand, Part, Word};
use php_forms::item::{ANY, Form, Group, Sort};
use php_terminals::marks::{is_double_arrow, is_variable_start};
use php_terminals::terminal::Terminal;
use php_terminals::tokens::Tokens;
use php_tree::{NodeKind, Version};

static OFFSET: [Item; 3] = [
    Word(Terminal::OpenBracket),
    Part(Group::OffsetKey),
    Word(Terminal::CloseBracket),
];

static BRACE_OFFSET: [Item; 3] = [
    Word(Terminal::OpenBrace),
    Operand(Sort::Operand(ANY)),
    Word(Terminal::CloseBrace),
];

static METHOD_CALL: [Item; 5] = [
    Word(Terminal::Arrow),
    Part(Group::Member),
    Word(Terminal::OpenParen),
    Operand(Sort::Args),
    Word(Terminal::CloseParen),
];

static PROP: [Item; 2] = [Word(Terminal::Arrow), Part(Group::Member)];

static STATIC_CALL: [Item; 5] = [
    Word(Terminal::DoubleColon),
    Part(Group::Member),
    Word(Terminal::OpenParen),
    Operand(Sort::Args),
    Word(Terminal::CloseParen),
];

static STATIC_PROP: [Item; 2] = [Word(Terminal::DoubleColon), Part(Group::StaticMember)];

static CLASS_CONSTANT: [Item; 2] = [Word(Terminal::DoubleColon), Word(Terminal::AnyWord)];

static CALL: [Item; 3] = [
    Word(Terminal::OpenParen),
    Operand(Sort::Args),
    Word(Terminal::CloseParen),
];

static ASSIGN_REF: [Item; 3] = [
    Word(Terminal::Assign),
    Word(Terminal::Ampersand),
    Operand(Sort::Operand(19)),
];

static ASSIGN: [Item; 2] = [Word(Terminal::Assign), Operand(Sort::Operand(19))];

static COMPOUND_ASSIGN: [Item; 2] = [Word(Terminal::CompoundAssign), Operand(Sort::Operand(19))];

static POSTFIX: [Item; 1] = [Word(Terminal::Step)];

static INSTANCE_OF: [Item; 2] = [Word(Terminal::InstanceOf), Part(Group::InstanceRef)];

static SHORT_TERNARY: [Item; 3] = [
    Word(Terminal::Question),
    Word(Terminal::Colon),
    Operand(Sort::Operand(17)),
];

static TERNARY: [Item; 4] = [
    Word(Terminal::Question),
    Operand(Sort::Operand(ANY)),
    Word(Terminal::Colon),
    Operand(Sort::Operand(17)),
];

static SIMPLE_OFFSET: [Item; 3] = [
    Word(Terminal::OpenBracket),
    Part(Group::SimpleKey),
    Word(Terminal::CloseBracket),
];

static SIMPLE_PROP: [Item; 2] = [Word(Terminal::Arrow), Word(Terminal::AnyLabel)];

static REFUSED: [Item; 1] = [Word(Terminal::Never)];

// The form where the test holds.
fn when(test: bool, kind: NodeKind, items: &'static [Item]) -> Option<Form>
    ensures { form_view result ≡ when test (kind, items.now) }
{
    if test { Some((kind, items)) } else { None }
}

// A brace behind an expression is an offset in 7.4 alone.
fn brace_tail(version: Version, kind: NodeKind) -> Option<Form>
    ensures { form_view result ≡ brace_tail version kind }
{
    match version {
        Version::V74 => when(is_offset_base(kind), NodeKind::BraceOffset, &BRACE_OFFSET),
        Version::V83 => None,
    }
}

// `->` and the member that begins here.
fn member_tail(member: Tokens<'_>) -> Form
    ensures { (result.0, result.1.now) ≡ member_tail (tokens_in member.entry) }
{
    if member.is_called() {
        (NodeKind::MethodCall, &METHOD_CALL)
    } else {
        (NodeKind::Prop, &PROP)
    }
}

// `::` and the member that begins here.
fn static_tail(member: Tokens<'_>) -> Form
    ensures { (result.0, result.1.now) ≡ static_tail (tokens_in member.entry) }
{
    if member.is_called() {
        (NodeKind::StaticCall, &STATIC_CALL)
    } else if is_variable_start(member.first()) {
        (NodeKind::StaticProp, &STATIC_PROP)
    } else {
        (NodeKind::ClassConstant, &CLASS_CONSTANT)
    }
}

// An offset, a member or arguments behind a node.
fn postfix_tail(version: Version, kind: NodeKind, tokens: Tokens<'_>) -> Option<Form>
    ensures { form_view result ≡ postfix_tail version kind (tokens_in tokens.entry) }
{
    match tokens.first() {
        Terminal::OpenBracket => when(is_offset_base(kind), NodeKind::Offset, &OFFSET),
        Terminal::OpenBrace => brace_tail(version, kind),
        Terminal::Arrow => {
            let (member, items) = member_tail(tokens.behind(1));
            when(is_member_base(kind), member, items)
        }
        Terminal::DoubleColon => {
            let (member, items) = static_tail(tokens.behind(1));
            when(is_class_base(kind), member, items)
        }
        Terminal::OpenParen => when(is_callee(kind), NodeKind::Call, &CALL),
        _ => None,
    }
}

// `=` behind a node.
fn assign_tail(kind: NodeKind, second: Terminal) -> Option<Form>
    ensures { form_view result ≡ assign_tail kind second }
{
    match second {
        Terminal::Ampersand => when(is_target(kind), NodeKind::AssignRef, &ASSIGN_REF),
        _ => when(is_target(kind) || is_list(kind), NodeKind::Assign, &ASSIGN),
    }
}

// Whether a ternary may stand behind an operand of the level: in 7.4 it groups to the left, in 8.3 none is the left
// part of another.
fn left_fits(version: Version, left: u8) -> bool
    ensures { result ≡ left_fits version left }
{
    match version {
        Version::V74 => left <= 18,
        Version::V83 => left <= 17,
    }
}

// The same of a `?:`, which in 8.3 may stand behind another.
fn short_left_fits(version: Version, left: u8, kind: NodeKind) -> bool
    ensures { result ≡ short_left_fits version left kind }
{
    left_fits(version, left) || left <= 18 && is_short_ternary(kind)
}

// `?` behind an operand of the edge `left`.
fn ternary_tail(
    version: Version,
    limit: u8,
    left: u8,
    kind: NodeKind,
    second: Terminal,
) -> Option<Form>
    ensures { form_view result ≡ ternary_tail version limit left kind second }
{
    match second {
        Terminal::Colon => when(
            18 <= limit && short_left_fits(version, left, kind),
            NodeKind::ShortTernary,
            &SHORT_TERNARY,
        ),
        _ => when(
            18 <= limit && left_fits(version, left),
            NodeKind::Ternary,
            &TERNARY,
        ),
    }
}

// An operator between two operands behind one of the edge `left`.
fn binary_tail(version: Version, limit: u8, left: u8, operator: Terminal) -> Option<Form>
    ensures { form_view result ≡ binary_tail version limit left operator }
{
    let own = binary_level(version, operator);
    let fits = 0 < own && own <= limit && left <= left_limit(version, operator);
    when(fits, NodeKind::Binary, binary_items(version, operator))
}

// An operator with a form of its own behind a node of the edge `left`.
fn chosen_tail(
    version: Version,
    limit: u8,
    left: u8,
    kind: NodeKind,
    tokens: Tokens<'_>,
) -> Option<Form>
    ensures { form_view result ≡ chosen_tail version limit left kind (tokens_in tokens.entry) }
{
    match tokens.first() {
        Terminal::Assign => assign_tail(kind, tokens.second()),
        Terminal::CompoundAssign => when(
            is_target(kind),
            NodeKind::CompoundAssign,
            &COMPOUND_ASSIGN,
        ),
        Terminal::Step => when(is_target(kind), NodeKind::Postfix, &POSTFIX),
        Terminal::InstanceOf => when(4 <= limit && left <= 4, NodeKind::InstanceOf, &INSTANCE_OF),
        Terminal::Question => ternary_tail(version, limit, left, kind, tokens.second()),
        _ => None,
    }
}

// An operator behind a node of the edge `left`.
fn operator_tail(
    version: Version,
    limit: u8,
    left: u8,
    kind: NodeKind,
    tokens: Tokens<'_>,
) -> Option<Form>
    ensures { form_view result ≡ operator_tail version limit left kind (tokens_in tokens.entry) }
{
    or_else(
        chosen_tail(version, limit, left, kind, tokens),
        binary_tail(version, limit, left, tokens.first()),
    )
}

// The edge of a left operand, which is of this edge; a list form is none.
fn left_edge(kind: NodeKind, own: u8) -> u8
    ensures { result ≡ left_by kind own }
{
    if is_list(kind) { 25 } else { own }
}

// What goes on behind an operand, where operators of the level `limit` and tighter ones may stand.
fn operand_tail(
    version: Version,
    limit: u8,
    kind: NodeKind,
    own: u8,
    tokens: Tokens<'_>,
) -> Option<Form>
    ensures { form_view result ≡ operand_by version limit kind own (tokens_in tokens.entry) }
{
    let operator = operator_tail(version, limit, left_edge(kind, own), kind, tokens);
    or_else(postfix_tail(version, kind, tokens), operator)
}

// The node ends here where the test holds, and else is none.
fn refused_unless(test: bool) -> Option<Form>
    ensures { form_view result ≡ refused_unless test }
{
    if test {
        None
    } else {
        Some((NodeKind::Empty, &REFUSED))
    }
}

/// How an operand goes on; a list form must be assigned to.
pub fn read_tail(
    version: Version,
    limit: u8,
    kind: NodeKind,
    own: u8,
    misindented: bool,
    tokens: Tokens<'_>,
) -> Option<Form>
    ensures { form_view result ≡ read_by version limit kind own misindented (tokens_in tokens.entry) }
{
    if misindented {
        return Some((NodeKind::Empty, &REFUSED));
    }
    or_else(
        operand_tail(version, limit, kind, own, tokens),
        refused_unless(!is_list(kind)),
    )
}

// The end of the first expression of an item of a list form.
fn entry_end(kind: NodeKind, next: Terminal) -> Option<Form>
    ensures { form_view result ≡ entry_end kind next }
{
    if is_double_arrow(next) {
        refused_unless(!is_list(kind))
    } else {
        refused_unless(is_target(kind) || is_list(kind))
    }
}

/// How the first expression of an item of a list form goes on: it ends as a key before `=>`, or as a target.
pub fn entry_tail(
    version: Version,
    kind: NodeKind,
    own: u8,
    misindented: bool,
    tokens: Tokens<'_>,
) -> Option<Form>
    ensures { form_view result ≡ entry_by version kind own misindented (tokens_in tokens.entry) }
{
    if misindented {
        return Some((NodeKind::Empty, &REFUSED));
    }
    or_else(
        operand_tail(version, ANY, kind, own, tokens),
        entry_end(kind, tokens.first()),
    )
}

/// How a variable expression goes on.
pub fn place_tail(
    version: Version,
    kind: NodeKind,
    misindented: bool,
    tokens: Tokens<'_>,
) -> Option<Form>
    ensures { form_view result ≡ place_by version kind misindented (tokens_in tokens.entry) }
{
    if misindented {
        return Some((NodeKind::Empty, &REFUSED));
    }
    or_else(
        postfix_tail(version, kind, tokens),
        refused_unless(is_target(kind)),
    )
}

/// How a target goes on.
pub fn target_tail(
    version: Version,
    kind: NodeKind,
    misindented: bool,
    tokens: Tokens<'_>,
) -> Option<Form>
    ensures { form_view result ≡ target_by version kind misindented (tokens_in tokens.entry) }
{
    if is_list(kind) {
        None
    } else {
        place_tail(version, kind, misindented, tokens)
    }
}

/// How a variable expression in a quoted text goes on.
pub fn embedded_tail(version: Version, kind: NodeKind, tokens: Tokens<'_>) -> Option<Form>
    ensures { form_view result ≡ embedded_tail version kind (tokens_in tokens.entry) }
{
    or_else(
        postfix_tail(version, kind, tokens),
        refused_unless(is_variable_expression(kind)),
    )
}

/// How an expression that names a class goes on.
pub fn class_ref_tail(version: Version, kind: NodeKind, tokens: Tokens<'_>) -> Option<Form>
    ensures { form_view result ≡ class_ref_tail version kind (tokens_in tokens.entry) }
{
    match tokens.first() {
        Terminal::OpenBracket => Some((NodeKind::Offset, &OFFSET)),
        Terminal::OpenBrace => brace_tail(version, kind),
        Terminal::Arrow => Some((NodeKind::Prop, &PROP)),
        Terminal::DoubleColon => when(
            is_variable_start(tokens.second()),
            NodeKind::StaticProp,
            &STATIC_PROP,
        ),
        _ => None,
    }
}

/// How a variable in a quoted text goes on.
pub fn interpolated_tail(kind: NodeKind, tokens: Tokens<'_>) -> Option<Form>
    ensures { form_view result ≡ interpolated_tail kind (tokens_in tokens.entry) }
{
    match tokens.first() {
        Terminal::OpenBracket => when(is_variable(kind), NodeKind::Offset, &SIMPLE_OFFSET),
        Terminal::Arrow => when(is_variable(kind), NodeKind::Prop, &SIMPLE_PROP),
        _ => None,
    }
}
