// Arguments, arrays and lists.
ghost use Rattle.std.specs.Prelude.{◌≡◌};
ghost use Rattle.php_forms.specs.Lists.{arg_list, array_items, entry_value, item_form, item_value, list_head, list_item_form, list_more, more_args, more_args_last, more_items, more_items_last};

use crate::item::Item::{self, Node, Part, Repeats, Word};
use crate::item::{ANY, Form, Group, NOTHING, Sort};
use php_terminals::terminal::Terminal;
use php_tree::NodeKind;

pub static ARGS: [Item; 1] = [Part(Group::ArgList)];

static ARG_LIST: [Item; 3] = [
    Part(Group::Variadic),
    Node(Sort::Operand(ANY)),
    Repeats(Group::MoreArgs),
];

static MORE_ARGS_LAST_CLOSE_PAREN: [Item; 1] = [Word(Terminal::Comma)];

static MORE_ARGS_LAST: [Item; 3] = [
    Word(Terminal::Comma),
    Part(Group::Variadic),
    Node(Sort::Operand(ANY)),
];

static ARRAY_ITEMS: [Item; 2] = [Node(Sort::Item), Repeats(Group::MoreItems)];

static MORE_ITEMS_LAST: [Item; 2] = [Word(Terminal::Comma), Node(Sort::Item)];

static ITEM_VALUE: [Item; 3] = [
    Word(Terminal::DoubleArrow),
    Part(Group::ByRef),
    Node(Sort::Operand(ANY)),
];

static LIST_HEAD: [Item; 1] = [Node(Sort::ListItem)];

static LIST_MORE: [Item; 2] = [Word(Terminal::Comma), Part(Group::ListHead)];

static ENTRY_VALUE: [Item; 3] = [
    Word(Terminal::DoubleArrow),
    Part(Group::ByRef),
    Node(Sort::Target),
];

static ITEM: [Item; 2] = [Word(Terminal::Ampersand), Node(Sort::Operand(ANY))];

static ELLIPSIS_ITEM: [Item; 2] = [Word(Terminal::Ellipsis), Node(Sort::Operand(ANY))];

static ITEM_OTHER: [Item; 2] = [Node(Sort::Operand(ANY)), Part(Group::ItemValue)];

static AMPERSAND_ITEM: [Item; 2] = [Word(Terminal::Ampersand), Node(Sort::Target)];

static ITEM_OTHER_2: [Item; 2] = [Node(Sort::Entry), Part(Group::EntryValue)];

// The arguments of a call.
pub fn arg_list(first: Terminal) -> &'static [Item]
    ensures { result.now ≡ arg_list first }
{
    match first {
        Terminal::CloseParen => &NOTHING,
        _ => &ARG_LIST,
    }
}

// Behind a comma of arguments.
fn more_args_last(second: Terminal) -> &'static [Item]
    ensures { result.now ≡ more_args_last second }
{
    match second {
        Terminal::CloseParen => &MORE_ARGS_LAST_CLOSE_PAREN,
        _ => &MORE_ARGS_LAST,
    }
}

// The other arguments, which may end with a comma.
pub fn more_args(first: Terminal, second: Terminal) -> &'static [Item]
    ensures { result.now ≡ more_args first second }
{
    match first {
        Terminal::Comma => more_args_last(second),
        _ => &NOTHING,
    }
}

// The items of an array.
pub fn array_items(first: Terminal) -> &'static [Item]
    ensures { result.now ≡ array_items first }
{
    match first {
        Terminal::CloseParen | Terminal::CloseBracket => &NOTHING,
        _ => &ARRAY_ITEMS,
    }
}

// Behind a comma of an array.
fn more_items_last(second: Terminal) -> &'static [Item]
    ensures { result.now ≡ more_items_last second }
{
    match second {
        Terminal::CloseParen | Terminal::CloseBracket => &MORE_ARGS_LAST_CLOSE_PAREN,
        _ => &MORE_ITEMS_LAST,
    }
}

// The other items of an array, which may end with a comma.
pub fn more_items(first: Terminal, second: Terminal) -> &'static [Item]
    ensures { result.now ≡ more_items first second }
{
    match first {
        Terminal::Comma => more_items_last(second),
        _ => &NOTHING,
    }
}

// The value behind the key of an item.
pub fn item_value(first: Terminal) -> &'static [Item]
    ensures { result.now ≡ item_value first }
{
    match first {
        Terminal::DoubleArrow => &ITEM_VALUE,
        _ => &NOTHING,
    }
}

// An item of a list form, which may be missing.
pub fn list_head(first: Terminal) -> &'static [Item]
    ensures { result.now ≡ list_head first }
{
    match first {
        Terminal::Comma | Terminal::CloseParen | Terminal::CloseBracket => &NOTHING,
        _ => &LIST_HEAD,
    }
}

// The other items of a list form.
pub fn list_more(first: Terminal) -> &'static [Item]
    ensures { result.now ≡ list_more first }
{
    match first {
        Terminal::Comma => &LIST_MORE,
        _ => &NOTHING,
    }
}

// The target behind the key of an item of a list form.
pub fn entry_value(first: Terminal) -> &'static [Item]
    ensures { result.now ≡ entry_value first }
{
    match first {
        Terminal::DoubleArrow => &ENTRY_VALUE,
        _ => &NOTHING,
    }
}

// The form of an item of an array.
pub fn item_form(first: Terminal) -> Form
    ensures { (result.0, result.1.now) ≡ item_form first }
{
    match first {
        Terminal::Ampersand => (NodeKind::Item, &ITEM),
        Terminal::Ellipsis => (NodeKind::Item, &ELLIPSIS_ITEM),
        _ => (NodeKind::Item, &ITEM_OTHER),
    }
}

// The form of an item of a list form.
pub fn list_item_form(first: Terminal) -> Form
    ensures { (result.0, result.1.now) ≡ list_item_form first }
{
    match first {
        Terminal::Ampersand => (NodeKind::Item, &AMPERSAND_ITEM),
        _ => (NodeKind::Item, &ITEM_OTHER_2),
    }
}
