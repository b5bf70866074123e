// Names of functions, classes, constants and namespaces.
ghost use Rattle.std.specs.Prelude.{◌≡◌};
ghost use Rattle.php_forms.specs.Names.{called_name, grouped_class, grouped_name, imported_class, imported_name, more_names, name, name_lead, name_more, name_more_label, namespace_name, root_lead};

use crate::item::Item::{self, Part, Repeats, Word};
use crate::item::{Group, NOTHING};
use php_terminals::terminal::Terminal;
use php_tree::Version;

static NAME_74: [Item; 3] = [
    Part(Group::NameLead),
    Word(Terminal::AnyLabel),
    Repeats(Group::NameMore),
];

static NAME_83: [Item; 1] = [Word(Terminal::NameToken)];

static CALLED_NAME_83: [Item; 1] = [Word(Terminal::CalledName)];

static NAMESPACE_NAME_74: [Item; 2] = [Word(Terminal::AnyLabel), Repeats(Group::NameMore)];

static NAMESPACE_NAME_83: [Item; 1] = [Word(Terminal::NamespaceToken)];

static NAME_LEAD_BACKSLASH: [Item; 1] = [Word(Terminal::Backslash)];

static NAME_LEAD_NAMESPACE: [Item; 2] = [Word(Terminal::Namespace), Word(Terminal::Backslash)];

static NAME_MORE_LABEL_LABEL: [Item; 2] = [Word(Terminal::Backslash), Word(Terminal::AnyLabel)];

static MORE_NAMES: [Item; 2] = [Word(Terminal::Comma), Part(Group::Name)];

static IMPORTED_NAME_74: [Item; 3] = [
    Part(Group::RootLead),
    Word(Terminal::AnyLabel),
    Repeats(Group::NameMore),
];

static IMPORTED_NAME_83: [Item; 1] = [Word(Terminal::ImportedName)];

static IMPORTED_CLASS_83: [Item; 1] = [Word(Terminal::ImportedClass)];

static GROUPED_NAME_83: [Item; 1] = [Word(Terminal::GroupedName)];

static GROUPED_CLASS_83: [Item; 1] = [Word(Terminal::GroupedClass)];

// A name.
pub fn name(version: Version) -> &'static [Item]
    ensures { result.now ≡ name version }
{
    match version {
        Version::V74 => &NAME_74,
        Version::V83 => &NAME_83,
    }
}

// The name of a function that is called.
pub fn called_name(version: Version) -> &'static [Item]
    ensures { result.now ≡ called_name version }
{
    match version {
        Version::V74 => &NAME_74,
        Version::V83 => &CALLED_NAME_83,
    }
}

// The name of a namespace.
pub fn namespace_name(version: Version) -> &'static [Item]
    ensures { result.now ≡ namespace_name version }
{
    match version {
        Version::V74 => &NAMESPACE_NAME_74,
        Version::V83 => &NAMESPACE_NAME_83,
    }
}

// What a name may begin with, in 7.4.
pub fn name_lead(first: Terminal) -> &'static [Item]
    ensures { result.now ≡ name_lead first }
{
    match first {
        Terminal::Backslash => &NAME_LEAD_BACKSLASH,
        Terminal::Namespace => &NAME_LEAD_NAMESPACE,
        _ => &NOTHING,
    }
}

// Behind a backslash of a name.
fn name_more_label(second: Terminal) -> &'static [Item]
    ensures { result.now ≡ name_more_label second }
{
    match second {
        Terminal::Label | Terminal::Match | Terminal::Readonly | Terminal::MixedOrNever =>
            &NAME_MORE_LABEL_LABEL,
        _ => &NOTHING,
    }
}

// The further parts of a name, in 7.4.
pub fn name_more(first: Terminal, second: Terminal) -> &'static [Item]
    ensures { result.now ≡ name_more first second }
{
    match first {
        Terminal::Backslash => name_more_label(second),
        _ => &NOTHING,
    }
}

// The other names of a list.
pub fn more_names(first: Terminal) -> &'static [Item]
    ensures { result.now ≡ more_names first }
{
    match first {
        Terminal::Comma => &MORE_NAMES,
        _ => &NOTHING,
    }
}

// A name in a use of functions or constants.
pub fn imported_name(version: Version) -> &'static [Item]
    ensures { result.now ≡ imported_name version }
{
    match version {
        Version::V74 => &IMPORTED_NAME_74,
        Version::V83 => &IMPORTED_NAME_83,
    }
}

// A name in a use that it gives to a class.
pub fn imported_class(version: Version) -> &'static [Item]
    ensures { result.now ≡ imported_class version }
{
    match version {
        Version::V74 => &IMPORTED_NAME_74,
        Version::V83 => &IMPORTED_CLASS_83,
    }
}

// A name in braces in a use of functions or constants.
pub fn grouped_name(version: Version) -> &'static [Item]
    ensures { result.now ≡ grouped_name version }
{
    match version {
        Version::V74 => &NAMESPACE_NAME_74,
        Version::V83 => &GROUPED_NAME_83,
    }
}

// A name in braces in a use that it gives to a class.
pub fn grouped_class(version: Version) -> &'static [Item]
    ensures { result.now ≡ grouped_class version }
{
    match version {
        Version::V74 => &NAMESPACE_NAME_74,
        Version::V83 => &GROUPED_CLASS_83,
    }
}

// The backslash that a name in a use may begin with, in 7.4.
pub fn root_lead(first: Terminal) -> &'static [Item]
    ensures { result.now ≡ root_lead first }
{
    match first {
        Terminal::Backslash => &NAME_LEAD_BACKSLASH,
        _ => &NOTHING,
    }
}
