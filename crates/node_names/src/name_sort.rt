// What a name is the name of.

/// What a name is the name of. Classes and interfaces have one space of names; a member's name is told by its kind alone,
/// whatever class it is a member of.
#[derive(Clone, Copy, Debug, PartialEq, Eq, PartialOrd, Ord, Hash)]
pub enum NameSort {
    Function,
    Class,
    Constant,
    Method,
    ClassConstant,
    Property,
}
