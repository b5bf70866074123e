// Numbers of declarations.
ghost use Rattle.scope_names.specs.Numbers.{DeclarationsAreNumbered};

/// The declarations of a file are numbered from 0 in the order of their first tokens: each has a number of its own.
pub fn declarations_are_numbered()
    ensures { DeclarationsAreNumbered }
{}
