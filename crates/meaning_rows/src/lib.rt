//! Whole programs, computed in both meanings. No program runs this crate's functions: each carries a law as its contract.
#![tactic(auto)]

ghost use Rattle.meaning_rows.specs.Page.{PageComes};
ghost use Rattle.meaning_rows.specs.Unlisted.{UnlistedAreOutside};

/// A page of two files, with a class, an include, a loop, inline HTML and a request: 7.4 echoes of the source what 8.3
/// echoes of the rewritten files.
pub fn page_echoes_the_same()
    ensures { PageComes }
{}

/// Values that the row of a builtin doesn't list, by their kinds or by how many they are, have no meaning as its
/// arguments, in either version.
pub fn unlisted_arguments_are_outside()
    ensures { UnlistedAreOutside }
{}
