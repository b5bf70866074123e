// Nested ternaries get parentheses.
//
// Before: true ? 'a' : false ? 'b' : 'c'
// After:  (true ? 'a' : false) ? 'b' : 'c'
ghost use Rattle.syntax_rules.specs.NestedTernary.{GroupingKeepsMeaning};

/// From every entry, on every input and for every bound, a run of files with their nested ternaries in parentheses has
/// in 8.3 the echo and the end of the 7.4 run of the files, wherever that one stays inside the profile.
pub fn nested_ternary_keeps_meaning()
    ensures { GroupingKeepsMeaning }
{}
