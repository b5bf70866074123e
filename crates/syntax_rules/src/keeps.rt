// What the rules on syntax keep, all together.
ghost use Rattle.syntax_rules.specs.Keeps.{RewritingKeepsMeaning};
ghost use Rattle.syntax_rules.specs.DoTheSame.{UnsetCastsAreNull, BracesDoTheSame};

/// From every entry, on every input and for every bound, a run of files rewritten by the rules on syntax that are on has in 8.3
/// the echo and the end of the 7.4 run of the files, wherever that one stays inside the profile and asks at no point where the
/// versions differ. Each literal and each operator of the files is one token, as in every tree of the grammar.
pub fn rewriting_keeps_meaning()
    ensures { RewritingKeepsMeaning }
{}

/// `(unset)$x` in 7.4 and `(null)` in 8.3 do the same at their nodes, whatever `$x` holds.
pub fn unset_casts_are_null()
    ensures { UnsetCastsAreNull }
{}

/// The text `"${x}"` in 7.4 and `"{$x}"` in 8.3 do the same at their nodes.
pub fn braces_do_the_same()
    ensures { BracesDoTheSame }
{}
