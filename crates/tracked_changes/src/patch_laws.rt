// Changes of trees: from one table of them, the edits of the source and the rewritten tree. The definitions stand in
// `specs/`; the one function here carries the law that both agree.

ghost use Rattle.tracked_changes.specs.patches.Laws.{SplicedIsRewritten};

/// The source's bytes with the edits made are the rewritten tree, printed.
pub fn spliced_is_rewritten()
    ensures { SplicedIsRewritten }
{}
