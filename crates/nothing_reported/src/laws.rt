// The places of rules, and what 8.3 takes.
ghost use Rattle.nothing_reported.specs.Laws.{NothingReported};

/// In a file without a report no node is one that 8.3 refuses.
pub fn nothing_reported()
    ensures { NothingReported }
{}
