// Where no place of a rule that is off is reported, what is written is what all rules together write.
ghost use Rattle.rules_off.specs.Laws.{RulesOff};

/// Rules that are off and report no place leave nothing out: the edits and the rewritten file are those of all rules.
pub fn rules_off()
    ensures { RulesOff }
{}
