// What settings say of a rule: a law, carried by a function that does nothing.
ghost use Rattle.std.specs.Prelude.{◌≡◌, not};
ghost use Rattle.toml.specs.Data.{Members};
ghost use Rattle.rule_tables.specs.declared.rule.RuleId.{RuleId};
ghost use Rattle.rule_tables.specs.SettingsView.{has_rule, settings_of, switches_off};

/// A rule is on exactly where the document doesn't switch it off.
pub fn rule_is_on_unless_switched_off()
    ensures { (document : Members) (rule : RuleId) → has_rule (settings_of document) rule ≡ not (switches_off document rule) }
{}
