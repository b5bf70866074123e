// The rules on syntax that settings leave on.
ghost use Rattle.std.specs.Prelude.{◌≡◌};
ghost use Rattle.syntax_upgrade.specs.RulesOn.{rules_in};

use rule_tables::{RuleId, Settings};
use syntax_rules::Rules;

/// The rules on syntax that some settings leave on.
pub fn rules_of(settings: &Settings) -> Rules
    ensures { result ≡ rules_in settings.now }
{
    Rules {
        nested_ternaries: settings.is_on(RuleId::NestedTernary),
        dot_operands: settings.is_on(RuleId::DotPrecedence),
        brace_offsets: settings.is_on(RuleId::BraceOffset),
        real_casts: settings.is_on(RuleId::RealCast),
        unset_casts: settings.is_on(RuleId::UnsetCast),
        hash_comments: settings.is_on(RuleId::HashComment),
        split_names: settings.is_on(RuleId::SplitName),
        dollar_braces: settings.is_on(RuleId::DollarBrace),
    }
}
