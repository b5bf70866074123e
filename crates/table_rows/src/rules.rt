// Rows of rules.
use rule_tables::RuleId;
use std::alloc::AllocError;

/// The number of the rule of a name, the weight of its reports of places that it would edit, and that of its reports of
/// undecided places.
pub fn rule(name: &str, out: &mut String) -> Result<(), AllocError> {
    out.push_str("  => ")?;
    let Some(rule) = RuleId::named(name) else {
        return out.push_str("none");
    };
    let number = rule.number();
    write!(out, "{number} ")?;
    out.push_str(rule.weight().name())?;
    out.push(' ')?;
    out.push_str(rule.undecided_weight().name())
}
