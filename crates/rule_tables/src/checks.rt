// What the key table refuses in a document.
ghost use Rattle.std.specs.Prelude.{◌≡◌, IfOk, option_map};
ghost use Rattle.toml.specs.View.{view, table_view};
ghost use Rattle.rule_tables.specs.Checks.{IsCheck};
ghost use Rattle.rule_tables.specs.KeyTable.{key_fault, rule_fault, least_refused, unless};

use crate::reads::{is_text_list, path_of};
use crate::rule::RuleId;
use crate::settings_fault::SettingsFault;
use std::alloc::Global;
use toml::{Table, Value};

/// Refuses at the first key in byte order at which something is refused.
pub(crate) fn check_keys(alloc: Global, document: &Table) -> Result<(), SettingsFault>
    ensures { IsCheck (option_map (λ r. r.1) (least_refused key_fault (table_view document.now))) result }
{
    for (key, value) in document {
        check_key(alloc, key.as_str(), value)?;
    }
    Ok(())
}

fn check_key(alloc: Global, key: &str, value: &Value) -> Result<(), SettingsFault>
    ensures { IsCheck (key_fault key.now (view value.now)) result }
{
    if key == "entries" {
        return check_value(alloc, key, is_text_list(value));
    }
    if key == "prepend" {
        return check_value(alloc, key, value.is_str());
    }
    if key == "rules" {
        return match value.as_table() {
            Some(rules) => check_rules(alloc, rules),
            None => check_value(alloc, key, false),
        };
    }
    Err(SettingsFault::UnknownKey(path_of(alloc, key)?))
}

fn check_rules(alloc: Global, rules: &Table) -> Result<(), SettingsFault>
    ensures { IsCheck (option_map (λ r. r.1) (least_refused rule_fault (table_view rules.now))) result }
{
    for (name, switch) in rules {
        check_rule(alloc, name.as_str(), switch)?;
    }
    Ok(())
}

fn check_rule(alloc: Global, name: &str, switch: &Value) -> Result<(), SettingsFault>
    ensures { IsCheck (rule_fault name.now (view switch.now)) result }
{
    match RuleId::named(name) {
        Some(_) => check_value(alloc, name, switch.is_bool()),
        None => Err(SettingsFault::UnknownRule(path_of(alloc, name)?)),
    }
}

fn check_value(alloc: Global, key: &str, is_right: bool) -> Result<(), SettingsFault>
    ensures { IsCheck (unless is_right key.now) result }
{
    if is_right {
        return Ok(());
    }
    Err(SettingsFault::BadValue(path_of(alloc, key)?))
}
