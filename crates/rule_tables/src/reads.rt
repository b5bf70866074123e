// What a document says at its keys.
ghost use Rattle.std.specs.Prelude.{◌≡◌, ◌==◌, IfOk, option_map, option_and_then, codes, filter};
ghost use Rattle.std.specs.List.{list_any};
ghost use Rattle.toml.specs.Data.{get_member, as_array, as_bool, as_str, as_table};
ghost use Rattle.toml.specs.View.{view, items_view, table_view};
ghost use Rattle.rule_tables.specs.KeyTable.{is_text_list, are_texts};
ghost use Rattle.rule_tables.specs.Rules.{all_rules, number_of};
ghost use Rattle.rule_tables.specs.SettingsView.{texts_of, switches_off, is_false};

use crate::rule::RuleId;
use span_edits::PathText;
use std::alloc::{AllocError, Global};
use toml::{Table, Value};

/// The value at a key of a table.
fn value_at<'a>(table: &'a Table, key: &str) -> Option<&'a Value>
    ensures { option_map (λ v. view v.now) result ≡ get_member key.now (table_view table.now) }
{
    table.get(key)
}

/// Whether a value is a list of texts.
pub(crate) fn is_text_list(value: &Value) -> bool
    ensures { result ≡ is_text_list (view value.now) }
{
    match value.as_array() {
        Some(items) => are_texts(items.as_slice()),
        None => false,
    }
}

fn are_texts(items: &[Value]) -> bool
    ensures { result ≡ are_texts (items_view items.now) }
{
    for item in items {
        if !item.is_str() {
            return false;
        }
    }
    true
}

/// The rules that a document switches off.
pub(crate) fn rules_off(alloc: Global, document: &Table) -> Result<Vec<RuleId>, AllocError>
    ensures { IfOk result (λ v. v.items ≡ filter (λ rule. switches_off (table_view document.now) rule) all_rules) }
{
    RuleId::ALL
        .iter()
        .copied()
        .filter(|rule| is_switched_off(document, *rule))
        .collect(alloc)
}

fn is_switched_off(document: &Table, rule: RuleId) -> bool
    ensures { result ≡ switches_off (table_view document.now) rule }
{
    match rules_of(document) {
        Some(rules) => is_false_at(rules, rule.name()),
        None => false,
    }
}

fn rules_of(document: &Table) -> Option<&Table>
    ensures { option_map (λ t. table_view t.now) result ≡
        option_and_then as_table (get_member (codes "rules") (table_view document.now)) }
{
    match value_at(document, "rules") {
        Some(value) => value.as_table(),
        None => None,
    }
}

fn is_false_at(rules: &Table, name: &str) -> bool
    ensures { result ≡ is_false (option_and_then as_bool (get_member name.now (table_view rules.now))) }
{
    match value_at(rules, name) {
        Some(value) => value.as_bool() == Some(false),
        None => false,
    }
}

/// Whether a list of rules has a rule.
pub(crate) fn lists_rule(rules: &[RuleId], rule: RuleId) -> bool
    ensures { result ≡ list_any (λ r. number_of r == number_of rule) rules.now }
{
    rules.iter().any(|other| other.number() == rule.number())
}

/// The entries that a document lists, if it does.
pub(crate) fn listed_entries(
    alloc: Global,
    document: &Table,
) -> Result<Option<Vec<PathText>>, AllocError>
    ensures { IfOk result (λ o. option_map (λ v. v.items) o ≡
        option_map texts_of (option_and_then as_array (get_member (codes "entries") (table_view document.now)))) }
{
    match items_at(document, "entries") {
        Some(items) => Ok(Some(paths_of(alloc, items)?)),
        None => Ok(None),
    }
}

fn items_at<'a>(table: &'a Table, key: &str) -> Option<&'a [Value]>
    ensures { option_map (λ v. items_view v.now) result ≡
        option_and_then as_array (get_member key.now (table_view table.now)) }
{
    match value_at(table, key) {
        Some(value) => match value.as_array() {
            Some(items) => Some(items.as_slice()),
            None => None,
        },
        None => None,
    }
}

fn paths_of(alloc: Global, items: &[Value]) -> Result<Vec<PathText>, AllocError>
    ensures { IfOk result (λ v. v.items ≡ texts_of (items_view items.now)) }
{
    let mut paths = Vec::new(alloc);
    for item in items {
        if let Some(text) = item.as_str() {
            paths.push(path_of(alloc, text)?)?;
        }
    }
    Ok(paths)
}

/// The file that a document names as the one that each run starts with, if it does.
pub(crate) fn named_prepend(alloc: Global, document: &Table) -> Result<Option<PathText>, AllocError>
    ensures { IfOk result (λ o. o ≡ option_and_then as_str (get_member (codes "prepend") (table_view document.now))) }
{
    match text_at(document, "prepend") {
        Some(text) => Ok(Some(path_of(alloc, text)?)),
        None => Ok(None),
    }
}

fn text_at<'a>(table: &'a Table, key: &str) -> Option<&'a str>
    ensures { option_map (λ s. s.now) result ≡ option_and_then as_str (get_member key.now (table_view table.now)) }
{
    match value_at(table, key) {
        Some(value) => value.as_str(),
        None => None,
    }
}

/// The path of a text.
pub(crate) fn path_of(alloc: Global, text: &str) -> Result<PathText, AllocError>
    ensures { IfOk result (λ p. p ≡ text.now) }
{
    Ok(PathText::new(String::from_str(alloc, text)?))
}
