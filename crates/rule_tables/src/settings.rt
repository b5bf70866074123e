// The settings of an upgrade.
ghost use Rattle.std.specs.Prelude.{◌≡◌, Err, option_copied, option_map};
ghost use Rattle.rule_tables.specs.KeyTable.{outcome};
ghost use Rattle.rule_tables.specs.SettingsView.{SettingsView, has_rule};

use crate::checks::check_keys;
use crate::reads::{listed_entries, lists_rule, named_prepend, rules_off};
use crate::rule::RuleId;
use crate::settings_fault::SettingsFault;
use span_edits::PathText;
use std::alloc::Global;
use std::marker::Model;

/// The settings of an upgrade. Contracts see the rules that are off, the listed entries and the file that each run
/// starts with.
#[derive(Drop)]
pub struct Settings {
    off: Vec<RuleId>,
    entries: Option<Vec<PathText>>,
    prepend: Option<PathText>,
}

impl Model for Settings {
    ghost use Rattle.std.specs.Prelude.{option_map};
    ghost use Rattle.rule_tables.specs.SettingsView.{SettingsView};

    ghost Value = { SettingsView };

    ghost view = { λ s. record { off = s.off.items; entries = option_map (λ v. v.items) s.entries; prepend = s.prepend } };
}

impl Settings {
    /// Reads the settings from the bytes of a TOML document.
    ///
    /// `NotToml` comes exactly where the bytes are no TOML document or no UTF-8. Else the keys are looked at in byte
    /// order, and those of `rules` in theirs; the first at which something is refused is named. For each an unknown key
    /// is `UnknownKey`, or in `rules` `UnknownRule`, and then a value of the wrong type is `BadValue`.
    pub fn parse(alloc: Global, bytes: &[u8]) -> Result<Settings, SettingsFault>
        // Want of memory may come in place of what the bytes say, and nothing else.
        ensures answer { (result ≡ Err SettingsFault.Memory → ⊥) → result ≡ outcome bytes.now }
    {
        let text = match str::from_utf8(bytes) {
            Ok(text) => text,
            Err(_) => return Err(SettingsFault::NotToml),
        };
        let document = match toml::table_from_str(alloc, text) {
            Ok(document) => document,
            Err(error) => {
                if error.is_memory() {
                    return Err(SettingsFault::Memory);
                }
                return Err(SettingsFault::NotToml);
            }
        };
        check_keys(alloc, &document)?;
        let off = rules_off(alloc, &document)?;
        let entries = listed_entries(alloc, &document)?;
        let prepend = named_prepend(alloc, &document)?;
        Ok(Settings {
            off,
            entries,
            prepend,
        })
    }

    /// Whether a rule is on. Each rule is on that the settings don't switch off.
    pub fn is_on(&self, rule: RuleId) -> bool
        ensures { result ≡ has_rule self.now rule }
    {
        !lists_rule(self.off.as_slice(), rule)
    }

    /// The paths of the entries, or `None` where every file is an entry.
    pub fn entries(&self) -> Option<&[PathText]>
        ensures { option_copied result ≡ self.now.entries }
    {
        match &self.entries {
            Some(entries) => Some(entries.as_slice()),
            None => None,
        }
    }

    /// The path of the file that each run starts with, or `None`.
    pub fn prepend(&self) -> Option<&PathText>
        ensures { option_copied result ≡ self.now.prepend }
    {
        self.prepend.as_ref()
    }
}
