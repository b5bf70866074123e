// Why settings are refused.
use span_edits::PathText;
use std::alloc::AllocError;
use thiserror::Error;

/// Why settings were refused. Of several refused keys the first in byte order is named, by the key alone.
#[derive(Debug, Drop, Error)]
pub enum SettingsFault {
    /// The bytes are no TOML document, or no UTF-8.
    #[error("the settings are no TOML document")]
    NotToml,
    /// A key that settings don't have.
    #[error("unknown key {}", .0.as_str())]
    UnknownKey(PathText),
    /// A key of `rules` that is no rule's name.
    #[error("unknown rule {}", .0.as_str())]
    UnknownRule(PathText),
    /// A key whose value has another type than the key table says.
    #[error("bad value of {}", .0.as_str())]
    BadValue(PathText),
    /// No memory was at hand.
    #[error("no memory")]
    Memory,
}

impl From<AllocError> for SettingsFault {
    ghost use Rattle.std.specs.Prelude.{◌≡◌};
    ghost use Rattle.rule_tables.specs.declared.settings_fault.SettingsFault.TheVariants.{Memory};

    ghost from_gives = { λ _ e. e ≡ Memory };

    fn from(_: AllocError) -> Self {
        SettingsFault::Memory
    }
}
