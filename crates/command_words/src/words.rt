// The command that the words ask for.
ghost use Rattle.std.specs.Prelude.{◌≡◌, map, string_bytes};
ghost use Rattle.command_words.specs.Words as spec;

use crate::settings_option::settings_of;
use std::alloc::{AllocError, Global};

/// What is to be done, with the name of the settings file.
#[derive(Drop)]
pub enum Command {
    /// Upgrade, and write.
    Upgrade(String),
    /// Upgrade, and write nothing.
    Check(String),
}

/// Why there is no command.
#[derive(Clone, Copy, Debug, PartialEq, Eq)]
pub enum WordsFault {
    /// The words are not in the grammar.
    Refused,
    /// No memory was at hand.
    Memory,
}

impl From<AllocError> for WordsFault {
    ghost use Rattle.std.specs.Prelude.{◌≡◌};
    ghost use Rattle.command_words.specs.declared.words.WordsFault.TheVariants.{Memory};

    ghost from_gives = { λ _ e. e ≡ Memory };

    fn from(_: AllocError) -> Self {
        WordsFault::Memory
    }
}

// The command `upgrade`.
fn read_upgrade(alloc: Global, words: &[String]) -> Result<Command, WordsFault>
    ensures { spec.IsReading (spec.upgrade_in (map string_bytes words.now)) result }
{
    match settings_of(alloc, "upgrade", words)? {
        Some(name) => Ok(Command::Upgrade(name)),
        None => Err(WordsFault::Refused),
    }
}

// The command `check`.
fn read_check(alloc: Global, words: &[String]) -> Result<Command, WordsFault>
    ensures { spec.IsReading (spec.check_in (map string_bytes words.now)) result }
{
    match settings_of(alloc, "check", words)? {
        Some(name) => Ok(Command::Check(name)),
        None => Err(WordsFault::Refused),
    }
}

/// The command of the words behind the program's name. `Refused` comes exactly where they are not in the grammar.
pub fn read_words(alloc: Global, words: &[String]) -> Result<Command, WordsFault>
    ensures { spec.IsReading (spec.asked (map string_bytes words.now)) result }
{
    let Some(first) = words.first() else {
        return Err(WordsFault::Refused);
    };
    if first.as_str() == "upgrade" {
        return read_upgrade(alloc, words);
    }
    if first.as_str() == "check" {
        return read_check(alloc, words);
    }
    Err(WordsFault::Refused)
}
