// The words of a command whose one option names the settings file.
ghost use Rattle.std.specs.Prelude.{◌≡◌, IfOk, map, option_map, string_bytes};
ghost use Rattle.command_words.specs.Words.{settings_in, with_settings};

use clap::error::ErrorKind;
use clap::{Arg, ArgAction, Command};
use std::alloc::{AllocError, Global};

/// The name of the settings file, where the words, the command's own first, are those of a command of this name with
/// one required option, `--settings`, of one text; else none. The only error is want of memory.
pub(crate) fn settings_of(
    alloc: Global,
    name: &'static str,
    words: &[String],
) -> Result<Option<String>, AllocError>
    ensures { IfOk result (λ o. option_map (λ s. string_bytes s) o
        ≡ settings_in (with_settings name.now) (map string_bytes words.now)) }
{
    let settings = Arg::new(alloc, "settings")
        .long("settings")
        .required(true)
        .action(ArgAction::Set);
    let command = Command::new(alloc, name).arg(settings)?;
    match command.try_get_matches_from(words) {
        Ok(matches) => match matches.get_str("settings") {
            Some(text) => Ok(Some(String::from_str(alloc, text)?)),
            None => Ok(None),
        },
        Err(error) => match error.kind() {
            ErrorKind::OutOfMemory => Err(AllocError),
            _ => Ok(None),
        },
    }
}
