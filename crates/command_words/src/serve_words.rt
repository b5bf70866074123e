// The words of `serve`, whose two options name the port and the number of connections.
ghost use Rattle.std.specs.Prelude.{◌≡◌, IfOk, map, string_bytes};
ghost use Rattle.command_words.specs.ServeWords.{IsNumberOption, serving_asked, serving_by, serving_in};

use clap::builder::ValueParser;
use clap::error::ErrorKind;
use clap::{Arg, ArgAction, Command};
use std::alloc::{AllocError, Global};

/// The greatest port.
const MAX_PORT: u64 = 65_535;

/// The greatest number of connections that one `serve` answers.
const MAX_CONNECTIONS: u64 = 1_000_000;

/// What `serve` listens on, and how many connections it answers.
#[derive(Clone, Copy, Debug, PartialEq, Eq)]
pub struct Serving {
    /// From 1 to 65,535.
    pub port: u16,
    /// From 1 to 1,000,000.
    pub connections: u32,
}

// A required option of this name, of one whole number from 1 to `most`.
fn number_option(alloc: Global, name: &'static str, most: u64) -> Arg<'static>
    ensures { IsNumberOption name.now most result }
{
    Arg::new(alloc, name)
        .long(name)
        .required(true)
        .action(ArgAction::Set)
        .value_parser(ValueParser::unsigned(1, most))
}

// What both numbers ask for.
fn both_given(port: Option<u16>, connections: Option<u32>) -> Option<Serving>
    ensures { result ≡ serving_by port connections }
{
    Some(Serving {
        port: port?,
        connections: connections?,
    })
}

// What is asked for, where the words, the command's own first, are those of `serve`; else none. The only error is want
// of memory.
fn serving_of(alloc: Global, words: &[String]) -> Result<Option<Serving>, AllocError>
    ensures { IfOk result (λ o. o ≡ serving_in (map string_bytes words.now)) }
{
    let port = number_option(alloc, "port", MAX_PORT);
    let connections = number_option(alloc, "connections", MAX_CONNECTIONS);
    let command = Command::new(alloc, "serve").arg(port)?.arg(connections)?;
    match command.try_get_matches_from(words) {
        Ok(matches) => {
            let port = matches.get_one::<u16>("port");
            let connections = matches.get_one::<u32>("connections");
            Ok(both_given(port, connections))
        }
        Err(error) => match error.kind() {
            ErrorKind::OutOfMemory => Err(AllocError),
            _ => Ok(None),
        },
    }
}

/// What is asked for, where the words behind the program's name are those of `serve`: `serve --port P --connections N`,
/// P from 1 to 65,535 and N from 1 to 1,000,000. Else none. The only error is want of memory.
pub fn read_serving(alloc: Global, words: &[String]) -> Result<Option<Serving>, AllocError>
    ensures { IfOk result (λ o. o ≡ serving_asked (map string_bytes words.now)) }
{
    match words.first() {
        Some(first) if first.as_str() == "serve" => serving_of(alloc, words),
        _ => Ok(None),
    }
}
