//! The commands, and what a command line asks.

ghost use Rattle.std.specs.Prelude.{◌≡◌, map, string_bytes, MatchResult};
ghost use Rattle.eco_cli.specs.CommandLine.{listed_of};
ghost use Rattle.eco_cli.specs.Commands.{command_named, options_of, Asks, IsBadWord};

use crate::apply_words::apply_options;
use crate::check_words::check_options;
use crate::command_line::first_bad;
use crate::command_option::CommandOption;
use crate::move_words::move_options;

/// A command of the program.
#[derive(Clone, Copy, Debug, Drop, PartialEq, Eq)]
pub enum Command {
    Move,
    Check,
    Apply,
}

/// What a command line asks: a command, and the words behind it.
#[derive(Clone, Copy, Drop)]
pub struct Asked<'a> {
    pub command: Command,
    pub values: &'a [String],
}

fn named(word: &str) -> Option<Command>
    ensures { result ≡ command_named word.now }
{
    if word == "move" {
        Some(Command::Move)
    } else if word == "check" {
        Some(Command::Check)
    } else if word == "apply" {
        Some(Command::Apply)
    } else {
        None
    }
}

/// The options of a command, in the order in which inputs are opened.
pub fn options(command: Command) -> &'static [CommandOption]
    ensures { map listed_of result.now ≡ options_of command }
{
    match command {
        Command::Move => move_options(),
        Command::Check => check_options(),
        Command::Apply => apply_options(),
    }
}

/// What a command line asks, or the index of its first bad word.
pub fn read_line<'a>(words: &'a [String]) -> Result<Asked<'a>, usize>
    ensures { MatchResult result (λ a. Asks (map string_bytes words.now) a.command (map string_bytes a.values.now)) (λ n. IsBadWord (map string_bytes words.now) n) }
{
    let [word, values @ ..] = words else {
        return Err(0);
    };
    let Some(command) = named(word.as_str()) else {
        return Err(0);
    };
    match first_bad(options(command), values) {
        Some(place) => Err(place + 1),
        None => Ok(Asked { command, values }),
    }
}
