//! The words of the command `move`.

ghost use Rattle.std.specs.Prelude.{◌≡◌, map, string_bytes};
ghost use Rattle.eco_cli.specs.CommandLine.{listed_of};
ghost use Rattle.eco_cli.specs.MoveCommand.{move_in, move_of, move_options};

use crate::command_line::value;
use crate::command_option::{CommandOption, OptionKind};
use eco_common::MAX_DEF_BYTES;

static MOVE_OPTIONS: [CommandOption; 6] = [
    CommandOption {
        word: "--def",
        kind: OptionKind::Input {
            limit: MAX_DEF_BYTES,
        },
    },
    CommandOption {
        word: "--comp",
        kind: OptionKind::Text,
    },
    CommandOption {
        word: "--pin",
        kind: OptionKind::Text,
    },
    CommandOption {
        word: "--from",
        kind: OptionKind::Text,
    },
    CommandOption {
        word: "--to",
        kind: OptionKind::Text,
    },
    CommandOption {
        word: "--out",
        kind: OptionKind::Text,
    },
];

/// The options of `move`, in the order in which inputs are opened.
pub fn move_options() -> &'static [CommandOption]
    ensures { map listed_of result.now ≡ move_options }
{
    &MOVE_OPTIONS
}

/// The pin that is moved, and its nets.
#[derive(Clone, Copy, Drop)]
pub struct MoveWords<'a> {
    pub comp: &'a str,
    pub pin: &'a str,
    pub from: &'a str,
    pub to: &'a str,
}

/// The move that the words behind `move` ask.
pub fn move_words<'a>(words: &'a [String]) -> MoveWords<'a>
    ensures { move_of result ≡ move_in (map string_bytes words.now) }
{
    MoveWords {
        comp: value(words, "--comp"),
        pin: value(words, "--pin"),
        from: value(words, "--from"),
        to: value(words, "--to"),
    }
}
