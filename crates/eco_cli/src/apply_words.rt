//! The words of the command `apply`.

ghost use Rattle.std.specs.Prelude.{◌≡◌, map, string_bytes, IfOk};
ghost use Rattle.eco_cli.specs.ApplyCommand.{apply_options, apply_of, AsksApply};
ghost use Rattle.eco_cli.specs.CommandLine.{HasReading, listed_of};

use crate::command_line::value;
use crate::command_option::{CommandOption, OptionKind};
use crate::value_form::{feeds, items, table};
use eco_common::{MAX_DEF_BYTES, MAX_DESK_BYTES, MAX_FUNCTIONS_BYTES, MAX_LEF_BYTES};
use eco_embed::Feed;
use eco_func::Table;
use std::alloc::{AllocError, Global};

static APPLY_OPTIONS: [CommandOption; 13] = [
    CommandOption {
        word: "--lef",
        kind: OptionKind::Input {
            limit: MAX_LEF_BYTES,
        },
    },
    CommandOption {
        word: "--def",
        kind: OptionKind::Input {
            limit: MAX_DEF_BYTES,
        },
    },
    CommandOption {
        word: "--functions",
        kind: OptionKind::Input {
            limit: MAX_FUNCTIONS_BYTES,
        },
    },
    CommandOption {
        word: "--desk",
        kind: OptionKind::Input {
            limit: MAX_DESK_BYTES,
        },
    },
    CommandOption {
        word: "--spare",
        kind: OptionKind::Text,
    },
    CommandOption {
        word: "--table",
        kind: OptionKind::Table,
    },
    CommandOption {
        word: "--inputs",
        kind: OptionKind::Names,
    },
    CommandOption {
        word: "--pins",
        kind: OptionKind::Feeds,
    },
    CommandOption {
        word: "--output",
        kind: OptionKind::Text,
    },
    CommandOption {
        word: "--comp",
        kind: OptionKind::Text,
    },
    CommandOption {
        word: "--pin",
        kind: OptionKind::Text,
    },
    CommandOption {
        word: "--from",
        kind: OptionKind::Text,
    },
    CommandOption {
        word: "--out",
        kind: OptionKind::Text,
    },
];

/// The options of `apply`, in the order in which inputs are opened.
pub fn apply_options() -> &'static [CommandOption]
    ensures { map listed_of result.now ≡ apply_options }
{
    &APPLY_OPTIONS
}

/// A patch gate, the spare that it goes to, and the pin that is moved to its output.
#[derive(Drop)]
pub struct ApplyWords<'a> {
    pub spare: &'a str,
    pub table: Table,
    /// The nets at the gate's inputs, in the order of a row's bits.
    pub inputs: Vec<&'a str>,
    /// What each input pin of the spare is put on, in the order of its master.
    pub feeds: Vec<Feed>,
    /// The new net.
    pub output: &'a str,
    /// The pin that is moved, and the net that it is moved from.
    pub comp: &'a str,
    pub pin: &'a str,
    pub from: &'a str,
}

/// What the words behind `apply` ask.
pub fn apply_words<'a>(alloc: Global, words: &'a [String]) -> Result<ApplyWords<'a>, AllocError>
    requires { HasReading apply_options (map string_bytes words.now) }
    ensures { IfOk result (λ a. AsksApply (map string_bytes words.now) (apply_of a)) }
{
    Ok(ApplyWords {
        spare: value(words, "--spare"),
        table: table(value(words, "--table")),
        inputs: items(alloc, value(words, "--inputs"))?,
        feeds: feeds(alloc, value(words, "--pins"))?,
        output: value(words, "--output"),
        comp: value(words, "--comp"),
        pin: value(words, "--pin"),
        from: value(words, "--from"),
    })
}
