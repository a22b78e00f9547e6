//! The words of the command `check`.

ghost use Rattle.std.specs.Prelude.{◌≡◌, map};
ghost use Rattle.eco_cli.specs.CommandLine.{listed_of};
ghost use Rattle.eco_cli.specs.CheckCommand.{check_options};

use crate::command_option::{CommandOption, OptionKind};
use eco_common::{MAX_DEF_BYTES, MAX_DESK_BYTES, MAX_FUNCTIONS_BYTES, MAX_LEF_BYTES};

static CHECK_OPTIONS: [CommandOption; 4] = [
    CommandOption {
        word: "--lef",
        kind: OptionKind::Input {
            limit: MAX_LEF_BYTES,
        },
    },
    CommandOption {
        word: "--def",
        kind: OptionKind::Input {
            limit: MAX_DEF_BYTES,
        },
    },
    CommandOption {
        word: "--functions",
        kind: OptionKind::Input {
            limit: MAX_FUNCTIONS_BYTES,
        },
    },
    CommandOption {
        word: "--desk",
        kind: OptionKind::Input {
            limit: MAX_DESK_BYTES,
        },
    },
];

/// The options of `check`, in the order in which inputs are opened.
pub fn check_options() -> &'static [CommandOption]
    ensures { map listed_of result.now ≡ check_options }
{
    &CHECK_OPTIONS
}
