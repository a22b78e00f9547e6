//! Reading the inputs of a command.

ghost use Rattle.std.specs.Prelude.{◌≡◌, [], ◌∷◌, map, string_bytes};
ghost use Rattle.eco_cli.specs.CommandLine.{listed_of, inputs_in};
ghost use Rattle.eco_cli.specs.Opens.{Settled};
ghost use Rattle.eco_cli.specs.Returns.{Returns};
ghost use Rattle.eco_cli.specs.Steps.{Reading, ReadingAll};

use crate::command_line::value;
use crate::command_option::{CommandOption, OptionKind};
use crate::failure::Failure;
use crate::host::Host;
use crate::host_fault::HostFault;
use crate::input::{InputFault, read_all};
use std::alloc::Global;

/// The whole text of the source of that name, which the option gives.
fn read_text<H: Host>(
    alloc: Global,
    host: &mut H,
    option: &'static str,
    limit: u32,
    name: &str,
) -> Result<Vec<u8>, Failure>
    ensures reading { Reading H.told H.Input.left host.old host.new (record { option = option.now; name = name.now; limit = limit }) (λ v. v.items) result }
    ensures returned { Returns H.told H.Input.left host.old host.new (record { option = option.now; name = name.now; limit = limit } ∷ []) result }
    ensures settled { Settled H.told host.old host.new }
    ensures sinks { H.told.sinks_back host.new ≡ H.told.sinks_back host.old }
{
    let mut source = match host.source(name) {
        Ok(source) => source,
        Err(HostFault::Refused) => return Err(Failure::Read),
        Err(HostFault::Memory) => return Err(Failure::Memory),
    };
    let text = read_all(alloc, limit as usize, &mut source);
    host.done_source(source);
    match text {
        Ok(text) => Ok(text),
        Err(InputFault::TooLong) => Err(Failure::TooLong(option)),
        Err(InputFault::Read) => Err(Failure::Read),
        Err(InputFault::Memory) => Err(Failure::Memory),
    }
}

/// The texts of the inputs that the words name, in the order of the options. One that fails ends the reading.
pub fn read_texts<H: Host>(
    alloc: Global,
    host: &mut H,
    options: &'static [CommandOption],
    words: &[String],
) -> Result<Vec<Vec<u8>>, Failure>
    ensures reading { ReadingAll H.told H.Input.left host.old host.new (inputs_in (map listed_of options.now) (map string_bytes words.now)) (λ v. map (λ t. t.items) v.items) result }
    ensures returned { Returns H.told H.Input.left host.old host.new (inputs_in (map listed_of options.now) (map string_bytes words.now)) result }
    ensures settled { Settled H.told host.old host.new }
    ensures sinks { H.told.sinks_back host.new ≡ H.told.sinks_back host.old }
{
    let mut texts = Vec::new(alloc);
    for option in options {
        let OptionKind::Input { limit } = option.kind else {
            continue;
        };
        let name = value(words, option.word);
        let text = read_text(alloc, host, option.word, limit, name)?;
        if texts.push(text).is_err() {
            return Err(Failure::Memory);
        }
    }
    Ok(texts)
}
