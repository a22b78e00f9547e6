//! Running a command line.

ghost use Rattle.std.specs.Prelude.{◌≡◌, ℕ, ◌≤◌, ◌⊎◌, List, map, string_bytes, Result, Ok, Err};
ghost use Rattle.std.specs.Io.KnownBytes.{append_known};
ghost use Rattle.eco_common.specs.Causes.{Rose};
ghost use Rattle.eco_cli.specs.CommandLine.{HasReading};
ghost use Rattle.eco_cli.specs.Commands.{options_of, job_of, Asks, IsBadWord};
ghost use Rattle.eco_cli.specs.Opens.{Settled};
ghost use Rattle.eco_cli.specs.Ending.{Ends, Comes, IsRefusal};
ghost use Rattle.eco_cli.specs.Returns.{Returns, ReturnsSome};
ghost use Rattle.eco_cli.specs.Telling.{status_of, line_of, Tells};
ghost use Rattle.eco_cli.specs.declared.command.Command.{Command};
ghost use Rattle.eco_cli.specs.declared.done.Done.{Done};
ghost use Rattle.eco_cli.specs.declared.failure.Failure.{Failure};
ghost use Rattle.eco_cli.specs.declared.failure.Failure.TheVariants.{Words};

use crate::command::{Asked, options, read_line};
use crate::command_line::output;
use crate::done::Done;
use crate::failure::Failure;
use crate::host::Host;
use crate::output::write_output;
use crate::plan::{make_plan, told};
use crate::telling::tell;
use crate::texts::read_texts;
use eco_text::{Sink, Source};
use std::alloc::Global;

/// Reads the inputs, works on their texts, and writes the output where there is one.
fn carry_out<H: Host>(alloc: Global, asked: &Asked<'_>, host: &mut H) -> Result<Done, Failure>
    requires { HasReading (options_of asked.now.command) (map string_bytes asked.now.values.now) }
    ensures ends { Ends H.told H.Input.left H.Output.taken host.old host.new (job_of asked.now.command (map string_bytes asked.now.values.now)) result }
    ensures returned { Returns H.told H.Input.left host.old host.new (job_of asked.now.command (map string_bytes asked.now.values.now)).inputs result }
    ensures settled { Settled H.told host.old host.new }
{
    let options = options(asked.command);
    let texts = read_texts(alloc, host, options, asked.values)?;
    let plan = make_plan(alloc, asked, texts)?;
    write_output(host, output(options, asked.values), &plan)?;
    Ok(told(plan))
}

fn work<H: Host>(alloc: Global, words: &[String], host: &mut H) -> Result<Done, Failure>
    ensures comes { Comes H.told H.Input.left H.Output.taken host.old host.new (map string_bytes words.now) result }
    ensures settled { Settled H.told host.old host.new }
{
    match read_line(words) {
        Ok(asked) => carry_out(alloc, &asked, host),
        Err(place) => Err(Failure::Words(place)),
    }
}

/// Runs the command that the words ask for: it opens what they name at the host, prints its line or lines, and answers
/// its status.
///
/// 0: done. 1: an input, or what is asked in it, is refused, and no output was opened. 2: the words have no reading.
/// 3: an open was refused or a read failed. 4: a write failed. 6: memory ran out. The input is not read.
pub fn run<H: Host, S: Source, O: Sink>(
    alloc: Global,
    words: &[String],
    host: &mut H,
    input: &mut S,
    out: &mut O,
) -> u8
    ensures answered { (r : Result Done Failure) × Comes H.told H.Input.left H.Output.taken host.old host.new (map string_bytes words.now) r × Tells (O.taken out.old) (O.taken out.new) (O.faults out.old) (O.faults out.new) (line_of r) (status_of r) result }
    ensures done { result ≡ 0 → (d : Done) × Comes H.told H.Input.left H.Output.taken host.old host.new (map string_bytes words.now) (Ok d) × (O.taken out.new ≡ append_known (O.taken out.old) (line_of (Ok d))) }
    ensures refused { result ≡ 1 → (e : Failure) × IsRefusal e × Comes H.told H.Input.left H.Output.taken host.old host.new (map string_bytes words.now) (Err e) × (O.taken out.new ≡ append_known (O.taken out.old) (line_of (Err e))) }
    ensures words { result ≡ 2 → (n : ℕ) × Comes H.told H.Input.left H.Output.taken host.old host.new (map string_bytes words.now) (Err (Words n)) × (O.taken out.new ≡ append_known (O.taken out.old) (line_of (Err (Words n)))) }
    ensures bad_word { (n : ℕ) → IsBadWord (map string_bytes words.now) n → (result ≡ 2) ⊎ (result ≡ 4) }
    ensures returned { (c : Command) → (after : List (List ℕ)) → Asks (map string_bytes words.now) c after → ReturnsSome H.told H.Input.left host.old host.new (job_of c after).inputs }
    ensures read { result ≡ 3 → Rose (H.told.refused host.old) (H.told.refused host.new) ⊎ Rose (H.told.read_faults host.old) (H.told.read_faults host.new) }
    ensures write { result ≡ 4 → Rose (H.told.write_faults host.old) (H.told.write_faults host.new) ⊎ Rose (O.faults out.old) (O.faults out.new) }
    ensures settled { Settled H.told host.old host.new }
    ensures later { O.faults out.old ≤ O.faults out.new }
    ensures input { input.new ≡ input.old }
{
    let _ = input;
    let outcome = work(alloc, words, host);
    tell(&outcome, out)
}
