//! Writing the output of a command.

ghost use Rattle.std.specs.Prelude.{◌≡◌, Some};
ghost use Rattle.std.specs.Option.{option_map};
ghost use Rattle.eco_text.specs.Writing.{Writes};
ghost use Rattle.eco_cli.specs.Opens.{Settled};
ghost use Rattle.eco_cli.specs.Steps.{Writing, CanBeIssued, bytes_of};

use crate::failure::Failure;
use crate::host::Host;
use crate::host_fault::HostFault;
use crate::plan::{Plan, write_plan};
use eco_common::Failed;
use eco_text::Sink;

/// Writes the bytes of a plan to a sink, and finishes it.
fn fill<K: Sink>(plan: &Plan, sink: &mut K) -> Result<(), Failed>
    requires { CanBeIssued plan.now }
    ensures { Writes K.taken K.faults sink.old sink.new result (bytes_of plan.now) }
{
    write_plan(plan, sink)?;
    sink.finish()
}

/// Writes the bytes of a plan to the sink of that name.
fn write_to<H: Host>(host: &mut H, name: &str, plan: &Plan) -> Result<(), Failure>
    requires { CanBeIssued plan.now }
    ensures writing { Writing H.told H.Output.taken host.old host.new (Some name.now) (bytes_of plan.now) result }
    ensures sources { H.told.sources_back host.new ≡ H.told.sources_back host.old }
    ensures settled { Settled H.told host.old host.new }
{
    let mut sink = match host.sink(name) {
        Ok(sink) => sink,
        Err(HostFault::Refused) => return Err(Failure::Read),
        Err(HostFault::Memory) => return Err(Failure::Memory),
    };
    let written = fill(plan, &mut sink);
    host.done_sink(sink);
    match written {
        Ok(()) => Ok(()),
        Err(_) => Err(Failure::Write),
    }
}

/// Writes the bytes of a plan to the output, if there is one.
pub fn write_output<H: Host>(host: &mut H, output: Option<&str>, plan: &Plan) -> Result<(), Failure>
    requires { CanBeIssued plan.now }
    ensures writing { Writing H.told H.Output.taken host.old host.new (option_map (λ name. name.now) output.entry) (bytes_of plan.now) result }
    ensures sources { H.told.sources_back host.new ≡ H.told.sources_back host.old }
    ensures settled { Settled H.told host.old host.new }
{
    match output {
        Some(name) => write_to(host, name, plan),
        None => Ok(()),
    }
}
