//! What a command makes of the texts of its inputs.

ghost use Rattle.std.specs.Prelude.{◌≡◌, map, string_bytes};
ghost use Rattle.eco_text.specs.Writing.{Writes};
ghost use Rattle.eco_cli.specs.CommandLine.{HasReading, inputs_in};
ghost use Rattle.eco_cli.specs.Commands.{options_of, Gives, Refuses};
ghost use Rattle.eco_cli.specs.Steps.{AreWithin, Plans, CanBeIssued, bytes_of, told_of};

use crate::applying::plan_apply;
use crate::checking::plan_check;
use crate::command::{Asked, Command};
use crate::done::Done;
use crate::failure::Failure;
use crate::four_texts::base_texts;
use crate::issued::Issued;
use crate::move_words::move_words;
use crate::moving::plan_move;
use eco_base::{emit, emit_len};
use eco_common::Failed;
use eco_text::Sink;
use std::alloc::Global;

/// What is to be written or told.
#[derive(Drop)]
pub enum Plan {
    /// A DEF is issued to the output.
    Issued(Issued),
    /// Nothing is written.
    Told(Done),
}

/// What the texts of the inputs give a command, or why they are refused.
pub fn make_plan(alloc: Global, asked: &Asked<'_>, texts: Vec<Vec<u8>>) -> Result<Plan, Failure>
    requires reading { HasReading (options_of asked.now.command) (map string_bytes asked.now.values.now) }
    requires within { AreWithin (inputs_in (options_of asked.now.command) (map string_bytes asked.now.values.now)) (map (λ t. t.items) texts.items) }
    ensures { Plans (Gives asked.now.command (map string_bytes asked.now.values.now) (map (λ t. t.items) texts.items)) (Refuses asked.now.command (map string_bytes asked.now.values.now) (map (λ t. t.items) texts.items)) result }
{
    match asked.command {
        Command::Move => {
            let mut texts = texts;
            plan_move(alloc, texts.remove(0), &move_words(asked.values))
        }
        Command::Check => plan_check(alloc, base_texts(texts)),
        Command::Apply => plan_apply(alloc, base_texts(texts), asked.values),
    }
}

/// What is told of a plan that was carried out.
pub fn told(plan: Plan) -> Done
    requires { CanBeIssued plan }
    ensures { result ≡ told_of plan }
{
    match plan {
        Plan::Issued(issued) => {
            Done::Written(emit_len(&issued.text, &issued.design, &issued.overlay))
        }
        Plan::Told(done) => done,
    }
}

/// Writes the bytes of a plan.
pub fn write_plan<K: Sink>(plan: &Plan, sink: &mut K) -> Result<(), Failed>
    requires { CanBeIssued plan.now }
    ensures { Writes K.taken K.faults sink.old sink.new result (bytes_of plan.now) }
{
    match plan {
        Plan::Issued(issued) => emit(&issued.text, &issued.design, &issued.overlay, sink),
        Plan::Told(_) => Ok(()),
    }
}
