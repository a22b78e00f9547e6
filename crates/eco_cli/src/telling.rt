//! What a command prints, and its status.

ghost use Rattle.std.specs.Prelude.{◌≡◌, ◌≤◌, ◌++◌, [], ◌∷◌};
ghost use Rattle.eco_text.specs.Writing.{Writes};
ghost use Rattle.eco_cli.specs.Telling.{status_of, move_words, one_words, refusal_text, failure_text, report_text, done_text, line_of, Tells};

use crate::done::Done;
use crate::failure::Failure;
use crate::line::print_number;
use crate::refusal::Refusal;
use crate::report::Report;
use crate::telling_base::{print_base, print_def};
use eco_base::MoveFault;
use eco_common::Failed;
use eco_one_gate::OneFault;
use eco_text::{Sink, write_piece, write_pieces};

/// The eight lines of a report.
fn print_report<O: Sink>(report: &Report, out: &mut O) -> Result<(), Failed>
    ensures { Writes O.taken O.faults out.old out.new result (report_text report.now) }
{
    let census = report.census;
    print_number(b"components ", census.components, out)?;
    print_number(b"gates ", census.gates, out)?;
    print_number(b"boxes ", census.boxes, out)?;
    print_number(b"nets ", census.nets, out)?;
    print_number(b"pins ", census.pins, out)?;
    print_number(b"stock ", census.stock, out)?;
    print_number(b"levels ", u64::from(report.levels), out)?;
    print_number(b"skipped ", census.skipped, out)
}

fn print_done<O: Sink>(done: &Done, out: &mut O) -> Result<(), Failed>
    ensures { Writes O.taken O.faults out.old out.new result (done_text done.now) }
{
    match done {
        Done::Written(length) => print_number(b"written ", *length, out),
        Done::Checked(report) => print_report(report, out),
    }
}

fn move_line(fault: MoveFault) -> &'static [u8]
    ensures { result.now ≡ move_words fault ++ 10 ∷ [] }
{
    match fault {
        MoveFault::UnknownComponent => b"eco: move UnknownComponent\n",
        MoveFault::NotOnNet => b"eco: move NotOnNet\n",
        MoveFault::UnknownNet => b"eco: move UnknownNet\n",
        MoveFault::Memory => b"eco: memory\n",
    }
}

/// The line of a refused order.
fn one_line(fault: OneFault) -> &'static [u8]
    ensures { result.now ≡ one_words fault ++ 10 ∷ [] }
{
    match fault {
        OneFault::NotSpare => b"eco: apply NotSpare\n",
        OneFault::BadOrder => b"eco: apply BadOrder\n",
        OneFault::NotEmbedding => b"eco: apply NotEmbedding\n",
        OneFault::Memory => b"eco: memory\n",
    }
}

fn print_refusal<O: Sink>(refusal: &Refusal, out: &mut O) -> Result<(), Failed>
    ensures { Writes O.taken O.faults out.old out.new result (refusal_text refusal.now ++ 10 ∷ []) }
{
    match refusal {
        Refusal::Def(fault) => print_def(b"eco: def ", *fault, out),
        Refusal::Move(fault) => write_piece(move_line(*fault), out),
        Refusal::Base(fault) => print_base(fault, out),
        Refusal::Apply(fault) => write_piece(one_line(*fault), out),
    }
}

fn print_failure<O: Sink>(failure: &Failure, out: &mut O) -> Result<(), Failed>
    ensures { Writes O.taken O.faults out.old out.new result (failure_text failure.now ++ 10 ∷ []) }
{
    match failure {
        Failure::Words(place) => print_number(b"eco: words ", *place as u64, out),
        Failure::TooLong(option) => {
            write_pieces(out, &[b"eco: TooLong ", option.as_bytes(), b"\n"])
        }
        Failure::Refused(refusal) => print_refusal(refusal, out),
        Failure::Read => write_piece(b"eco: read fault\n", out),
        Failure::Write => write_piece(b"eco: write fault\n", out),
        Failure::Memory => write_piece(b"eco: memory\n", out),
    }
}

fn print<O: Sink>(outcome: &Result<Done, Failure>, out: &mut O) -> Result<(), Failed>
    ensures { Writes O.taken O.faults out.old out.new result (line_of outcome.now) }
{
    match outcome {
        Ok(done) => print_done(done, out),
        Err(failure) => print_failure(failure, out),
    }
}

fn status(outcome: &Result<Done, Failure>) -> u8
    ensures { result ≡ status_of outcome.now }
{
    match outcome {
        Ok(_) => 0,
        Err(Failure::TooLong(_) | Failure::Refused(_)) => 1,
        Err(Failure::Words(_)) => 2,
        Err(Failure::Read) => 3,
        Err(Failure::Write) => 4,
        Err(Failure::Memory) => 6,
    }
}

/// Prints what is told of an outcome, and gives its status, or 4 where it can't be printed.
pub fn tell<O: Sink>(outcome: &Result<Done, Failure>, out: &mut O) -> u8
    ensures tells { Tells (O.taken out.old) (O.taken out.new) (O.faults out.old) (O.faults out.new) (line_of outcome.now) (status_of outcome.now) result }
    ensures later { O.faults out.old ≤ O.faults out.new }
{
    match print(outcome, out) {
        Ok(()) => status(outcome),
        Err(_) => 4,
    }
}
