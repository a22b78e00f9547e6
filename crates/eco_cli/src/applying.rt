//! The command `apply`.

ghost use Rattle.std.specs.Prelude.{◌≡◌, ◌≢◌, ◌⊎◌, map, string_bytes};
ghost use Rattle.eco_cli.specs.ApplyCommand.{apply_of, apply_options, ApplyGives, ApplyRefuses, GivesPatched, RefusesPatch};
ghost use Rattle.eco_cli.specs.BaseTexts.{texts_in};
ghost use Rattle.eco_cli.specs.CommandLine.{HasReading};
ghost use Rattle.eco_cli.specs.Steps.{Plans};

use crate::apply_words::{ApplyWords, apply_words};
use crate::base_texts::BaseTexts;
use crate::failure::Failure;
use crate::issued::Issued;
use crate::opened_base::opened;
use crate::order::order_of;
use crate::plan::Plan;
use crate::refusal::Refusal;
use eco_base::{Base, Overlay};
use eco_one_gate::{OneFault, apply_one};
use std::alloc::Global;

/// A base's text with this overlay of it.
fn issued(base: Base, overlay: Overlay) -> Issued
    ensures text { result.text.items ≡ base.texts.text }
    ensures design { result.design ≡ base.texts.design }
    ensures overlay { result.overlay ≡ overlay }
{
    let (text, design) = base.into_text_and_design();
    Issued {
        text,
        design,
        overlay,
    }
}

/// Why an order fails: for want of memory, or by its fault.
fn failed(fault: OneFault) -> Failure
    ensures { ((fault ≡ OneFault.Memory) × (result ≡ Failure.Memory)) ⊎ ((fault ≢ OneFault.Memory) × (result ≡ Failure.Refused (Refusal.Apply fault))) }
{
    match fault {
        OneFault::Memory => Failure::Memory,
        fault => Failure::Refused(Refusal::Apply(fault)),
    }
}

/// Opens the base, and puts the gate on its spare in it.
fn patch(alloc: Global, texts: BaseTexts, asked: &ApplyWords<'_>) -> Result<Plan, Failure>
    ensures { Plans (GivesPatched (apply_of asked.now) texts.lef.items texts.def.items texts.functions.items texts.desk.items) (RefusesPatch (apply_of asked.now) texts.lef.items texts.def.items texts.functions.items texts.desk.items) result }
{
    let base = opened(alloc, texts)?;
    let Ok(one) = order_of(alloc, asked) else {
        return Err(Failure::Memory);
    };
    match apply_one(&base, alloc, &one) {
        Ok(overlay) => Ok(Plan::Issued(issued(base, overlay))),
        Err(fault) => Err(failed(fault)),
    }
}

/// Opens the base of the texts, and puts the gate that the words ask for on its spare in it.
pub fn plan_apply(alloc: Global, texts: BaseTexts, words: &[String]) -> Result<Plan, Failure>
    requires { HasReading apply_options (map string_bytes words.now) }
    ensures { Plans (ApplyGives (map string_bytes words.now) (texts_in texts)) (ApplyRefuses (map string_bytes words.now) (texts_in texts)) result }
{
    match apply_words(alloc, words) {
        Ok(asked) => patch(alloc, texts, &asked),
        Err(_) => Err(Failure::Memory),
    }
}
