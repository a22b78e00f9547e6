//! The order of one gate that the words of `apply` ask.

ghost use Rattle.std.specs.Prelude.{◌≡◌, map, IfOk};
ghost use Rattle.eco_cli.specs.ApplyCommand.{apply_of, IsOrder};

use crate::apply_words::ApplyWords;
use eco_common::{Memory, Name};
use eco_one_gate::OneGate;
use std::alloc::Global;

/// Copies of the words.
fn names(alloc: Global, words: &[&str]) -> Result<Vec<Name>, Memory>
    ensures { IfOk result (λ v. v.items ≡ map (λ w. w.now) words.now) }
{
    let mut names = Vec::with_capacity(alloc, words.len())?;
    for word in words {
        names.push(Name::of(alloc, word.as_bytes())?)?;
    }
    Ok(names)
}

fn name(alloc: Global, word: &str) -> Result<Name, Memory>
    ensures { IfOk result (λ n. n ≡ word.now) }
{
    Name::of(alloc, word.as_bytes())
}

/// The order, with names of its own.
pub fn order_of(alloc: Global, asked: &ApplyWords<'_>) -> Result<OneGate, Memory>
    ensures { IfOk result (IsOrder (apply_of asked.now)) }
{
    Ok(OneGate {
        spare: name(alloc, asked.spare)?,
        table: asked.table,
        inputs: names(alloc, &asked.inputs)?,
        feeds: Vec::from_slice(alloc, &asked.feeds)?,
        output: name(alloc, asked.output)?,
        comp: name(alloc, asked.comp)?,
        pin: name(alloc, asked.pin)?,
        from_net: name(alloc, asked.from)?,
    })
}
