//! The models of a design's components, and its top pins, by name.

ghost use Rattle.std.specs.Prelude.{◌≡◌, ℕ, List, map, Some, None, IfOk, OnOk, if◌then◌else◌};
ghost use Rattle.std.specs.List.{find};
ghost use Rattle.std.specs.Option.{option_or};
ghost use Rattle.std.specs.Str.{bytes_eq};
ghost use Rattle.eco_text.specs.Cursor.{word_bytes};
ghost use Rattle.eco_pin_faults.specs.Faults.{named};
ghost use Rattle.eco_pin_faults.specs.Held.{at_name, model_by, parts_by};
ghost use Rattle.eco_pin_faults.specs.Pins.{of_named, parts_of};

use eco_def::{Comp, Design, TopPin};
use eco_text::bytes_at;
use std::alloc::{AllocError, Global};
use std::collections::HashMap;

/// The model of each component.
pub type Models<'a> = HashMap<&'a [u8], &'a [u8]>;

/// The top pins.
pub type Tops<'a> = HashMap<&'a [u8], TopPin>;

#[derive(Drop)]
pub struct DesignPins<'a> {
    pub models: Models<'a>,
    pub tops: Tops<'a>,
}

/// Adds a component, unless one of its name is there.
fn add_model<'a>(models: &mut Models<'a>, name: &'a [u8], model: &'a [u8]) -> Result<(), AllocError>
    ensures { OnOk result ((n : List ℕ) → model_by models.new n ≡ option_or (model_by models.old n) (if bytes_eq name.now n then Some model.now else None)) }
{
    if !models.contains_key(&name) {
        models.insert(name, model)?;
    }
    Ok(())
}

/// The models of the components, each by the first of its name.
fn models_of<'a>(alloc: Global, text: &'a [u8], comps: &[Comp]) -> Result<Models<'a>, AllocError>
    ensures { IfOk result (λ models. (n : List ℕ) → model_by models n ≡ of_named (λ c. word_bytes text.now c.name) (λ c. word_bytes text.now c.model) comps.now n) }
{
    let mut models = HashMap::new(alloc);
    for comp in comps {
        let name = bytes_at(text, comp.name);
        let model = bytes_at(text, comp.model);
        add_model(&mut models, name, model)?;
    }
    Ok(models)
}

/// Adds a top pin, unless one of its name is there.
fn add_top<'a>(tops: &mut Tops<'a>, name: &'a [u8], pin: TopPin) -> Result<(), AllocError>
    ensures { OnOk result ((n : List ℕ) → at_name tops.new n ≡ option_or (at_name tops.old n) (if bytes_eq name.now n then Some pin else None)) }
{
    if !tops.contains_key(&name) {
        tops.insert(name, pin)?;
    }
    Ok(())
}

/// The top pins, each the first of its name.
pub fn tops_of<'a>(alloc: Global, text: &'a [u8], pins: &[TopPin]) -> Result<Tops<'a>, AllocError>
    ensures { IfOk result (λ tops. (n : List ℕ) → at_name tops n ≡ find (λ p. bytes_eq (word_bytes text.now p.name) n) pins.now) }
{
    let mut tops = HashMap::new(alloc);
    for pin in pins {
        let name = bytes_at(text, pin.name);
        add_top(&mut tops, name, *pin)?;
    }
    Ok(tops)
}

/// The components and the top pins of a design.
pub fn pins_of<'a>(
    alloc: Global,
    text: &'a [u8],
    design: &Design,
) -> Result<DesignPins<'a>, AllocError>
    ensures { IfOk result (λ pins. parts_by pins ≡ parts_of (named text.now design.now)) }
{
    let models = models_of(alloc, text, design.comps.as_slice())?;
    let tops = tops_of(alloc, text, design.pins.as_slice())?;
    Ok(DesignPins { models, tops })
}
