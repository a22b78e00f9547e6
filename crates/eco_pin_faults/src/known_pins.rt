//! Whether a pin is one of the design, supply or not.

ghost use Rattle.std.specs.Prelude.{◌≡◌, IfOk};
ghost use Rattle.std.specs.Option.{option_map};
ghost use Rattle.eco_pin_faults.specs.Held.{at_name, model_by, parts_by};
ghost use Rattle.eco_pin_faults.specs.Pins.{has_signal, is_signal, is_signal_of, is_signal_top, is_supply, is_supply_of, is_supply_top};

use crate::design_pins::{DesignPins, Models, Tops};
use crate::words::{is_any, is_top};
use eco_common::Memory;
use eco_elaborate::Macros;

/// Whether a macro has the pin, and not as a supply pin.
pub fn model_has<M: Macros>(macros: &M, model: &[u8], pin: &[u8]) -> Result<bool, Memory>
    ensures { IfOk result (λ b. b ≡ has_signal ((M.kinds macros.now).kind model.now) pin.now) }
{
    match macros.kind(model)? {
        None => Ok(false),
        Some(kind) => Ok(kind.has_pin(pin)),
    }
}

/// Whether the component of a name has the pin, and not as a supply pin.
fn comp_has<M: Macros>(
    models: &Models<'_>,
    macros: &M,
    comp: &[u8],
    pin: &[u8],
) -> Result<bool, Memory>
    ensures { IfOk result (λ b. b ≡ is_signal_of (M.kinds macros.now) (model_by models.now comp.now) pin.now) }
{
    match models.get(&comp) {
        None => Ok(false),
        Some(model) => model_has(macros, *model, pin),
    }
}

/// Whether the component of a name has the pin as a supply pin.
fn comp_supply<M: Macros>(models: &Models<'_>, macros: &M, comp: &[u8], pin: &[u8]) -> bool
    ensures { result ≡ is_supply_of (M.powers macros.now) (model_by models.now comp.now) pin.now }
{
    match models.get(&comp) {
        None => false,
        Some(model) => macros.is_supply(*model, pin),
    }
}

/// Whether there is a top pin of the name that isn't supply.
fn top_signal(tops: &Tops<'_>, pin: &[u8]) -> bool
    ensures { result ≡ is_signal_top (option_map (λ p. p.supply) (at_name tops.now pin.now)) }
{
    match tops.get(&pin) {
        None => false,
        Some(top) => !top.supply,
    }
}

/// Whether there is a top pin of the name that is supply.
fn top_supply(tops: &Tops<'_>, pin: &[u8]) -> bool
    ensures { result ≡ is_supply_top (option_map (λ p. p.supply) (at_name tops.now pin.now)) }
{
    match tops.get(&pin) {
        None => false,
        Some(top) => top.supply,
    }
}

/// Whether these words name a pin that isn't supply.
pub fn is_signal_pin<M: Macros>(
    pins: &DesignPins<'_>,
    macros: &M,
    comp: &[u8],
    pin: &[u8],
) -> Result<bool, Memory>
    ensures { IfOk result (λ b. b ≡ is_signal (M.kinds macros.now) (parts_by pins.now) comp.now pin.now) }
{
    if is_top(comp) {
        return Ok(top_signal(&pins.tops, pin));
    }
    if is_any(comp) {
        return Ok(false);
    }
    comp_has(&pins.models, macros, comp, pin)
}

/// Whether these words name a supply pin.
pub fn is_supply_pin<M: Macros>(pins: &DesignPins<'_>, macros: &M, comp: &[u8], pin: &[u8]) -> bool
    ensures { result ≡ is_supply (M.powers macros.now) (parts_by pins.now) comp.now pin.now }
{
    if is_top(comp) {
        return top_supply(&pins.tops, pin);
    }
    if is_any(comp) {
        return false;
    }
    comp_supply(&pins.models, macros, comp, pin)
}
