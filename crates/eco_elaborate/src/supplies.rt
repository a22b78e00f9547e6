//! Which nets are supplies.

ghost use Rattle.std.specs.Prelude.{◌≡◌, ℕ, List, [], ◌∷◌, not, Some, None, IfOk, OnOk, if◌then◌else◌};
ghost use Rattle.std.specs.List.{list_all, find};
ghost use Rattle.std.specs.Option.{option_map, option_or};
ghost use Rattle.std.specs.Str.{bytes_eq};
ghost use Rattle.eco_elaborate.specs.Netlists.{supply_by as value_by};
ghost use Rattle.eco_elaborate.specs.Stated.{named_net, named_nets, supply_among};
ghost use Rattle.eco_elaborate.specs.Stages.{supply_value, keeps_value};
ghost use Rattle.eco_elaborate.specs.Building.{first_two_valued as two_valued};

use eco_common::Memory;
use eco_def::NetStatement;
use eco_text::bytes_at;
use std::alloc::{AllocError, Global};
use std::collections::HashMap;

/// The values of the nets that are supplies.
pub type Supplies<'a> = HashMap<&'a [u8], bool>;

/// The value that a statement gives its net, if it makes it a supply.
fn supply_by(text: &[u8], net: &NetStatement) -> Option<bool>
    ensures { result ≡ value_by (named_net text.now net.now).usage }
{
    match bytes_at(text, net.usage?) {
        b"POWER" => Some(true),
        b"GROUND" => Some(false),
        _ => None,
    }
}

/// The value of a net, if it is a supply.
pub fn supply_of(supplies: &Supplies<'_>, name: &[u8]) -> Option<bool>
    ensures { result ≡ supply_value supplies.now name.now }
{
    supplies.get(&name).copied()
}

/// Gives a net its value, unless it has one.
fn add_supply<'a>(
    supplies: &mut Supplies<'a>,
    name: &'a [u8],
    value: bool,
) -> Result<(), AllocError>
    ensures { OnOk result ((n : List ℕ) → supply_value supplies.new n ≡ option_or (supply_value supplies.old n) (if bytes_eq name.now n then Some value else None)) }
{
    if !supplies.contains_key(&name) {
        supplies.insert(name, value)?;
    }
    Ok(())
}

/// Gives a statement's net the value by the statement, unless it has one.
fn add_stated<'a>(
    supplies: &mut Supplies<'a>,
    text: &'a [u8],
    net: &NetStatement,
) -> Result<(), AllocError>
    ensures { OnOk result ((n : List ℕ) → supply_value supplies.new n ≡ option_or (supply_value supplies.old n) (supply_among (named_net text.now net.now ∷ []) n)) }
{
    match supply_by(text, net) {
        Some(value) => add_supply(supplies, bytes_at(text, net.name), value),
        None => Ok(()),
    }
}

/// The supplies, each with the value by the first of its statements that gives it one.
pub fn first_supplies<'a>(
    alloc: Global,
    text: &'a [u8],
    nets: &[NetStatement],
) -> Result<Supplies<'a>, AllocError>
    ensures { IfOk result (λ supplies. (n : List ℕ) → supply_value supplies n ≡ supply_among (named_nets text.now nets.now) n) }
{
    let mut supplies = HashMap::new(alloc);
    for net in nets {
        add_stated(&mut supplies, text, net)?;
    }
    Ok(supplies)
}

/// Whether a statement gives its net no other value than the first one does.
fn keeps_supply(text: &[u8], net: &NetStatement, supplies: &Supplies<'_>) -> bool
    ensures { result ≡ keeps_value (supply_value supplies.now) (named_net text.now net.now) }
{
    let Some(value) = supply_by(text, net) else {
        return true;
    };
    match supply_of(supplies, bytes_at(text, net.name)) {
        Some(first) => value == first,
        None => true,
    }
}

/// Whether no net has two values.
pub fn supplies_agree(text: &[u8], nets: &[NetStatement], supplies: &Supplies<'_>) -> bool
    ensures { result ≡ list_all (λ s. keeps_value (supply_value supplies.now) (named_net text.now s)) nets.now }
{
    nets.iter().all(|net| keeps_supply(text, net, supplies))
}

/// The net of the first statement that gives its net another value than the first one does.
fn first_differing<'a>(
    text: &'a [u8],
    nets: &[NetStatement],
    supplies: &Supplies<'_>,
) -> Option<&'a [u8]>
    ensures { option_map (λ n. n.now) result ≡ option_map (λ s. (named_net text.now s).name) (find (λ s. not (keeps_value (supply_value supplies.now) (named_net text.now s))) nets.now) }
{
    let net = nets.iter().find(|net| !keeps_supply(text, net, supplies))?;
    Some(bytes_at(text, net.name))
}

/// The net of the first statement, in the order of the text, that gives its net another value as a supply than an earlier
/// one. `list_numbered` gives `SupplyDiffers` only where there is one.
pub fn first_two_valued<'a>(
    alloc: Global,
    text: &'a [u8],
    nets: &[NetStatement],
) -> Result<Option<&'a [u8]>, Memory>
    ensures { IfOk result (λ name. option_map (λ n. n.now) name ≡ two_valued (named_nets text.now nets.now)) }
{
    let supplies = first_supplies(alloc, text, nets)?;
    Ok(first_differing(text, nets, &supplies))
}
