//! The rules that an order alone decides: 3, 4 and 5.

ghost use Rattle.std.specs.Prelude.{◌≡◌, [], ◌∷◌, map, IfOk, option_copied, option_map};
ghost use Rattle.std.specs.Str.{bytes_eq};
ghost use Rattle.eco_common.specs.Options.{first_some};
ghost use Rattle.eco_order_file.specs.Names.{Name as NameBytes};
ghost use Rattle.eco_order_file.specs.Repeats.{first_twice as first_twice_of};
ghost use Rattle.eco_order_file.specs.Rules.{too_large as too_large_of, bad_name as bad_name_of, twice_named as twice_named_of, no_label, no_new_net, gate_names, pin_of, is_pin, pin_text, moved_twice as moved_twice_of, broken_alone as broken_alone_of};

use crate::gate::Gate;
use crate::limits::{MAX_ORDER_GATES, MAX_ORDER_MOVES, MAX_ORDER_NETS};
use crate::names::{can_be_new, is_label};
use crate::order::{Move, Order};
use crate::repeats::first_twice;
use crate::rule::{Counted, Rule};
use eco_common::{Memory, Name};
use std::alloc::Global;

/// Rule 3.
fn too_large(order: &Order) -> Option<Rule>
    ensures { result ≡ too_large_of order.now }
{
    let nets = order.nets.as_slice().len();
    if MAX_ORDER_NETS < nets {
        return Some(Rule::TooLarge {
            what: Counted::Nets,
            count: nets,
        });
    }
    let gates = order.gates.as_slice().len();
    if MAX_ORDER_GATES < gates {
        return Some(Rule::TooLarge {
            what: Counted::Gates,
            count: gates,
        });
    }
    let moves = order.moves.as_slice().len();
    if MAX_ORDER_MOVES < moves {
        return Some(Rule::TooLarge {
            what: Counted::Moves,
            count: moves,
        });
    }
    None
}

/// The order's name, or who orders it, where it has not the form.
fn bad_head(order: &Order) -> Option<&Name>
    ensures { option_copied result ≡ no_label (order.now.name ∷ order.now.by ∷ []) }
{
    if !is_label(order.name.bytes()) {
        return Some(&order.name);
    }
    if !is_label(order.by.bytes()) {
        return Some(&order.by);
    }
    None
}

fn bad_net(nets: &[Name]) -> Option<&Name>
    ensures { option_copied result ≡ no_new_net nets.now }
{
    for net in nets {
        if !can_be_new(net.bytes()) {
            return Some(net);
        }
    }
    None
}

fn bad_gate(gates: &[Gate]) -> Option<&Name>
    ensures { option_copied result ≡ no_label (map (λ g. g.name) gates.now) }
{
    for gate in gates {
        if !is_label(gate.name().bytes()) {
            return Some(gate.name());
        }
    }
    None
}

/// The first name that has not its form.
fn bad_one(order: &Order) -> Option<&Name>
    ensures { option_copied result ≡ first_some (no_label (order.now.name ∷ order.now.by ∷ []) ∷ no_new_net order.now.nets ∷ no_label (gate_names order.now) ∷ []) }
{
    if let Some(name) = bad_head(order) {
        return Some(name);
    }
    if let Some(name) = bad_net(order.nets.as_slice()) {
        return Some(name);
    }
    bad_gate(order.gates.as_slice())
}

/// Rule 4.
fn bad_name(alloc: Global, order: &Order) -> Result<Option<Rule>, Memory>
    ensures { IfOk result (λ broken. broken ≡ bad_name_of order.now) }
{
    match bad_one(order) {
        Some(name) => Ok(Some(Rule::BadName {
            name: name.copy(alloc)?,
        })),
        None => Ok(None),
    }
}

fn all_bytes<'a>(alloc: Global, names: &'a [Name]) -> Result<Vec<&'a [u8]>, Memory>
    ensures { IfOk result (λ keys. map (λ k. k.now) keys.items ≡ names.now) }
{
    let mut keys = Vec::new(alloc);
    for name in names {
        keys.push(name.bytes())?;
    }
    Ok(keys)
}

fn gate_bytes<'a>(alloc: Global, gates: &'a [Gate]) -> Result<Vec<&'a [u8]>, Memory>
    ensures { IfOk result (λ keys. map (λ k. k.now) keys.items ≡ map (λ g. g.name) gates.now) }
{
    let mut keys = Vec::new(alloc);
    for gate in gates {
        keys.push(gate.name().bytes())?;
    }
    Ok(keys)
}

fn twice_of<'a>(alloc: Global, keys: &[&'a [u8]]) -> Result<Option<&'a [u8]>, Memory>
    ensures { IfOk result (λ found. option_map (λ k. k.now) found ≡ first_twice_of bytes_eq (map (λ k. k.now) keys.now)) }
{
    Ok(first_twice(alloc, keys)?)
}

fn net_twice<'a>(alloc: Global, nets: &'a [Name]) -> Result<Option<&'a [u8]>, Memory>
    ensures { IfOk result (λ found. option_map (λ k. k.now) found ≡ first_twice_of bytes_eq nets.now) }
{
    let keys = all_bytes(alloc, nets)?;
    twice_of(alloc, &keys)
}

fn gate_twice<'a>(alloc: Global, gates: &'a [Gate]) -> Result<Option<&'a [u8]>, Memory>
    ensures { IfOk result (λ found. option_map (λ k. k.now) found ≡ first_twice_of bytes_eq (map (λ g. g.name) gates.now)) }
{
    let keys = gate_bytes(alloc, gates)?;
    twice_of(alloc, &keys)
}

fn move_keys<'a>(alloc: Global, moves: &'a [Move]) -> Result<Vec<(&'a [u8], &'a [u8])>, Memory>
    ensures { IfOk result (λ keys. map {B = NameBytes × NameBytes} (λ k. (k.0.now, k.1.now)) keys.items ≡ map pin_of moves.now) }
{
    let mut keys = Vec::new(alloc);
    for moved in moves {
        keys.push((moved.comp.bytes(), moved.pin.bytes()))?;
    }
    Ok(keys)
}

fn pin_twice<'a>(alloc: Global, moves: &'a [Move]) -> Result<Option<(&'a [u8], &'a [u8])>, Memory>
    ensures { IfOk result (λ found. option_map {U = NameBytes × NameBytes} (λ k. (k.0.now, k.1.now)) found ≡ first_twice_of is_pin (map pin_of moves.now)) }
{
    let keys = move_keys(alloc, moves)?;
    Ok(first_twice(alloc, &keys)?)
}

/// A pin as it is written.
fn written(alloc: Global, comp: &[u8], pin: &[u8]) -> Result<Name, Memory>
    ensures { IfOk result (λ n. n ≡ pin_text (comp.now, pin.now)) }
{
    let mut text = Vec::with_capacity(alloc, 0)?;
    text.extend_from_slice(comp)?;
    text.push(b'/')?;
    text.extend_from_slice(pin)?;
    Name::of(alloc, &text)
}

fn moved_twice(alloc: Global, order: &Order) -> Result<Option<Name>, Memory>
    ensures { IfOk result (λ found. found ≡ moved_twice_of order.now) }
{
    match pin_twice(alloc, order.moves.as_slice())? {
        Some((comp, pin)) => Ok(Some(written(alloc, comp, pin)?)),
        None => Ok(None),
    }
}

/// Rule 5.
fn twice_named(alloc: Global, order: &Order) -> Result<Option<Rule>, Memory>
    ensures { IfOk result (λ broken. broken ≡ twice_named_of order.now) }
{
    if let Some(net) = net_twice(alloc, order.nets.as_slice())? {
        return Ok(Some(Rule::TwiceNamed {
            name: Name::of(alloc, net)?,
        }));
    }
    if let Some(gate) = gate_twice(alloc, order.gates.as_slice())? {
        return Ok(Some(Rule::TwiceNamed {
            name: Name::of(alloc, gate)?,
        }));
    }
    match moved_twice(alloc, order)? {
        Some(name) => Ok(Some(Rule::TwiceNamed { name })),
        None => Ok(None),
    }
}

/// The first broken rule of 3 to 5.
pub fn broken_alone(alloc: Global, order: &Order) -> Result<Option<Rule>, Memory>
    ensures { IfOk result (λ broken. broken ≡ broken_alone_of order.now) }
{
    if let Some(rule) = too_large(order) {
        return Ok(Some(rule));
    }
    if let Some(rule) = bad_name(alloc, order)? {
        return Ok(Some(rule));
    }
    twice_named(alloc, order)
}
