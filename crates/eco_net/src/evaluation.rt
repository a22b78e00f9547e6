//! The values of nets.

ghost use Rattle.std.specs.Prelude.{◌≡◌, ◌<◌, ℕ, Bool, List, Some, length, map, slice_get, IfOk};
ghost use Rattle.std.specs.Option.{IfSome};
ghost use Rattle.std.specs.List.{range_with_len};
ghost use Rattle.std.specs.FinMap.{get};
ghost use Rattle.eco_net.specs.declared.ids.PinRef.{PinRef};
ghost use Rattle.eco_net.specs.Listing.{Listing, netlist, net_name, IsKnownPin};
ghost use Rattle.eco_net.specs.CutKeys.{IsChoice};
ghost use Rattle.eco_net.specs.Valuation.{Valuation, IsValuation};
ghost use Rattle.eco_net.specs.KeysOf.{keys_of};
ghost use Rattle.eco_net.specs.LevelsOf.{IsLevels};
ghost use Rattle.eco_net.specs.ValuesOf.{valuation, cut_bits, start, bit_of, computes};

use crate::cut::CutValues;
use crate::ids::{CompId, NetId};
use crate::kind::PinUse;
use crate::levels::Levels;
use crate::netlist::Netlist;
use eco_common::Memory;
use std::alloc::Global;
use std::marker::Model;

/// A bit for each net, by its number.
#[derive(Drop)]
pub struct Values {
    bits: Vec<bool>,
}

impl Model for Values {
    ghost use Rattle.std.specs.Prelude.{List, Bool};

    ghost Value = { List Bool };

    ghost view = { λ v. v.bits.items };
}

impl Values {
    /// The value of a net.
    pub fn at(&self, net: NetId) -> bool
        requires { net.0 < length self.now }
        ensures { slice_get self.now net.0 ≡ Some result }
    {
        self.bits[net.0 as usize]
    }
}

/// No gate has more inputs.
const MOST_INPUTS: usize = 6;

/// What a pin reads: its net's value, and 0 where it is unconnected.
fn read(values: &[bool], net: Option<u32>) -> bool
    requires { IfSome net (λ n. n < length values.now) }
    ensures { result ≡ bit_of values.now net }
{
    match net {
        Some(net) => values[net as usize],
        None => false,
    }
}

impl Netlist {
    /// What a gate's output computes, from the values of the nets that the gate reads.
    fn output_value(&self, values: &[bool], comp: CompId, pin: u32) -> bool
        requires known { IsKnownPin self.now (PinRef.Pin comp pin) }
        requires sized { length values.now ≡ length self.now.nets }
        ensures { result ≡ computes self.now values.now (comp, pin) }
    {
        let row = self.listed.comp(comp.0);
        let inputs = row.kind.input_count();
        let mut bits = [false; MOST_INPUTS];
        for input in 0..inputs {
            bits[input] = read(values, row.joined.get(input));
        }
        match row.kind.pin_use(pin as usize) {
            PinUse::GateOutput(table) => table.look(&bits[..inputs]),
            PinUse::GateInput | PinUse::BoxedPin(_) => false,
        }
    }

    /// The values of supplies and free nets, and 0 at computed nets.
    fn start_values(&self, alloc: Global, cut: &[bool]) -> Result<Vec<bool>, Memory>
        requires { length cut.now ≡ length (keys_of self.now) }
        ensures { IfOk result (λ vs. vs.items ≡ map (start self.now cut.now) (range_with_len 0 (length self.now.nets))) }
    {
        let nets = self.listed.net_count();
        let mut values = Vec::with_capacity(alloc, nets as usize)?;
        let mut keys = 0;
        for net in 0..nets {
            match self.key_of(net) {
                Some(_) => {
                    values.push(cut[keys])?;
                    keys += 1;
                }
                None => values.push(self.listed.net(net).supply.unwrap_or(false))?,
            }
        }
        Ok(values)
    }

    /// The one valuation at these cut bits. The levels are those of this netlist, and there is a bit for each of its
    /// `cut_keys`, in their order. It fails only where memory runs out.
    pub fn value_all(
        &self,
        alloc: Global,
        levels: &Levels,
        cut: &CutValues,
    ) -> Result<Values, Memory>
        requires levels { IsLevels self.now levels.now }
        requires bits { length cut.now ≡ length (keys_of self.now) }
        ensures choice { IsChoice (netlist self.now) (cut_bits self.now cut.now) }
        ensures valuation { IfOk result (λ vs. IsValuation (netlist self.now) (cut_bits self.now cut.now) (valuation self.now vs)) }
        ensures only { IfOk result (λ vs. (v : Valuation) → IsValuation (netlist self.now) (cut_bits self.now cut.now) v → v ≡ valuation self.now vs) }
        ensures each_net { IfOk result (λ vs. length vs ≡ length self.now.nets) }
        ensures named { IfOk result (λ vs. (n : ℕ) (b : Bool) → slice_get vs n ≡ Some b → get (valuation self.now vs) (net_name self.now.nets n) ≡ Some b) }
    {
        self.facts();
        let mut bits = self.start_values(alloc, &cut.bits)?;
        for net in &levels.order {
            if let Some((comp, pin)) = self.gate_of(*net) {
                let value = self.output_value(&bits, comp, pin);
                bits[*net as usize] = value;
            }
        }
        Ok(Values { bits })
    }
}
