//! The nets of a component's pins.

use eco_common::Memory;
use smallvec::SmallVec;
use std::alloc::Global;
use std::marker::Model;

/// For each pin of a component, in order, the number of its net, or none. Those of a few pins lie in the value itself.
#[derive(Drop)]
pub struct Joints {
    nets: SmallVec<Option<u32>, 4>,
}

impl Model for Joints {
    ghost use Rattle.std.specs.Prelude.{List, Option, ℕ};

    ghost Value = { List (Option ℕ) };

    ghost view = { λ j. j.nets.items };
}

impl Joints {
    ghost use Rattle.std.specs.Prelude.{◌≡◌, ◌<◌, None, IfOk, length, replicate, slice_set, slice_get, is_some};
    ghost use Rattle.std.specs.List.{count_by};

    /// So many unconnected pins.
    pub(crate) fn none(alloc: Global, pins: usize) -> Result<Joints, Memory>
        ensures { IfOk result (λ j. j ≡ replicate pins None) }
    {
        Ok(Joints {
            nets: SmallVec::from_elem(alloc, None, pins)?,
        })
    }

    /// How many pins there are.
    pub(crate) fn len(&self) -> usize
        ensures { result ≡ length self.now }
    {
        self.nets.len()
    }

    /// How many pins are on a net.
    pub(crate) fn joined(&self) -> usize
        ensures { result ≡ count_by is_some self.now }
    {
        self.nets
            .as_slice()
            .iter()
            .filter(|net| net.is_some())
            .count()
    }

    /// The net of a pin.
    pub(crate) fn get(&self, pin: usize) -> Option<u32>
        requires { pin < length self.now }
        ensures { slice_get self.now pin ≡ Some result }
    {
        self.nets.as_slice()[pin]
    }

    /// Puts a pin on a net.
    pub(crate) fn put(&mut self, pin: usize, net: u32)
        requires { pin < length self.old }
        ensures { self.new ≡ slice_set self.old pin (Some net) }
    {
        self.nets.as_mut_slice()[pin] = Some(net);
    }

    /// Takes a pin off its net.
    pub(crate) fn take_off(&mut self, pin: usize)
        requires { pin < length self.old }
        ensures { self.new ≡ slice_set self.old pin None }
    {
        self.nets.as_mut_slice()[pin] = None;
    }

    /// The same nets of the same pins.
    pub(crate) fn copy(&self, alloc: Global) -> Result<Joints, Memory>
        ensures { IfOk result (λ j. j ≡ self.now) }
    {
        Ok(Joints {
            nets: SmallVec::from_slice(alloc, self.nets.as_slice())?,
        })
    }
}
