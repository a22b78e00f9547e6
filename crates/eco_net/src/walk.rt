//! A ring of nets as it is reported: by names, from the least on.

ghost use Rattle.std.specs.Prelude.{◌≡◌, ◌<◌, ◌++◌, ℕ, map, length, take, drop, slice_index, IfOk, OnOk};
ghost use Rattle.std.specs.List.{All};
ghost use Rattle.eco_net.specs.Listing.{Listing, net_name};
ghost use Rattle.std.specs.Ordering.{is_lt};
ghost use Rattle.eco_net.specs.Netlist.{name_cmp};
ghost use Rattle.eco_net.specs.Rings.{IsLeastAt};

use crate::levels::Names;
use crate::netlist::Netlist;
use eco_common::{Memory, Name};
use std::alloc::Global;

impl Netlist {
    /// Where the net of the least name by bytes stands.
    pub(crate) fn least(&self, nets: &[u32]) -> usize
        requires some { 0 < length nets.now }
        requires known { All (λ n. n < length self.now.nets) nets.now }
        ensures { IsLeastAt self.now.nets nets.now (length nets.now) result }
    {
        let mut least = 0;
        for place in 1..nets.len() {
            let name = self.listed.net(nets[place]).name.bytes();
            if is_before(name, self.listed.net(nets[least]).name.bytes()) {
                least = place;
            }
        }
        least
    }

    /// Adds the names of nets.
    fn add_names(&self, alloc: Global, names: &mut Vec<Name>, nets: &[u32]) -> Result<(), Memory>
        requires { All (λ n. n < length self.now.nets) nets.now }
        ensures { OnOk result (names.new.items ≡ names.old.items ++ map (net_name self.now.nets) nets.now) }
    {
        for net in nets {
            names.push(self.listed.net(*net).name.copy(alloc)?)?;
        }
        Ok(())
    }

    /// The names of nets from a place on, and then of those before it.
    pub(crate) fn names_from(
        &self,
        alloc: Global,
        nets: &[u32],
        place: usize,
    ) -> Result<Names, Memory>
        requires known { All (λ n. n < length self.now.nets) nets.now }
        requires within { place < length nets.now }
        ensures { IfOk result (λ names. names ≡ map (net_name self.now.nets) (drop place nets.now ++ take place nets.now)) }
    {
        let mut names = Vec::with_capacity(alloc, nets.len())?;
        self.add_names(alloc, &mut names, &nets[place..])?;
        self.add_names(alloc, &mut names, &nets[..place])?;
        Ok(Names { names })
    }
}

/// Whether a name stands before another by bytes.
fn is_before(name: &[u8], other: &[u8]) -> bool
    ensures { result ≡ is_lt (name_cmp name.now other.now) }
{
    name.cmp(&other).is_lt()
}
