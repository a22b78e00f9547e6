//! Places by name.

ghost use Rattle.std.specs.Prelude.{◌≡◌, map, IfOk};
ghost use Rattle.eco_net.specs.Index.{short_of};

use crate::short_name::ShortName;
use eco_common::Memory;
use std::alloc::Global;
use std::collections::HashMap;
use std::marker::Model;

/// The place of each name. A short name takes no memory of its own.
#[derive(Drop)]
pub struct NameIndex {
    shorts: HashMap<ShortName, u32>,
    longs: HashMap<Vec<u8>, u32>,
}

impl Model for NameIndex {
    ghost use Rattle.std.specs.Prelude.{ℕ};
    ghost use Rattle.std.specs.FinMap as map;
    ghost use Rattle.std.specs.Coded.{coded_ℕ, coded_list};
    ghost use Rattle.eco_net.specs.Netlist.{name_cmp};
    ghost use Rattle.eco_net.specs.Index.{by_bytes, placed_names};

    ghost Value = { map.FinMap name_cmp ℕ };

    ghost coded = { map.code (coded_list coded_ℕ) coded_ℕ };

    ghost view = { λ s. map.from_entries (placed_names s.shorts.entries (by_bytes s.longs.entries)) };
}

/// Each name in place, if it is short.
fn shorts_of(alloc: Global, names: &[&[u8]]) -> Result<Vec<Option<ShortName>>, Memory>
    ensures { IfOk result (λ shorts. shorts.items ≡ map (λ n. short_of n.now) names.now) }
{
    let mut shorts = Vec::with_capacity(alloc, names.len())?;
    for name in names {
        shorts.push(ShortName::of(name))?;
    }
    Ok(shorts)
}

impl NameIndex {
    ghost use Rattle.std.specs.Prelude.{◌≡◌, map as each, IfOk, OnOk, OnErr};
    ghost use Rattle.std.specs.FinMap as map;
    ghost use Rattle.eco_net.specs.Index.{short_of};

    /// No names.
    pub(crate) fn new(alloc: Global) -> NameIndex
        ensures { result ≡ map.empty }
    {
        NameIndex {
            shorts: HashMap::new(alloc),
            longs: HashMap::new(alloc),
        }
    }

    /// No names, with room for so many short ones.
    pub(crate) fn with_capacity(alloc: Global, names: usize) -> Result<NameIndex, Memory>
        ensures { IfOk result (λ index. index ≡ map.empty) }
    {
        Ok(NameIndex {
            shorts: HashMap::with_capacity(alloc, names)?,
            longs: HashMap::new(alloc),
        })
    }

    /// The place of a name, which is at hand in place if it is short. Where it is a call of its own, fewer look-ups wait at
    /// the same time.
    #[inline(always)]
    fn find_as(&self, short: Option<ShortName>, name: &[u8]) -> Option<u32>
        requires { short ≡ short_of name.now }
        ensures { result ≡ map.get self.now name.now }
    {
        match short {
            Some(short) => self.shorts.get(&short).copied(),
            None => self.longs.get(name).copied(),
        }
    }

    /// The place of a name.
    pub(crate) fn find(&self, name: &[u8]) -> Option<u32>
        ensures { result ≡ map.get self.now name.now }
    {
        self.find_as(ShortName::of(name), name)
    }

    /// The place of each name. A look-up waits for memory, and where nothing stands between two of them they wait at the
    /// same time.
    pub(crate) fn find_all(
        &self,
        alloc: Global,
        names: &[&[u8]],
    ) -> Result<Vec<Option<u32>>, Memory>
        ensures { IfOk result (λ places. places.items ≡ each (λ n. map.get self.now n.now) names.now) }
    {
        let shorts = shorts_of(alloc, names)?;
        let mut places = Vec::with_capacity(alloc, names.len())?;
        for (at, name) in names.iter().enumerate() {
            places.push(self.find_as(shorts[at], name))?;
        }
        Ok(places)
    }

    /// Gives a name its place.
    pub(crate) fn insert(&mut self, alloc: Global, name: &[u8], place: u32) -> Result<(), Memory>
        ensures ok { OnOk result (self.new ≡ map.insert self.old name.now place) }
        ensures err { OnErr result (self.new ≡ self.old) }
    {
        match ShortName::of(name) {
            Some(short) => {
                self.shorts.insert(short, place)?;
                Ok(())
            }
            None => {
                let long = Vec::from_slice(alloc, name)?;
                self.longs.insert(long, place)?;
                Ok(())
            }
        }
    }

    /// The same places of the same names.
    pub(crate) fn copy(&self) -> Result<NameIndex, Memory>
        ensures { IfOk result (λ index. index ≡ self.now) }
    {
        Ok(NameIndex {
            shorts: self.shorts.clone()?,
            longs: self.longs.clone()?,
        })
    }
}
