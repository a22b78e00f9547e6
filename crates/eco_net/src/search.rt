//! A search through computed nets, depth first: an order in which each stands after those that its driver reads, or nets
//! in a ring.

ghost use Rattle.std.specs.Prelude.{◌≡◌, ◌<◌, ◌++◌, ℕ, List, [], ◌∷◌, Some, None, length, sum_by, slice_get, slice_set, replicate, drop, reverse, MatchOption, IfOk, OnOk, IfErr};
ghost use Rattle.eco_net.specs.Listing.{Listing};
ghost use Rattle.eco_net.specs.Gates.{FeedsNet, computed_by};
ghost use Rattle.eco_net.specs.Among.{Has};
ghost use Rattle.eco_net.specs.declared.search.Mark.{Mark};
ghost use Rattle.eco_net.specs.declared.search.Stop.{Stop};
ghost use Rattle.eco_net.specs.declared.search.Mark.TheVariants.{Unseen, Open, Done};
ghost use Rattle.eco_net.specs.Search.{IsMark, IsSearch, IsEvaluationOrder, IsComputedNet, Stays, StopIs, IsRing, EndsWith, weight};

use crate::netlist::Netlist;
use eco_common::Memory;
use std::alloc::{AllocError, AllocFailed, Global};

/// How far a net is in a search.
#[derive(Clone, Copy, Debug, Drop, PartialEq, Eq)]
pub enum Mark {
    /// The search hasn't come to it.
    Unseen,
    /// It waits for nets that its driver reads.
    Open,
    /// All that its driver reads is done, and so is it.
    Done,
}

impl Mark {
    ghost use Rattle.std.specs.Prelude.{IsTrue, ◌↔◌};

    fn is_unseen(self) -> bool
        ensures { IsTrue result ↔ (self ≡ Unseen) }
    {
        match self {
            Mark::Unseen => true,
            Mark::Open => false,
            Mark::Done => false,
        }
    }

    fn is_done(self) -> bool
        ensures { IsTrue result ↔ (self ≡ Done) }
    {
        match self {
            Mark::Done => true,
            Mark::Open => false,
            Mark::Unseen => false,
        }
    }

    fn is_open(self) -> bool
        ensures { IsTrue result ↔ (self ≡ Open) }
    {
        match self {
            Mark::Open => true,
            Mark::Done => false,
            Mark::Unseen => false,
        }
    }
}

/// Why a search stopped: nets in a ring, each read by the driver of the next, or memory ran out.
#[derive(Drop)]
pub enum Stop {
    Ring(Vec<u32>),
    Memory,
}

impl From<Memory> for Stop {
    ghost use Rattle.eco_net.specs.declared.search.Stop.TheVariants.{Memory};

    ghost from_gives = { λ _ e. e ≡ Memory };

    fn from(_: Memory) -> Stop {
        Stop::Memory
    }
}

impl From<AllocError> for Stop {
    ghost use Rattle.eco_net.specs.declared.search.Stop.TheVariants.{Memory};

    ghost from_gives = { λ _ e. e ≡ Memory };

    fn from(_: AllocError) -> Stop {
        Stop::Memory
    }
}

impl<T: Drop> From<AllocFailed<T>> for Stop {
    ghost use Rattle.eco_net.specs.declared.search.Stop.TheVariants.{Memory};

    ghost from_gives = { λ _ e. e ≡ Memory };

    fn from(_: AllocFailed<T>) -> Stop {
        Stop::Memory
    }
}

/// A search: the mark of each net, the open nets in the order in which they were met, and those that are done.
#[derive(Drop)]
pub struct Search {
    pub(crate) marks: Vec<Mark>,
    pub(crate) path: Vec<u32>,
    pub(crate) order: Vec<u32>,
}

impl Netlist {
    /// The first net that the driver of a net reads and that is computed and not done.
    fn next_unfinished(&self, net: u32, marks: &[Mark]) -> Option<u32>
        requires known { net < length self.now.nets }
        requires sized { length marks.now ≡ length self.now.nets }
        ensures { MatchOption result ((a : ℕ) → FeedsNet self.now a net → IsMark marks.now a Done) (λ a. FeedsNet self.now a net × (IsMark marks.now a Done → ⊥)) }
    {
        let comp = match self.gate_of(net) {
            Some((comp, _)) => comp,
            None => return None,
        };
        let row = self.listed.comp(comp.0);
        for pin in 0..row.kind.input_count() {
            if let Some(input) = row.joined.get(pin) {
                // The marks are small, so that they are asked first.
                if !marks[input as usize].is_done() && self.gate_of(input).is_some() {
                    return Some(input);
                }
            }
        }
        None
    }

    /// A step of a search from the last net of its path: that net is done, or one that its driver reads is met.
    fn step(&self, alloc: Global, search: &mut Search, net: u32) -> Result<(), Stop>
        requires is_search { IsSearch self.now search.old.marks.items search.old.path.items search.old.order.items }
        requires last { EndsWith search.old.path.items net }
        ensures is_search { OnOk result (IsSearch self.now search.new.marks.items search.new.path.items search.new.order.items) }
        ensures lighter { OnOk result (sum_by weight search.new.marks.items < sum_by weight search.old.marks.items) }
        ensures stays { OnOk result (Stays search.old.marks.items search.new.marks.items) }
        ensures stop { IfErr result (λ e. StopIs self.now e) }
    {
        match self.next_unfinished(net, &search.marks) {
            None => leave(search, net),
            Some(input) => {
                if search.marks[input as usize].is_open() {
                    return Err(Stop::Ring(ring(alloc, &search.path, input)?));
                }
                enter(search, input)
            }
        }
    }
}

/// A mark for each net, none of them seen.
fn no_marks(alloc: Global, nets: u32) -> Result<Vec<Mark>, Memory>
    ensures { IfOk result (λ marks. marks.items ≡ replicate nets Unseen) }
{
    let mut marks = Vec::with_capacity(alloc, nets as usize)?;
    for _ in 0..nets {
        marks.push(Mark::Unseen)?;
    }
    Ok(marks)
}

/// The last net of a path.
fn last_of(path: &[u32]) -> Option<u32>
    ensures { MatchOption result (path.now ≡ []) (λ n. EndsWith path.now n) }
{
    match path.last() {
        Some(net) => Some(*net),
        None => None,
    }
}

impl Netlist {
    /// Goes on from a computed net that isn't seen until it is done.
    fn settle(&self, alloc: Global, search: &mut Search, root: u32) -> Result<(), Stop>
        requires is_search { IsSearch self.now search.old.marks.items search.old.path.items search.old.order.items }
        requires no_path { search.old.path.items ≡ [] }
        requires computed { IsComputedNet self.now root }
        requires unseen { IsMark search.old.marks.items root Unseen }
        ensures is_search { OnOk result (IsSearch self.now search.new.marks.items search.new.path.items search.new.order.items) }
        ensures no_path { OnOk result (search.new.path.items ≡ []) }
        ensures stays { OnOk result (Stays search.old.marks.items search.new.marks.items) }
        ensures seen { OnOk result (IsMark search.new.marks.items root Unseen → ⊥) }
        ensures stop { IfErr result (λ e. StopIs self.now e) }
    {
        enter(search, root)?;
        while let Some(net) = last_of(&search.path) {
            self.step(alloc, search, net)?;
        }
        Ok(())
    }

    /// Goes on from a net, if it is computed and not seen.
    fn visit(&self, alloc: Global, search: &mut Search, net: u32) -> Result<(), Stop>
        requires is_search { IsSearch self.now search.old.marks.items search.old.path.items search.old.order.items }
        requires no_path { search.old.path.items ≡ [] }
        requires known { net < length self.now.nets }
        ensures is_search { OnOk result (IsSearch self.now search.new.marks.items search.new.path.items search.new.order.items) }
        ensures no_path { OnOk result (search.new.path.items ≡ []) }
        ensures stays { OnOk result (Stays search.old.marks.items search.new.marks.items) }
        ensures seen { OnOk result (IsComputedNet self.now net → IsMark search.new.marks.items net Unseen → ⊥) }
        ensures stop { IfErr result (λ e. StopIs self.now e) }
    {
        if !search.marks[net as usize].is_unseen() || self.gate_of(net).is_none() {
            return Ok(());
        }
        self.settle(alloc, search, net)
    }

    /// The computed nets, each after all computed nets that its driver reads.
    pub(crate) fn order(&self, alloc: Global) -> Result<Vec<u32>, Stop>
        ensures ok { IfOk result (λ order. IsEvaluationOrder self.now order.items) }
        ensures stop { IfErr result (λ e. StopIs self.now e) }
    {
        let nets = self.listed.net_count();
        let mut search = Search {
            marks: no_marks(alloc, nets)?,
            path: Vec::new(alloc),
            order: Vec::new(alloc),
        };
        for net in 0..nets {
            self.visit(alloc, &mut search, net)?;
        }
        Ok(search.order)
    }
}

/// The last net of the path is done.
fn leave(search: &mut Search, net: u32) -> Result<(), Stop>
    requires known { net < length search.old.marks.items }
    ensures marks { OnOk result (search.new.marks.items ≡ slice_set search.old.marks.items net Done) }
    ensures path { OnOk result ((front : List ℕ) → search.old.path.items ≡ front ++ net ∷ [] → search.new.path.items ≡ front) }
    ensures order { OnOk result (search.new.order.items ≡ search.old.order.items ++ net ∷ []) }
    ensures stop { IfErr result (λ e. e ≡ Stop.Memory) }
{
    search.order.push(net)?;
    let _last = search.path.pop();
    search.marks[net as usize] = Mark::Done;
    Ok(())
}

/// A net is met.
fn enter(search: &mut Search, net: u32) -> Result<(), Stop>
    requires known { net < length search.old.marks.items }
    ensures marks { OnOk result (search.new.marks.items ≡ slice_set search.old.marks.items net Open) }
    ensures path { OnOk result (search.new.path.items ≡ search.old.path.items ++ net ∷ []) }
    ensures order { OnOk result (search.new.order.items ≡ search.old.order.items) }
    ensures stop { IfErr result (λ e. e ≡ Stop.Memory) }
{
    search.path.push(net)?;
    search.marks[net as usize] = Mark::Open;
    Ok(())
}

/// The path from a net on, backwards.
fn ring(alloc: Global, path: &[u32], from: u32) -> Result<Vec<u32>, Memory>
    requires { Has path.now from }
    ensures { IfOk result (λ ring. (front : List ℕ) × (rest : List ℕ) × (path.now ≡ front ++ from ∷ rest) × (ring.items ≡ reverse (from ∷ rest))) }
{
    let place = place_of(path, from);
    let mut ring = Vec::from_slice(alloc, &path[place..])?;
    ring.reverse();
    Ok(ring)
}

/// Where a net first stands on a path that has it.
fn place_of(path: &[u32], net: u32) -> usize
    requires { Has path.now net }
    ensures { slice_get path.now result ≡ Some net }
{
    let mut place = 0;
    while path[place] != net {
        place += 1;
    }
    place
}
