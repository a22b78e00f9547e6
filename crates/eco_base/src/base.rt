//! An opened base: its texts, its stock, and its netlist without the stock.

use crate::Spare;
use crate::census::Census;
use crate::sources::Sources;
use crate::stocked::Stocked;
use crate::texts::Texts;
use eco_common::Name;
use eco_def::Design;
use eco_func::MasterFn;
use eco_net::Netlist;
use std::marker::Model;

/// The frozen base of a taped-out chip.
#[derive(Drop)]
pub struct Base {
    texts: Texts,
    stocked: Stocked,
    sources: Sources,
}

impl Model for Base {
    ghost use Rattle.eco_base.specs.Bases.{BaseParts, IsOpen};
    ghost use Rattle.eco_base.specs.Parts.{parts_of};

    ghost Value = { BaseParts };

    ghost view = { λ b. parts_of b.texts b.stocked b.sources };

    ghost invariant = { λ b. IsOpen (parts_of b.texts b.stocked b.sources) };
}

impl Base {
    ghost use Rattle.std.specs.Prelude.{◌≡◌, ◌<◌, Some, length, slice_get};
    ghost use Rattle.std.specs.List.{All};
    ghost use Rattle.eco_elaborate.specs.Centres.{IsCentre};
    ghost use Rattle.eco_net.specs.Depth.{IsDepth};
    ghost use Rattle.eco_net.specs.Bases.{bare};
    ghost use Rattle.eco_base.specs.Bases.{BaseParts, IsOpen, frozen};
    ghost use Rattle.eco_base.specs.Census.{IsCensusOf};
    ghost use Rattle.eco_base.specs.Limits.{KeepsLimits};
    ghost use Rattle.eco_base.specs.Order.{IsInOrder};
    ghost use Rattle.eco_base.specs.Parts.{parts_of};
    ghost use Rattle.eco_base.specs.Ties.{tie_name};

    /// The base of these parts, which belong together.
    pub(crate) fn of(texts: Texts, stocked: Stocked, sources: Sources) -> Base
        requires { IsOpen (parts_of texts stocked sources) }
        ensures { result ≡ parts_of texts stocked sources }
    {
        Base {
            texts,
            stocked,
            sources,
        }
    }

    /// The DEF text.
    pub fn text(&self) -> &[u8]
        ensures value { result.now ≡ self.now.texts.text }
        ensures open { IsOpen self.now }
    {
        self.texts.text()
    }

    /// The design of the text.
    pub fn design(&self) -> &Design
        ensures value { result.now ≡ self.now.texts.design }
        ensures open { IsOpen self.now }
    {
        self.texts.design()
    }

    /// The netlist without the stock, whose names stay reserved. It is loop-free, and has at most 2,000,000 nets, 1,000,000
    /// components and 4,000,000 pins of components on a net. No component's name has a blank. Components are numbered in the
    /// order of the design's text, and the pins of each in the order of its master. Places are doubled centres in their range.
    pub fn netlist(&self) -> &Netlist
        ensures value { result.now ≡ self.now.listing }
        ensures open { IsOpen self.now }
        ensures limits { KeepsLimits self.now.listing }
        ensures order { IsInOrder self.now.texts self.now.listing }
    {
        self.stocked.netlist.facts();
        &self.stocked.netlist
    }

    /// The spares of the stock, in the order of the design's text.
    pub fn stock(&self) -> &[Spare]
        ensures value { result.now ≡ self.now.stock }
        ensures centres { All (λ s. IsCentre s.centre) self.now.stock }
        ensures open { IsOpen self.now }
    {
        &self.stocked.spares
    }

    /// What a spare of the stock computes, by its number in the stock.
    pub fn spare_fn(&self, spare: u32) -> &MasterFn
        requires { spare < length self.now.stock }
        ensures value { slice_get self.now.functions spare ≡ Some result.now }
        ensures open { IsOpen self.now }
    {
        &self.stocked.functions[spare as usize]
    }

    /// The text and its design, without the rest.
    pub fn into_text_and_design(self) -> (Vec<u8>, Design)
        ensures text { result.0.items ≡ self.texts.text }
        ensures design { result.1 ≡ self.texts.design }
        ensures open { IsOpen self }
    {
        self.texts.into_text_and_design()
    }

    /// How many spare-named components aren't in the stock.
    pub fn skipped(&self) -> u32
        ensures value { result ≡ self.now.skipped }
        ensures open { IsOpen self.now }
    {
        self.stocked.skipped
    }

    /// The counts of what the base has.
    pub fn census(&self) -> Census
        ensures census { IsCensusOf self.now.texts result }
        ensures open { IsOpen self.now }
    {
        self.stocked.census
    }

    /// The greatest depth of a gate that isn't in the stock, and 0 where there is none.
    pub fn depth(&self) -> u32
        ensures depth { IsDepth (bare (frozen self.now.texts)) result }
        ensures open { IsOpen self.now }
    {
        self.stocked.depth
    }

    /// The net that is tied to a value.
    pub fn tie(&self, value: bool) -> &Name
        ensures value { result.now ≡ tie_name self.now.texts.desk value }
        ensures open { IsOpen self.now }
    {
        let desk = self.texts.desk();
        if value { desk.high() } else { desk.low() }
    }

    /// SHA-256 over the four texts, each after its length. It is computed at each call, in time of the length of the DEF, so
    /// a caller that needs it often keeps it.
    pub fn digest(&self) -> [u8; 32]
        ensures { result ≡ self.now.digest }
    {
        let sources = &self.sources;
        sources
            .lef
            .digest(self.texts.text(), &sources.functions, &sources.desk)
    }
}
