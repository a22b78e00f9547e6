//! Reading the sections and statements of the top level that are read.

ghost use Rattle.std.specs.Prelude.{◌≡◌, Some, IfOk};
ghost use Rattle.eco_text.specs.Cursor.{token};
ghost use Rattle.eco_def.specs.Parsing.{valued};
ghost use Rattle.eco_def.specs.Grammar.{units_number as units_said, units, section_head, section_end, comp_section_within, pin_section_within, special_section_within, net_section_within};
ghost use Rattle.eco_def.specs.Reading.{Reads, IsAhead, as_is};
ghost use Rattle.eco_def.specs.Sections.{part_in, comps_part, pins_part, special_part, nets_part, IsPlain, ArePlacedBetween, SectionLiesBetween, AreSpecial, AreOrdinary, Ends};

use crate::design::{Comp, NetStatement, TopPin};
use crate::fault::DefFault;
use crate::part::{NetSection, Part};
use crate::reader::Reader;
use crate::room::Room;
use eco_common::{MAX_COMPS, MAX_TOP_PINS, MAX_UNITS};
use eco_text::{Word, read_number};
use sqlite_items::Items;
use std::alloc::Global;

fn read_units(bytes: &[u8]) -> Option<u32>
    ensures { result ≡ units_said bytes.now }
{
    match read_number(MAX_UNITS, bytes) {
        Some(0) | None => None,
        Some(units) => Some(units),
    }
}

impl<'a> Reader<'a> {
    fn units_number(&mut self) -> Result<u32, DefFault>
        ensures { Reads 1 as_is (valued units_said) self.old.words self.new.words result }
    {
        match read_units(self.words.bytes_ahead()) {
            Some(units) => {
                self.take()?;
                Ok(units)
            }
            None => Err(self.bad_statement()),
        }
    }

    #[tactic(auto, unfolding(crate::specs::Grammar::units))]
    pub fn units(&mut self) -> Result<Part, DefFault>
        ensures reads { Reads 1 part_in units self.old.words self.new.words result }
        ensures plain { IfOk result IsPlain }
    {
        self.word(b"UNITS")?;
        self.word(b"DISTANCE")?;
        self.word(b"MICRONS")?;
        let units = self.units_number()?;
        self.word(b";")?;
        Ok(Part::Units(units))
    }

    /// What a section begins with: its count word.
    #[tactic(auto, unfolding(crate::specs::Grammar::section_head))]
    fn section_head(&mut self, keyword: &[u8]) -> Result<Word, DefFault>
        ensures reads { Reads 1 token (section_head keyword.now) self.old.words self.new.words result }
        ensures ahead { IfOk result (λ w. IsAhead self.old.words self.new.words w) }
    {
        self.word(keyword)?;
        let count = self.take()?;
        self.word(b";")?;
        Ok(count)
    }

    /// What a section ends with: the place of its `END`.
    #[tactic(auto, unfolding(crate::specs::Grammar::section_end))]
    fn section_end(&mut self, keyword: &[u8]) -> Result<u32, DefFault>
        ensures reads { Reads 1 as_is (section_end keyword.now) self.old.words self.new.words result }
        ensures ends { IfOk result (λ place. Ends self.old.words self.new.words place) }
    {
        let end = self.word(b"END")?.start;
        self.word(keyword)?;
        Ok(end)
    }

    #[tactic(auto, unfolding(crate::specs::Grammar::comp_section_within))]
    pub fn comp_section(&mut self, alloc: Global) -> Result<Items<Comp>, DefFault>
        ensures { Reads 1 comps_part (comp_section_within (Some MAX_COMPS)) self.old.words self.new.words result }
    {
        self.section_head(b"COMPONENTS")?;
        let comps = self.comps(alloc)?;
        self.section_end(b"COMPONENTS")?;
        Ok(comps)
    }

    #[tactic(auto, unfolding(crate::specs::Grammar::pin_section_within))]
    pub fn pin_section(&mut self, alloc: Global) -> Result<Items<TopPin>, DefFault>
        ensures { Reads 1 pins_part (pin_section_within (Some MAX_TOP_PINS)) self.old.words self.new.words result }
    {
        self.section_head(b"PINS")?;
        let pins = self.top_pins(alloc)?;
        self.section_end(b"PINS")?;
        Ok(pins)
    }

    #[tactic(auto, unfolding(crate::specs::Grammar::special_section_within))]
    pub fn special_section(
        &mut self,
        alloc: Global,
        room: Room,
    ) -> Result<Items<NetStatement>, DefFault>
        ensures reads { Reads 1 special_part (special_section_within (Some room)) self.old.words self.new.words result }
        ensures lie { IfOk result (ArePlacedBetween self.old.words self.new.words) }
        ensures special { IfOk result AreSpecial }
    {
        self.section_head(b"SPECIALNETS")?;
        let nets = self.nets(alloc, true, room)?;
        self.section_end(b"SPECIALNETS")?;
        Ok(nets)
    }

    #[tactic(auto, unfolding(crate::specs::Grammar::net_section_within))]
    pub fn net_section(&mut self, alloc: Global, room: Room) -> Result<NetSection, DefFault>
        ensures reads { Reads 1 nets_part (net_section_within (Some room)) self.old.words self.new.words result }
        ensures lies { IfOk result (SectionLiesBetween self.old.words self.new.words) }
        ensures ordinary { IfOk result (λ s. AreOrdinary s.nets) }
    {
        let count = self.section_head(b"NETS")?;
        let nets = self.nets(alloc, false, room)?;
        let end = self.section_end(b"NETS")?;
        Ok(NetSection { count, nets, end })
    }
}
