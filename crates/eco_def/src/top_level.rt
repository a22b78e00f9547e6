//! Reading what stands at the top level.

ghost use Rattle.std.specs.Prelude.{◌≡◌, true, false, Some, Err, IfOk, MatchResult};
ghost use Rattle.eco_text.specs.Words.{Token};
ghost use Rattle.eco_text.specs.Cursor.{token};
ghost use Rattle.eco_def.specs.declared.fault.DefFault.TheVariants.{TwiceNamed};
ghost use Rattle.eco_def.specs.Parsing.{begins, refuse};
ghost use Rattle.eco_def.specs.Grammar.{end_design, passed_sections, passed_statements, part_new_within};
ghost use Rattle.eco_text.specs.Tokens.{is_one_of};
ghost use Rattle.eco_def.specs.Reading.{Reads, left};
ghost use Rattle.eco_def.specs.Sections.{part_in, seen_in, IsFresh, PartLies, ReadsSections, ReadsParts};

use crate::fault::DefFault;
use crate::part::{Part, Sections};
use crate::reader::Reader;
use crate::room::Room;
use eco_common::{MAX_JOINTS, MAX_NETS};
use eco_text::Word;
use std::alloc::Global;

impl<'a> Reader<'a> {
    fn begins_passed_section(&self) -> bool
        ensures { result ≡ begins (is_one_of passed_sections) (left self.now.words) }
    {
        self.words.next_is_one_of(&[
            b"PROPERTYDEFINITIONS",
            b"VIAS",
            b"STYLES",
            b"NONDEFAULTRULES",
            b"REGIONS",
            b"PINPROPERTIES",
            b"BLOCKAGES",
            b"SLOTS",
            b"FILLS",
            b"SCANCHAINS",
            b"GROUPS",
        ])
    }

    fn begins_passed_statement(&self) -> bool
        ensures { result ≡ begins (is_one_of passed_statements) (left self.now.words) }
    {
        self.words.next_is_one_of(&[
            b"VERSION",
            b"DIVIDERCHAR",
            b"BUSBITCHARS",
            b"NAMESCASESENSITIVE",
            b"DESIGN",
            b"TECHNOLOGY",
            b"HISTORY",
            b"DIEAREA",
            b"ROW",
            b"TRACKS",
            b"GCELLGRID",
            b"COMPONENTMASKSHIFT",
        ])
    }

    /// The fault of a section that stands a second time.
    fn once(&self, stood: bool) -> Result<(), DefFault>
        ensures { MatchResult result (λ _. stood ≡ false) (λ e. (stood ≡ true) × (refuse {A = Token} TwiceNamed (left self.now.words) ≡ Err e)) }
    {
        if stood {
            return Err(self.twice_named());
        }
        Ok(())
    }

    /// One section or statement.
    #[tactic(auto, unfolding(crate::specs::Grammar::part_new_within))]
    fn part(&mut self, alloc: Global, sections: &Sections) -> Result<Part, DefFault>
        ensures reads { Reads 1 part_in (part_new_within (Some sections.now.room) (seen_in sections.now)) self.old.words self.new.words result }
        ensures fresh { IfOk result (IsFresh sections.now) }
        ensures lies { IfOk result (PartLies self.old.words self.new.words) }
    {
        if self.words.next_is(b"UNITS") {
            return self.units();
        }
        if self.words.next_is(b"COMPONENTS") {
            self.once(sections.comps.is_some())?;
            return Ok(Part::Comps(self.comp_section(alloc)?));
        }
        if self.words.next_is(b"PINS") {
            self.once(sections.pins.is_some())?;
            return Ok(Part::Pins(self.pin_section(alloc)?));
        }
        if self.words.next_is(b"SPECIALNETS") {
            self.once(sections.special.is_some())?;
            return Ok(Part::Special(self.special_section(alloc, sections.room)?));
        }
        if self.words.next_is(b"NETS") {
            self.once(sections.nets.is_some())?;
            return Ok(Part::Nets(self.net_section(alloc, sections.room)?));
        }
        if self.begins_passed_section() {
            return self.passed_section();
        }
        if self.begins_passed_statement() {
            return self.passed_up_to(b";");
        }
        if self.words.next_is(b"BEGINEXT") {
            return self.passed_up_to(b"ENDEXT");
        }
        Err(self.unknown_heading())
    }

    /// All parts, up to `END` or the end of the text.
    fn sections(&mut self, alloc: Global) -> Result<Sections, DefFault>
        ensures { ReadsSections self.old.words self.new.words result }
    {
        let mut sections = Sections {
            units: None,
            comps: None,
            pins: None,
            special: None,
            nets: None,
            special_first: false,
            room: Room {
                nets: MAX_NETS,
                joints: MAX_JOINTS,
            },
        };
        'parts: while self.words.next_is_not(b"END") {
            let part = self.part(alloc, &sections)?;
            sections.add(part);
        }
        Ok(sections)
    }

    /// `END DESIGN`. Where another word follows `END`, the fault stands at `END`.
    fn end_design(&mut self) -> Result<Word, DefFault>
        ensures { Reads 1 token end_design self.old.words self.new.words result }
    {
        let end = self.take()?;
        if self.words.next_is(b"DESIGN") {
            return self.take();
        }
        Err(self.unknown_heading_at(end.start))
    }

    /// The design of the words that are left, and its sections.
    pub fn design(&mut self, alloc: Global) -> Result<Sections, DefFault>
        ensures { ReadsParts self.old.words self.new.words result }
    {
        let sections = self.sections(alloc)?;
        self.end_design()?;
        Ok(sections)
    }
}
