//! The sections of a design, and the design that they make.

ghost use Rattle.std.specs.Prelude.{◌≡◌, ◌⊎◌, Some, None, IfOk, IfErr};
ghost use Rattle.eco_def.specs.declared.fault.DefFault.TheVariants.{Memory};
ghost use Rattle.eco_def.specs.Sections.{with_part, both, IsOfSections, missing_of};

use crate::design::{Design, NetStatement};
use crate::fault::{DefFault, Section};
use crate::part::{NetSection, Part, Sections};
use sqlite_items::Items;
use std::alloc::{AllocError, Global};

impl Sections {
    /// Adds a part. A section that it has hasn't stood before.
    pub fn add(&mut self, part: Part)
        ensures { self.new ≡ with_part self.old part }
    {
        match part {
            Part::Passed => {}
            Part::Units(units) => self.units = Some(units),
            Part::Comps(comps) => self.comps = Some(comps),
            Part::Pins(pins) => self.pins = Some(pins),
            Part::Special(nets) => {
                self.room = self.room.behind_all(nets.as_slice());
                self.special_first = self.nets.is_none();
                self.special = Some(nets);
            }
            Part::Nets(section) => {
                self.room = self.room.behind_all(section.nets.as_slice());
                self.special_first = self.special.is_some();
                self.nets = Some(section);
            }
        }
    }
}

/// The statements of both sections, in the order of the text.
fn in_text_order(
    special_first: bool,
    special: Items<NetStatement>,
    nets: Items<NetStatement>,
) -> Result<Items<NetStatement>, AllocError>
    ensures { IfOk result (λ all. all ≡ both special_first special nets) }
{
    if special.is_empty() {
        return Ok(nets);
    }
    if special_first {
        let mut all = special;
        all.append(nets)?;
        return Ok(all);
    }
    let mut all = nets;
    all.append(special)?;
    Ok(all)
}

impl Sections {
    /// The design of these sections, or the first that is missing.
    pub fn into_design(self, alloc: Global) -> Result<Design, DefFault>
        ensures design { IfOk result (IsOfSections self) }
        ensures missing { IfErr result (λ e. (e ≡ Memory) ⊎ (missing_of self.units self.comps self.nets ≡ Some e)) }
    {
        let Sections {
            units,
            comps,
            pins,
            special,
            nets,
            special_first,
            room: _,
        } = self;
        match (units, comps, nets) {
            (None, _, _) => Err(DefFault::Missing {
                which: Section::Units,
            }),
            (Some(_), None, _) => Err(DefFault::Missing {
                which: Section::Components,
            }),
            (Some(_), Some(_), None) => Err(DefFault::Missing {
                which: Section::Nets,
            }),
            (Some(units), Some(comps), Some(NetSection { count, nets, end })) => Ok(Design {
                units,
                comps,
                pins: pins.unwrap_or(Items::new(alloc)),
                nets: in_text_order(special_first, special.unwrap_or(Items::new(alloc)), nets)?,
                net_count: count,
                nets_end: end,
            }),
        }
    }
}
