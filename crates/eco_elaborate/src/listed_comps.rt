//! Listing the components of a design.

ghost use Rattle.std.specs.Prelude.{◌≡◌, ◌+◌, ◌<◌, ◌≤◌, [], ◌∷◌, true, map, length, None, OnOk, IfErr};
ghost use Rattle.std.specs.List.{All};
ghost use Rattle.std.specs.Option.{option_map};
ghost use Rattle.std.specs.FinMap.{get};
ghost use Rattle.eco_common.specs.Sizes.{keeps_limit};
ghost use Rattle.eco_issued_laws.specs.Bounds.{HasCoordinates};
ghost use Rattle.eco_net.specs.Listing.{netlist, AreDistinctNames};
ghost use Rattle.eco_elaborate.specs.Centres.{doubled_centre};
ghost use Rattle.eco_elaborate.specs.Stated.{named_comp, named_comps};
ghost use Rattle.eco_elaborate.specs.Stages.{AddsComps, CompsAre, MacroFault};

use crate::centres::doubled_centre;
use crate::fault::DesignFault;
use crate::macros::Macros;
use eco_common::{MAX_LISTED_COMPS, MAX_UNITS, Point, Size};
use eco_def::Comp;
use eco_net::NetlistMaker;
use eco_text::bytes_at;
use std::alloc::Global;

/// The doubled centre of a component, where it is placed.
fn centre_of(units: u32, size: Size, comp: &Comp) -> Option<Point>
    requires units { units ≤ MAX_UNITS }
    requires size { keeps_limit size ≡ true }
    requires place { HasCoordinates comp.now.place }
    ensures { result ≡ option_map (doubled_centre units size) comp.now.place }
{
    match comp.place {
        Some(place) => Some(doubled_centre(units, size, place)),
        None => None,
    }
}

/// Adds a component of a new name, if its macro is known.
fn add_comp<M: Macros>(
    maker: &mut NetlistMaker,
    alloc: Global,
    text: &[u8],
    units: u32,
    comp: &Comp,
    macros: &M,
) -> Result<(), DesignFault>
    requires new_name { get (netlist maker.old).comps (named_comp text.now comp.now).name ≡ None }
    requires few { length maker.old.comps < MAX_LISTED_COMPS }
    requires units { units ≤ MAX_UNITS }
    requires place { HasCoordinates comp.now.place }
    ensures ok { OnOk result (AddsComps (M.kinds macros.now) units (named_comp text.now comp.now ∷ []) maker.old maker.new) }
    ensures err { IfErr result (MacroFault (M.kinds macros.now) (named_comp text.now comp.now ∷ [])) }
{
    maker.facts();
    let model = bytes_at(text, comp.model);
    let name = bytes_at(text, comp.name);
    match macros.kind(model)? {
        None => Err(DesignFault::UnknownMacro),
        Some(kind) => {
            let centre = centre_of(units, macros.size(model), comp);
            maker.add_comp(alloc, name, kind, centre)?;
            Ok(())
        }
    }
}

/// Adds the components, where the macro of each is known.
pub fn add_comps<M: Macros>(
    maker: &mut NetlistMaker,
    alloc: Global,
    text: &[u8],
    units: u32,
    comps: &[Comp],
    macros: &M,
) -> Result<(), DesignFault>
    requires none { CompsAre (M.kinds macros.now) units [] (netlist maker.old) }
    requires apart { AreDistinctNames (map (λ c. (named_comp text.now c).name) comps.now) }
    requires few { length maker.old.comps + length comps.now ≤ MAX_LISTED_COMPS }
    requires units { units ≤ MAX_UNITS }
    requires places { All (λ c. HasCoordinates c.place) comps.now }
    ensures ok { OnOk result (AddsComps (M.kinds macros.now) units (named_comps text.now comps.now) maker.old maker.new) }
    ensures err { IfErr result (MacroFault (M.kinds macros.now) (named_comps text.now comps.now)) }
{
    for comp in comps {
        add_comp(maker, alloc, text, units, comp, macros)?;
    }
    Ok(())
}
