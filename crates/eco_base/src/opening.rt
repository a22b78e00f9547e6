//! Opening a base.

ghost use Rattle.std.specs.Prelude.{◌≤◌, length};
ghost use Rattle.eco_base.specs.Opened.{Opens};

use crate::base::Base;
use crate::digest::HashedLef;
use crate::fault::BaseFault;
use crate::joining::list_joined;
use crate::reading::read_texts;
use crate::sources::Sources;
use crate::stocking::take_stock;
use eco_common::{MAX_DEF_BYTES, MAX_LEF_BYTES};
use std::alloc::Global;

/// Opens the base of a LEF of at most 67,108,864 bytes, a DEF of at most 134,217,728 bytes, a functions file and a desk
/// file.
///
/// Faults come in the order of `BaseFault`, and of each kind the first. Of the LEF no copy is kept: it is hashed here for
/// `Base::digest`.
pub fn open_base(
    alloc: Global,
    lef: Vec<u8>,
    def: Vec<u8>,
    functions: Vec<u8>,
    desk: Vec<u8>,
) -> Result<Base, BaseFault>
    requires lef { length lef.items ≤ MAX_LEF_BYTES }
    requires def { length def.items ≤ MAX_DEF_BYTES }
    ensures { Opens lef.items def.items functions.items desk.items result }
{
    let texts = read_texts(alloc, &lef, def, &functions, &desk)?;
    let maker = list_joined(alloc, &texts)?;
    let stocked = take_stock(alloc, &texts, maker)?;
    let sources = Sources {
        lef: HashedLef::after(&lef),
        functions,
        desk,
    };
    Ok(Base::of(texts, stocked, sources))
}
