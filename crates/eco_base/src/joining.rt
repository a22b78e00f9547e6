//! The netlist of all components of a base's texts, or the first fault of masters, joints and supplies.

ghost use Rattle.std.specs.Prelude.{◌≡◌, Some, None, IfOk, IfErr, OnOk};
ghost use Rattle.eco_base.specs.Joined.{masters_of, unknown_pin, two_nets, pattern, two_valued, IsSupplyFault, MastersFit, BlamesMasters, BlamesPin, BlamesNets, BlamesPattern, BlamesSupply, AreClean, ListsWhereClean, IsJoined};
ghost use Rattle.eco_base.specs.Opened.{IsFirstOf};

use crate::fault::BaseFault;
use crate::texts::Texts;
use eco_common::Name;
use eco_elaborate::{DesignFault, first_two_valued, list_numbered};
use eco_master_faults::{MasterFault, MasterTable, check_masters};
use eco_net::NetlistMaker;
use eco_pin_faults::{
    Pattern, TwoNets, UnknownPin, find_pattern, find_two_nets, find_unknown_pin, tops_agree,
};
use std::alloc::Global;

/// Refuses a component of an unknown master, and a used gate whose pins aren't those of its functions.
fn check_fit(alloc: Global, texts: &Texts) -> Result<(), BaseFault>
    ensures fit { OnOk result (MastersFit texts.now) }
    ensures fault { IfErr result (BlamesMasters texts.now) }
{
    match check_masters(
        alloc,
        texts.text(),
        texts.design(),
        texts.library(),
        texts.functions(),
    ) {
        Ok(()) => Ok(()),
        Err(MasterFault::UnknownMaster { comp }) => Err(BaseFault::UnknownMaster { comp }),
        Err(MasterFault::FunctionPins { master, pin }) => {
            Err(BaseFault::FunctionPins { master, pin })
        }
        Err(MasterFault::Memory) => Err(BaseFault::Memory),
    }
}

/// Refuses a joint that names no pin.
fn check_pins(alloc: Global, texts: &Texts, table: &MasterTable<'_>) -> Result<(), BaseFault>
    requires { table.now ≡ masters_of texts.now }
    ensures none { OnOk result (unknown_pin texts.now ≡ None) }
    ensures fault { IfErr result (BlamesPin texts.now) }
{
    match find_unknown_pin(alloc, texts.text(), texts.design(), table) {
        Ok(None) => Ok(()),
        Ok(Some(UnknownPin { net, place })) => Err(BaseFault::UnknownPin { net, place }),
        Err(_) => Err(BaseFault::Memory),
    }
}

/// Refuses a pin that isn't supply on two nets.
fn check_nets(alloc: Global, texts: &Texts, table: &MasterTable<'_>) -> Result<(), BaseFault>
    requires { table.now ≡ masters_of texts.now }
    ensures none { OnOk result (two_nets texts.now ≡ None) }
    ensures fault { IfErr result (BlamesNets texts.now) }
{
    match find_two_nets(alloc, texts.text(), texts.design(), table) {
        Ok(None) => Ok(()),
        Ok(Some(TwoNets { pin, first, second })) => Err(BaseFault::PinNetDiffers {
            pin,
            first,
            second,
        }),
        Err(_) => Err(BaseFault::Memory),
    }
}

/// Refuses a `*` with a pin that isn't supply.
fn check_patterns(alloc: Global, texts: &Texts, table: &MasterTable<'_>) -> Result<(), BaseFault>
    requires { table.now ≡ masters_of texts.now }
    ensures none { OnOk result (pattern texts.now ≡ None) }
    ensures fault { IfErr result (BlamesPattern texts.now) }
{
    match find_pattern(alloc, texts.text(), texts.design(), table) {
        Ok(None) => Ok(()),
        Ok(Some(Pattern { net, pin })) => Err(BaseFault::PatternOnSignal { net, pin }),
        Err(_) => Err(BaseFault::Memory),
    }
}

/// The fault of a net that is a supply of two values.
fn supply_fault(alloc: Global, net: &[u8]) -> BaseFault
    ensures { IsSupplyFault net.now result }
{
    match Name::of(alloc, net) {
        Ok(net) => BaseFault::SupplyDiffers { net },
        Err(_) => BaseFault::Memory,
    }
}

/// Refuses a net that is a supply of two values.
fn check_supplies(alloc: Global, texts: &Texts) -> Result<(), BaseFault>
    ensures none { OnOk result (two_valued texts.now ≡ None) }
    ensures fault { IfErr result (BlamesSupply texts.now) }
{
    match first_two_valued(alloc, texts.text(), texts.design().nets.as_slice()) {
        Ok(None) => Ok(()),
        Ok(Some(net)) => Err(supply_fault(alloc, net)),
        Err(_) => Err(BaseFault::Memory),
    }
}

/// Refuses the first fault of joints and supplies: an unknown pin, a pin on two nets, a pattern, a net of two values.
fn check_joints(alloc: Global, texts: &Texts, table: &MasterTable<'_>) -> Result<(), BaseFault>
    requires table { table.now ≡ masters_of texts.now }
    requires fit { MastersFit texts.now }
    ensures none { OnOk result (AreClean texts.now) }
    ensures fault { IfErr result (IsFirstOf texts.now) }
{
    check_pins(alloc, texts, table)?;
    check_nets(alloc, texts, table)?;
    check_patterns(alloc, texts, table)?;
    check_supplies(alloc, texts)
}

/// The first fault of joints and supplies, of which there is one.
fn first_fault(alloc: Global, texts: &Texts, table: &MasterTable<'_>) -> BaseFault
    requires table { table.now ≡ masters_of texts.now }
    requires fit { MastersFit texts.now }
    requires unclean { AreClean texts.now → ⊥ }
    ensures { IsFirstOf texts.now result }
{
    match check_joints(alloc, texts, table) {
        Err(fault) => fault,
        Ok(()) => unreachable!(),
    }
}

/// The netlist, if it can be listed and its joints of top pins agree: exactly where the joints and supplies are clean.
fn list_clean(
    alloc: Global,
    texts: &Texts,
    table: &MasterTable<'_>,
) -> Result<Option<NetlistMaker>, BaseFault>
    requires table { table.now ≡ masters_of texts.now }
    requires fit { MastersFit texts.now }
    ensures lists { IfOk result (ListsWhereClean texts.now) }
    ensures memory { IfErr result (λ e. e ≡ BaseFault.Memory) }
{
    let maker = match list_numbered(alloc, texts.text(), texts.design(), table) {
        Ok(maker) => maker,
        Err(DesignFault::Memory) => return Err(BaseFault::Memory),
        Err(_) => return Ok(None),
    };
    if tops_agree(alloc, texts.text(), texts.design())? {
        Ok(Some(maker))
    } else {
        Ok(None)
    }
}

/// The netlist of all components, its tie nets aside, or the first fault of masters, joints and supplies.
///
/// One listing and one pass over the top pins' joints show whether there is a fault, and only then is the first one looked
/// for.
pub fn list_joined(alloc: Global, texts: &Texts) -> Result<NetlistMaker, BaseFault>
    ensures joined { IfOk result (IsJoined texts.now) }
    ensures fault { IfErr result (IsFirstOf texts.now) }
{
    check_fit(alloc, texts)?;
    let table = MasterTable::of(alloc, texts.library(), texts.functions())?;
    let Some(maker) = list_clean(alloc, texts, &table)? else {
        return Err(first_fault(alloc, texts, &table));
    };
    check_patterns(alloc, texts, &table)?;
    Ok(maker)
}
