//! Putting pins on their nets.

ghost use Rattle.std.specs.Prelude.{◌≡◌, None, OnOk, IfErr};
ghost use Rattle.std.specs.List.{Contains};
ghost use Rattle.eco_elaborate.specs.declared.joined_pin.JoinedPin.{JoinedPin as Joined};
ghost use Rattle.eco_elaborate.specs.Stages.{IsKnownJoint, joints_of, net_before, JoinsPin, JoinsPins, JoinFault, OneFault};

use crate::fault::DesignFault;
use crate::joined_pin::JoinedPin;
use eco_net::{NetlistMaker, PinRef};

/// Puts a pin on its net, unless it is there.
fn join_pin(maker: &mut NetlistMaker, pin: JoinedPin) -> Result<(), DesignFault>
    requires { IsKnownJoint maker.old pin }
    ensures ok { OnOk result (JoinsPin maker.old pin maker.new) }
    ensures err { IfErr result (OneFault maker.old pin) }
{
    maker.facts();
    match maker.net_of(PinRef::Pin(pin.comp, pin.pin)) {
        None => {
            maker.join(pin.comp, pin.pin, pin.net)?;
            Ok(())
        }
        Some(net) => {
            if net.0 == pin.net.0 {
                Ok(())
            } else {
                Err(DesignFault::PinNetDiffers)
            }
        }
    }
}

/// Puts pins on their nets. Before, they are on none.
pub fn join_pins(maker: &mut NetlistMaker, pins: &[JoinedPin]) -> Result<(), DesignFault>
    requires known { (p : Joined) → Contains pins.now p → IsKnownJoint maker.old p }
    requires off { (p : Joined) → Contains pins.now p → net_before maker.old p ≡ None }
    ensures ok { OnOk result (JoinsPins maker.old pins.now maker.new) }
    ensures err { IfErr result (JoinFault (joints_of maker.old pins.now)) }
{
    for pin in pins {
        join_pin(maker, *pin)?;
    }
    Ok(())
}
