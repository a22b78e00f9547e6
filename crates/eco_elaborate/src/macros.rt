//! What the names of macros stand for.

ghost use Rattle.std.specs.Prelude.{◌≡◌, true, false, IfOk, IfSome};
ghost use Rattle.std.specs.Option.{option_map};
ghost use Rattle.eco_common.specs.Sizes.{keeps_limit};
ghost use Rattle.eco_func.specs.FunctionsFile.{find_master};
ghost use Rattle.eco_net.specs.Listing.{given_kind, HasOwnPins};
ghost use Rattle.eco_net.specs.declared.kind.Kind.TheVariants.{Gate};
ghost use Rattle.eco_elaborate.specs.Netlists.{Kinds, Powers};

use eco_common::{Memory, Size};
use eco_func::Functions;
use eco_net::Kind;

/// A table of macros: what a component is and how large, by the name of its model.
pub trait Macros {
    /// What each name stands for.
    ghost kinds: { Self → Kinds };

    /// Which pins are supply pins.
    ghost powers: { Self → Powers };

    /// What a name stands for, or none where it names no macro. A box's pins have names of their own. No memory is taken:
    /// `Memory` comes only where there are too many copies to be counted.
    fn kind(&self, name: &[u8]) -> Result<Option<Kind>, Memory>
        ensures known { IfOk result (λ o. option_map given_kind o ≡ (kinds self.now).kind name.now) }
        ensures own_pins { IfOk result (λ o. IfSome o HasOwnPins) };

    /// The size of a macro, in millionths of a micron, and some size where the name is of no macro.
    fn size(&self, name: &[u8]) -> Size
        ensures value { result ≡ (kinds self.now).size name.now }
        ensures limit { keeps_limit result ≡ true };

    /// Whether a macro has this pin as a supply pin.
    fn is_supply(&self, model: &[u8], pin: &[u8]) -> bool
        ensures { result ≡ powers self.now model.now pin.now };
}

/// Each master of a functions file is a gate. It has no supply pins, and its size is 0.
impl Macros for Functions {
    ghost kinds = { λ functions. record { kind = λ name. option_map (λ m. given_kind (Gate m)) (find_master name functions); size = λ name. record { width = 0; height = 0 } } };

    ghost powers = { λ functions model pin. false };

    fn kind(&self, name: &[u8]) -> Result<Option<Kind>, Memory> {
        match self.find(name) {
            Some(master) => Ok(Some(Kind::Gate(master.copy()?))),
            None => Ok(None),
        }
    }

    fn size(&self, _name: &[u8]) -> Size {
        Size {
            width: 0,
            height: 0,
        }
    }

    fn is_supply(&self, _model: &[u8], _pin: &[u8]) -> bool {
        false
    }
}
