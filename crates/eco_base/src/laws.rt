//! A law of open bases.

ghost use Rattle.eco_base.specs.Laws.{OpenIsBase};

/// A law: an open base is one that the laws of patches speak of: it is whole and loop-free without its stock, its tie nets
/// have their values without the stock too, each spare of the stock is a gate that drives nothing, and no component's name
/// has a blank.
pub fn open_is_base()
    ensures { OpenIsBase }
{}
