ghost use Rattle.eco_pin_faults.specs.Laws.{
  DifferingIs,
  FirstTold,
  JointsKnown,
  NoneWrong,
  OneNet,
  PatternIs,
  ReasonsFound,
  TopsAgreeIs,
  UnknownIs,
};

/// A law: the first unknown joint is the first that names no pin.
pub fn unknown_is()
    ensures { UnknownIs }
{}

/// A law: the place that differs is the first on another net than at its pin's first place, supply pins aside.
pub fn differing_is()
    ensures { DifferingIs }
{}

/// A law: the first net that is told of that place is the one at its pin's first place.
pub fn first_told()
    ensures { FirstTold }
{}

/// A law: the first pattern is the first joint of `*` in SPECIALNETS with a pin that isn't supply.
pub fn pattern_is()
    ensures { PatternIs }
{}

/// A law: where no joint is unknown, each joint of a component is of its pin or of its supply pin.
pub fn joints_known()
    ensures { JointsKnown }
{}

/// A law: where no place differs, no pin of a component is on two nets, supply pins aside.
pub fn one_net()
    ensures { OneNet }
{}

/// A law: the joints that name no component are right exactly where none of them is unknown and no top pin is on two nets,
/// supply pins aside.
pub fn tops_agree_is()
    ensures { TopsAgreeIs }
{}

/// A law: a design in which a joint is unknown has a first unknown joint, and one in which a pin is on two nets has a first
/// place that differs.
pub fn reasons_found()
    ensures { ReasonsFound }
{}

/// A law: where a design is listed, and the joints that name no component are right, no joint is unknown and no place
/// differs.
pub fn none_wrong()
    ensures { NoneWrong }
{}
