//! The laws of the netlists of designs.

ghost use Rattle.eco_elaborate.specs.Laws.{
  ApartIs,
  CanJoinIs,
  IssuingKeepsComponents,
  IssuedIs,
  NetlistIs,
  NetlistWellFormed,
  NoneUnnamed,
  NothingMoves,
  PlacesAreCentres,
  ReadOnce,
  RewiredIs,
  StillConsistent,
  StillWellFormed,
  TwoValuedIs,
};
ghost use Rattle.eco_elaborate.specs.ReadingBack.{IssuedReadsBack, OwnText};

/// A law: in a design that was read each component and each top pin is named once.
pub fn read_once()
    ensures { ReadOnce }
{}

/// A law: a consistent design has the netlist that its statements describe, and no other.
pub fn netlist_is()
    ensures { NetlistIs }
{}

/// A law: the netlist of a design is well-formed.
pub fn netlist_well_formed()
    ensures { NetlistWellFormed }
{}

/// A law: a component that is named `PIN` or `*` has no pin on a net, since no joint can name it.
pub fn none_unnamed()
    ensures { NoneUnnamed }
{}

/// A law: joints of distinct pins put no pin on two nets.
pub fn apart_is()
    ensures { ApartIs }
{}

/// A law: where pins are put on nets, those pins are on those nets, and all else is as it was.
pub fn rewired_is()
    ensures { RewiredIs }
{}

/// A law: a well-formed netlist stays well-formed where pins are put on nets.
pub fn still_well_formed()
    ensures { StillWellFormed }
{}

/// A law: what can be joined in a design can be joined in its netlist, and nothing else can.
pub fn can_join_is()
    ensures { CanJoinIs }
{}

/// A law: the issued design has the netlist of the design with the new nets, and with the pins on their nets.
pub fn issued_is()
    ensures { IssuedIs }
{}

/// A law: issued for the netlist of its own design, a text stays as it is.
pub fn own_text()
    ensures { OwnText }
{}

/// A law: an issued text has a design, whose netlist is that of the text's design with these pins on their nets and with the
/// new nets. Units, components and top pins are the text's.
pub fn issued_reads_back()
    ensures { IssuedReadsBack }
{}

/// A law: the issued design is consistent where the design is.
pub fn still_consistent()
    ensures { StillConsistent }
{}

/// A law: issuing leaves the components with their models and places, and the design's own pins, as they are.
pub fn components_stay()
    ensures { IssuingKeepsComponents }
{}

/// A law: where no pin moves and no net is new, the design is issued as it is.
pub fn nothing_moves()
    ensures { NothingMoves }
{}

/// A law: no statement gives its net another value as a supply than an earlier one exactly where no net has two values. The
/// net of the first that does has both.
pub fn two_valued_is()
    ensures { TwoValuedIs }
{}

/// A law: the places of a design that was read are doubled centres, which lie in their range, where no macro is wider or
/// higher than 10,000 microns.
pub fn places_are_centres()
    ensures { PlacesAreCentres }
{}
