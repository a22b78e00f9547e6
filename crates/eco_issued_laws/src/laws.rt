ghost use Rattle.eco_issued_laws.specs.Bounds.{DesignsAreBounded};
ghost use Rattle.eco_issued_laws.specs.Withdrawals.{NothingIssued, StandingIssued};
ghost use Rattle.eco_issued_laws.specs.ReadingBack.{Outside, ReadsBack};

/// A law: the issued text of a text with a design has a design. By names, that is the text's design with these pins on
/// their nets and with these new nets; units, components, places and top pins are the text's.
pub fn reads_back()
    ensures { ReadsBack }
{}

/// A law: whatever the changes, the edits of a text with a design lie one after another within the text. Bytes outside
/// of them stay.
pub fn outside()
    ensures { Outside }
{}

/// A law: no joints and no new nets give the text itself, byte for byte.
pub fn nothing_issued()
    ensures { NothingIssued }
{}

/// A law: a joint of a pin that stands on its net already, and on no other, changes nothing.
pub fn standing_issued()
    ensures { StandingIssued }
{}

/// A law: a design has at most 1,000,000 database units per micron, and its components' coordinates are within 32 bits.
pub fn designs_are_bounded()
    ensures { DesignsAreBounded }
{}
