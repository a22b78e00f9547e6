//! The law of one patch gate on one spare.

ghost use Rattle.eco_one_gate.specs.OneLaws.{OneGateApplies};

/// A law: where a component is a spare of the stock, an order of one gate is good and the gate is embedded in the spare, an
/// overlay that puts the spare's pins on their nets applies the order: the netlists with the gate and with the spare have
/// the same valuations and mean the same, and on a plain base the issued text reads back to the second.
pub fn one_gate_applies()
    ensures { OneGateApplies }
{}
