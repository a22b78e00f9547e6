//! Laws about the rules.

ghost use Rattle.eco_order.specs.Laws.{UnbrokenKeepsRules};

/// A law: an order that breaks no rule keeps the rules that the laws of patches ask for.
pub fn unbroken_keeps_rules()
    ensures { UnbrokenKeepsRules }
{}
