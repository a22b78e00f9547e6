//! Laws of tie nets and of stock.

ghost use Rattle.eco_base.specs.StockLaws.{TieNetsAreConstant, TieNetsStayConstant, StockIsSpare, StockInWords};

/// A law: a tie net has its value, also where components that drive nothing are taken away.
pub fn tie_nets_are_constant()
    ensures whole { TieNetsAreConstant }
    ensures without { TieNetsStayConstant }
{}

/// A law: each spare of the stock is a gate whose outputs are unconnected.
pub fn stock_drives_nothing()
    ensures { StockIsSpare }
{}

/// A law: a component of a netlist passes the test for stock exactly where it is spare-named, placed and a gate that has every
/// input on one of the two tie nets and every output unconnected.
pub fn stock_in_words()
    ensures { StockInWords }
{}
