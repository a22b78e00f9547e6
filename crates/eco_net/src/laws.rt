//! The laws of netlists.

ghost use Rattle.eco_net.specs.Laws.{EachChoice, EachNet, OneCutKey, OneDepth, OneValuation, RanksShow, WalkShows};

/// A law: a loop-free netlist has exactly one valuation for each choice of cut bits.
pub fn one_valuation()
    ensures { OneValuation }
{}

/// A law: each net is a supply, computed or free.
pub fn each_net()
    ensures { EachNet }
{}

/// A law: a free net has exactly one cut key.
pub fn one_cut_key()
    ensures { OneCutKey }
{}

/// A law: the cut keys are finite, and each of them may have either bit.
pub fn each_choice()
    ensures { EachChoice }
{}

/// A law: ranks that rise from each computed net to those whose drivers read it show that a netlist is loop-free.
pub fn ranks_show()
    ensures { RanksShow }
{}

/// A law: a closed walk, as it is reported, shows that a netlist is not loop-free.
pub fn closed_walk_shows()
    ensures { WalkShows }
{}

/// A law: a netlist has at most one depth.
pub fn one_depth()
    ensures { OneDepth }
{}
