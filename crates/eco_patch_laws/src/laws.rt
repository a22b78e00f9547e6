//! The laws of change orders.

ghost use Rattle.eco_patch_laws.specs.Laws.{BaseTakesJoints, BaseTakesLive, ComponentsStay, FirstCounts, FreeStockRests, GatesCompute, JointsJoin, LiveJoints, LiveMeansSame, LiveNetsAreNew, LoneIsPatch, MovesArrive, NetsJoin, NothingLive, OtherNetsStay, OtherPinsStay, OthersRemain, PatchMeansSame, SameBesideStock, SameValuations, SparesCompute, StockIsBeside, WithIsLoopFree, WithoutComputesSame, WithoutIsLoopFree};

/// A law: joints put their pins on their nets, of two joints of one pin the first, and leave all other pins, each component's
/// kind and place, and all nets but the new ones as they were.
pub fn joints_join()
    ensures pins { JointsJoin }
    ensures other_pins { OtherPinsStay }
    ensures firsts { FirstCounts }
    ensures components { ComponentsStay }
    ensures nets { NetsJoin }
    ensures other_nets { OtherNetsStay }
{}

/// A law: a map from nets to bits is a valuation of the base with an order's gates inserted exactly where it is one of the
/// base with the spares in their place, for all cut bits, whether the stock stands beside the gates or not.
pub fn same_valuations()
    ensures bare { SameValuations }
    ensures beside { SameBesideStock }
{}

/// A law: the two netlists are loop-free, have the same nets, cut keys and observables, and for each choice of cut bits one
/// valuation, which is the same and has the same value at each observable.
pub fn patch_means_same()
    ensures { PatchMeansSame }
{}

/// A law: where an order's gates are inserted, each moved pin is on the net that it goes to, and each other pin of the base
/// where it was.
pub fn moves_arrive()
    ensures moved { MovesArrive }
    ensures others { OthersRemain }
{}

/// A law: a gate that is inserted computes its output net by its table of its input nets, and a spare in its place computes it
/// by the table of the chosen output of the nets that feed its pins.
pub fn outputs_are_computed()
    ensures gates { GatesCompute }
    ensures spares { SparesCompute }
{}

/// A law: one gate on a new net, which one input pin goes to, with its embedding in one spare of the stock, is an order that
/// the laws above speak of.
pub fn lone_is_patch()
    ensures { LoneIsPatch }
{}

/// A law: the joints that realise an order are ones that the base can take: each is of another pin, its component has the pin,
/// and its net is one of the base or new.
pub fn base_takes_joints()
    ensures { BaseTakesJoints }
{}

/// A law: several live orders, inserted one after another on the base without its stock, mean the same as realised one after
/// another on the whole base.
pub fn live_means_same()
    ensures { LiveMeansSame }
{}

/// A law: several live orders realised are the base with joints put on it, of each pin the last order's, and these are ones
/// that the base can take. A stock component that no live order has stands as in the base, and with no live order the whole
/// base does.
pub fn live_joints_join()
    ensures joints { LiveJoints }
    ensures takes { BaseTakesLive }
    ensures nets { LiveNetsAreNew }
    ensures rests { FreeStockRests }
    ensures none { NothingLive }
{}

/// A law: taking away components that drive nothing makes no loop, takes none away and changes no valuation. The stock
/// beside an order's inserted gates are such components.
pub fn without_means_same()
    ensures loops { WithoutIsLoopFree }
    ensures loops_with { WithIsLoopFree }
    ensures valuations { WithoutComputesSame }
    ensures stock { StockIsBeside }
{}
