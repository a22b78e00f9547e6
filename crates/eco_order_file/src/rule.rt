//! The rules of orders.

ghost use Rattle.std.specs.Prelude.{◌≡◌};
ghost use Rattle.eco_order_file.specs.declared.rule.OrderFault.TheVariants.{Memory as OutOfMemory};

use crate::lists::NameList;
use eco_common::{Memory, Name};
use std::fmt::{self, Display, Formatter, Write};
use thiserror::Error;

/// What an order or a hold may have too many of.
#[derive(Clone, Copy, Debug, Drop, PartialEq, Eq)]
pub enum Counted {
    Nets,
    Gates,
    Moves,
    Spares,
}

/// A rule that an order breaks, and what breaks it.
#[derive(Debug, Drop)]
pub enum Rule {
    /// Rule 1: the text is no JSON.
    BadJson,
    /// Rule 2: a field is missing, unknown or of another form.
    BadField {
        path: Name,
    },
    /// Rule 3: more than there may be.
    TooLarge {
        what: Counted,
        count: usize,
    },
    /// Rule 4: a name isn't of its form.
    BadName {
        name: Name,
    },
    /// Rule 5: a net, a gate or a moved pin, written `comp/pin`, stands twice.
    TwiceNamed {
        name: Name,
    },
    /// Rule 6: a net is neither in the netlist nor among the new ones.
    UnknownNet {
        net: Name,
    },
    /// Rule 7: it is no INPUT or OUTPUT pin of a component of the base.
    UnknownPin {
        comp: Name,
        pin: Name,
    },
    /// Rule 8: the moved pin is on another net, or on none.
    WrongFrom {
        comp: Name,
        pin: Name,
        net: Option<Name>,
    },
    /// Rule 9: a pin of a stock component is moved.
    StockPin {
        comp: Name,
        pin: Name,
    },
    /// Rule 10: a supply or a tie net would be driven.
    SupplyDriven {
        net: Name,
    },
    /// Rule 11: a new net is in the netlist.
    NetNameTaken {
        net: Name,
    },
    /// Rule 12: a net has not exactly one driving pin.
    NotOneDriver {
        net: Name,
        count: usize,
    },
    /// Rule 13: a closed walk of computed nets.
    Loop {
        nets: NameList,
    },
}

impl Rule {
    ghost use Rattle.std.specs.Prelude.{◌≡◌};
    ghost use Rattle.eco_order_file.specs.Refusals.{number_of, word_of};

    /// Its number.
    pub fn number(&self) -> u64
        ensures { result ≡ number_of self.now }
    {
        match self {
            Rule::BadJson => 1,
            Rule::BadField { .. } => 2,
            Rule::TooLarge { .. } => 3,
            Rule::BadName { .. } => 4,
            Rule::TwiceNamed { .. } => 5,
            Rule::UnknownNet { .. } => 6,
            Rule::UnknownPin { .. } => 7,
            Rule::WrongFrom { .. } => 8,
            Rule::StockPin { .. } => 9,
            Rule::SupplyDriven { .. } => 10,
            Rule::NetNameTaken { .. } => 11,
            Rule::NotOneDriver { .. } => 12,
            Rule::Loop { .. } => 13,
        }
    }

    /// Its name.
    pub fn word(&self) -> &'static str
        ensures { result.now ≡ word_of self.now }
    {
        match self {
            Rule::BadJson => "BadJson",
            Rule::BadField { .. } => "BadField",
            Rule::TooLarge { .. } => "TooLarge",
            Rule::BadName { .. } => "BadName",
            Rule::TwiceNamed { .. } => "TwiceNamed",
            Rule::UnknownNet { .. } => "UnknownNet",
            Rule::UnknownPin { .. } => "UnknownPin",
            Rule::WrongFrom { .. } => "WrongFrom",
            Rule::StockPin { .. } => "StockPin",
            Rule::SupplyDriven { .. } => "SupplyDriven",
            Rule::NetNameTaken { .. } => "NetNameTaken",
            Rule::NotOneDriver { .. } => "NotOneDriver",
            Rule::Loop { .. } => "Loop",
        }
    }
}

/// The rule's name.
impl Display for Rule {
    fn fmt<W: Write>(&self, f: &mut Formatter<W>) -> fmt::Result {
        f.write_str(self.word())
    }
}

/// Why an order is refused.
#[derive(Debug, Drop, Error)]
pub enum OrderFault {
    /// The first broken rule.
    #[error("{0}")]
    Broken(Rule),
    /// Out of memory.
    #[error("memory")]
    Memory,
}

impl From<Memory> for OrderFault {
    ghost from_gives = { λ _ e. e ≡ OutOfMemory };

    fn from(_: Memory) -> OrderFault {
        OrderFault::Memory
    }
}
