//! The desk file.

ghost use Rattle.std.specs.Prelude.{◌≡◌, IsTrue};
ghost use Rattle.eco_desk_file.specs.Desk.{is_desk, is_spare_named};

use eco_common::Name;
use std::marker::Model;

/// The names of the two tie nets, and how names of spare cells begin.
#[derive(Drop)]
pub struct DeskFile {
    high: Name,
    low: Name,
    prefixes: Vec<Name>,
}

impl Model for DeskFile {
    ghost use Rattle.std.specs.Prelude.{IsTrue};
    ghost use Rattle.eco_desk_file.specs.Desk.{Desk, is_desk};

    ghost Value = { Desk };

    ghost view = { λ d. record { high = d.high; low = d.low; prefixes = d.prefixes.items } };

    ghost invariant = { λ d. IsTrue (is_desk d.high d.low d.prefixes.items) };
}

impl DeskFile {
    /// The desk file of these names and prefixes, which make one.
    pub(crate) fn of(high: Name, low: Name, prefixes: Vec<Name>) -> DeskFile
        requires { IsTrue (is_desk high low prefixes.items) }
        ensures { result ≡ record { high = high; low = low; prefixes = prefixes.items } }
    {
        DeskFile {
            high,
            low,
            prefixes,
        }
    }

    /// The net that is tied to 1.
    pub fn high(&self) -> &Name
        ensures value { result.now ≡ self.now.high }
        ensures is_desk { IsTrue (is_desk self.now.high self.now.low self.now.prefixes) }
    {
        &self.high
    }

    /// The net that is tied to 0.
    pub fn low(&self) -> &Name
        ensures value { result.now ≡ self.now.low }
        ensures is_desk { IsTrue (is_desk self.now.high self.now.low self.now.prefixes) }
    {
        &self.low
    }

    /// How names of spare cells begin: one to 64 texts, none empty.
    pub fn prefixes(&self) -> &[Name]
        ensures value { result.now ≡ self.now.prefixes }
        ensures is_desk { IsTrue (is_desk self.now.high self.now.low self.now.prefixes) }
    {
        &self.prefixes
    }

    /// Whether a component of this name is spare-named.
    pub fn is_spare(&self, name: &[u8]) -> bool
        ensures { result ≡ is_spare_named self.now.prefixes name.now }
    {
        begins_with_one(&self.prefixes, name)
    }
}

/// Whether a name begins with one of the prefixes.
fn begins_with_one(prefixes: &[Name], name: &[u8]) -> bool
    ensures { result ≡ is_spare_named prefixes.now name.now }
{
    prefixes
        .iter()
        .any(|prefix| name.starts_with(prefix.bytes()))
}
