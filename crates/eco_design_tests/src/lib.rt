//! Tests of designs: their netlists, masters and pins, and the issued texts.
//!
//! A function that owns a netlist or a design leaves what may fail to one that borrows it: what is to be dropped where it
//! fails makes a proof long.
#![tactic(auto)]

#[cfg(test)]
mod centres;
#[cfg(test)]
mod counted;
#[cfg(test)]
mod full;
#[cfg(test)]
mod masters;
#[cfg(test)]
mod net;
#[cfg(test)]
mod overlay;
#[cfg(test)]
mod places;
#[cfg(test)]
mod said;
