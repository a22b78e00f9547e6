//! Tests of the command line, over hosts in memory.
#![tactic(auto)]

#[cfg(test)]
mod answer;
#[cfg(test)]
mod digest;
#[cfg(test)]
mod faults;
#[cfg(test)]
mod issuing;
#[cfg(test)]
mod limits;
#[cfg(test)]
mod reading;
#[cfg(test)]
mod ties;
#[cfg(test)]
mod words;
