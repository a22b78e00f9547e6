//! Change orders on a netlist: patch gates inserted as gates, patch gates realised as spares, and the law that the two
//! compute the same.
//!
//! This crate holds definitions and laws; it has no code.
#![tactic(auto)]

mod laws;

pub use crate::laws::{
    base_takes_joints, joints_join, live_joints_join, live_means_same, lone_is_patch, moves_arrive,
    outputs_are_computed, patch_means_same, same_valuations, without_means_same,
};
