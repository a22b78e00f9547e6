//! Designs of DEF texts: LEF/DEF 5.8 Language Reference, in the profile of docs/FORMATS.md.
#![tactic(auto)]

mod comps;
mod design;
mod fault;
mod joints;
mod names;
mod near;
mod nets;
mod orient;
mod part;
mod passing;
mod pin_clause;
mod pins;
mod place;
mod read;
mod reader;
mod room;
mod section;
mod sections;
mod top_level;

pub use crate::design::{Comp, Design, Joint, NetStatement, TopPin};
pub use crate::fault::{DefFault, Section};
pub use crate::joints::{JointIter, Joints};
pub use crate::orient::Orient;
pub use crate::place::Place;
pub use crate::read::{faults_stay, limit_stands, limits_keep, read_def};
