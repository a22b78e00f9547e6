//! The joints of a net.

ghost use Rattle.std.specs.Prelude.{◌≡◌, List, length, IfOk, IfSome};
ghost use Rattle.eco_def.specs.Near.{joints_behind};
ghost use Rattle.eco_def.specs.Kept.{joints_left};

use crate::design::Joint;
use crate::near::NearJoint;
use smallvec::SmallVec;
use std::alloc::{AllocError, Global};
use std::marker::Model;

/// The joints of a net by their distances. Most nets have no more than five, and these lie in the value itself.
type NearJoints = SmallVec<NearJoint, 5>;

/// How the joints of a net are kept: by their distances where all of them are near, and else whole.
#[derive(Debug, Drop)]
enum Kept {
    Near { from: u32, joints: NearJoints },
    Whole(Vec<Joint>),
}

/// The joints of a net, in the order of its text.
///
/// A design has some millions of them, so that they are kept by the distances of their words.
#[derive(Debug, Drop)]
pub struct Joints {
    kept: Kept,
}

impl Model for Joints {
    ghost use Rattle.std.specs.Prelude.{List};
    ghost use Rattle.eco_def.specs.declared.design.Joint.{Joint};
    ghost use Rattle.eco_def.specs.Kept.{kept_joints};

    ghost Value = { List Joint };

    ghost view = { λ j. kept_joints j.kept };
}

/// These joints by their distances, the first from a place, if all of them are near.
fn near_joints(alloc: Global, from: u32, joints: &[Joint]) -> Result<Option<NearJoints>, AllocError>
    ensures { IfOk result (λ found. IfSome found (λ near. joints_behind from near.items ≡ joints.now)) }
{
    let mut near = SmallVec::with_capacity(alloc, joints.len())?;
    let mut place = from;
    for joint in joints {
        let Some(next) = NearJoint::of(place, joint) else {
            return Ok(None);
        };
        near.push(next)?;
        place = joint.end;
    }
    Ok(Some(near))
}

/// Where the first of some joints begins.
fn first_start(joints: &[Joint]) -> u32 {
    match joints.first() {
        Some(joint) => joint.start,
        None => 0,
    }
}

impl Joints {
    /// These joints.
    pub fn of(alloc: Global, joints: &[Joint]) -> Result<Joints, AllocError>
        ensures { IfOk result (λ kept. kept ≡ joints.now) }
    {
        let from = first_start(joints);
        let kept = match near_joints(alloc, from, joints)? {
            Some(joints) => Kept::Near { from, joints },
            None => Kept::Whole(Vec::from_slice(alloc, joints)?),
        };
        Ok(Joints { kept })
    }

    /// How many there are.
    #[tactic(auto, using(crate::proofs::NearJoints::as_many))]
    pub fn len(&self) -> usize
        ensures { result ≡ length self.now }
    {
        match &self.kept {
            Kept::Near { from: _, joints } => joints.len(),
            Kept::Whole(joints) => joints.len(),
        }
    }

    /// The joints, one after the other.
    pub fn iter(&self) -> JointIter<'_>
        ensures { joints_left result ≡ self.now }
    {
        let left = match &self.kept {
            Kept::Near { from, joints } => Left::Near {
                from: *from,
                joints: joints.as_slice(),
            },
            Kept::Whole(joints) => Left::Whole(joints),
        };
        JointIter { left }
    }
}

/// What is left of the joints of a net, in the form in which they are kept.
#[derive(Clone, Copy, Debug, Drop)]
enum Left<'a> {
    Near { from: u32, joints: &'a [NearJoint] },
    Whole(&'a [Joint]),
}

/// The joints of a net, one after the other.
#[derive(Clone, Copy, Debug, Drop)]
pub struct JointIter<'a> {
    left: Left<'a>,
}

impl<'a> Iterator for JointIter<'a> {
    ghost use Rattle.std.specs.Iterator.{YieldsFirst, item_count};
    ghost use Rattle.eco_def.specs.Kept.{joints_left};

    type Item = Joint;

    ghost next_gives = { YieldsFirst joints_left };

    ghost remaining = { item_count joints_left };

    #[tactic(auto, unfolding(crate::specs::Near::joints_behind))]
    fn next(&mut self) -> Option<Joint> {
        match &mut self.left {
            Left::Near { from, joints } => {
                let (first, others) = joints.split_first()?;
                let joint = first.behind(*from);
                *from = joint.end;
                *joints = others;
                Some(joint)
            }
            Left::Whole(joints) => {
                let (first, others) = joints.split_first()?;
                *joints = others;
                Some(*first)
            }
        }
    }
}
