//! What readers take: one of two copies of a frame.

use crate::change_log::Prefix;
use crate::sample::{Change, Sample};
use left_right::Absorb;
use std::alloc::AllocError;

/// A state, with the list of changes that it comes after.
#[derive(Drop)]
pub struct Frame {
    pub sample: Sample,
    pub seen: Prefix,
}

/// A change, with the list that it ends.
#[derive(Drop)]
pub struct Step {
    pub change: Change,
    pub seen: Prefix,
}

impl Absorb<Step> for Frame {
    ghost use Rattle.frames.specs.Places.{moved_on};

    type State = Frame;

    ghost state = { λ f. f };

    ghost applied = { moved_on };

    ghost never_fails = { Unit {0} };

    fn absorb_first(&mut self, operation: &Step, _other: &Frame) -> Result<(), AllocError> {
        self.sample.apply(&operation.change);
        self.seen = operation.seen.again();
        Ok(())
    }
}
