//! The rule of the places: each copy is the state after a beginning of the list of changes.

use crate::pair::Frame;
use atomic_table::{Join, Split};
use crossbeam_utils::rule::{Outcome, Protocol};

/// What a place knows: nothing, or the counts at the start and which list of changes it is. No value of it is made.
pub struct Knowledge {
    pub known: bool,
    pub start: [u64; 0],
    pub number: u64,
    pub log_name: u64,
    pub cells_name: u64,
}

pub struct Places;

impl Protocol<Frame, Knowledge> for Places {
    ghost use Rattle.frames.specs.Places.{ArePlaces, newcomer};

    ghost holds = { λ frame views. ArePlaces frame views };

    ghost first = { newcomer };
}

/// The first publish, after which the writer's place knows.
pub struct Opening;

impl Outcome<Frame, Knowledge> for Opening {
    ghost use Rattle.frames.specs.Places.{Opens};

    ghost then = { Opens };
}

/// A read or a publish.
pub struct Seeing;

impl Outcome<Frame, Knowledge> for Seeing {
    ghost use Rattle.frames.specs.Places.{Sees};

    ghost then = { Sees };
}

/// How a new place is told all that the writer's knows.
pub struct Telling;

impl Split<Knowledge> for Telling {
    ghost left = { λ v. v };

    ghost right = { λ v. v };
}

impl Join<Knowledge> for Telling {
    ghost use Rattle.frames.specs.Places.{newcomer};

    ghost both = { λ v w. w };

    ghost spent = { newcomer };
}
