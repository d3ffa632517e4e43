//! Rules and their rates.

use crate::site::SpeciesId;
use std::marker::Model;

/// A rate `p / q` for each unit of time, in lowest terms. Zero is `0 / 1`. Both are at most 10^9, and `q` is
/// at least 1.
#[derive(Clone, Copy, Debug, PartialEq, Eq)]
pub struct Rate {
    pub p: u32,
    pub q: u32,
}

impl Model for Rate {
    ghost use Rattle.surf_kinds.specs.Rates.{Fraction, IsReduced};

    ghost Value = { Fraction };

    ghost view = { λ r. record { p = r.p; q = r.q } };

    ghost invariant = { λ r. IsReduced (record { p = r.p; q = r.q }) };

    ghost inverse = { λ f. record { p = f.p; q = f.q } };
}

/// A rule. In `A + B -> C + D` the site that held A then holds C, and the site that held B then holds D,
/// in whichever direction the two neighbours stand.
#[derive(Clone, Copy, Debug, PartialEq, Eq)]
pub enum Rule {
    /// `A -> C`
    One {
        rate: Rate,
        a: SpeciesId,
        c: SpeciesId,
    },
    /// `A + B -> C + D`
    Two {
        rate: Rate,
        a: SpeciesId,
        b: SpeciesId,
        c: SpeciesId,
        d: SpeciesId,
    },
}
