//! What a region's turns did, counted.

ghost use Rattle.std.specs.Prelude.{◌≡◌};
ghost use Rattle.region_run.specs.Counts.{with_work as with_work_of, with_turn as with_turn_of, with_forgotten as with_forgotten_of};
ghost use Rattle.region_run.specs.Starts.{no_totals};

/// What a turn did.
#[derive(Clone, Copy, Debug, PartialEq, Eq)]
pub struct Turn {
    /// The entries that it added.
    pub added: u64,
    /// The messages that it took.
    pub taken: u64,
    /// The entries that it cut.
    pub cut: u64,
    /// Whether nothing was left for the region when it ended.
    pub empty: bool,
}

/// What a region did so far. Each number stops at 2^64 - 1.
#[derive(Clone, Copy, Debug, PartialEq, Eq)]
pub struct Totals {
    /// How many turns it made, and what the last one did.
    pub turns: u64,
    pub last_turn: Turn,
    /// The entries that it added, the entries that it cut, and the received entries that it forgot.
    pub added: u64,
    pub cut: u64,
    pub forgotten: u64,
}

impl Totals {
    /// Before the first turn.
    pub(crate) fn none() -> Totals
        ensures { result ≡ no_totals }
    {
        Totals {
            turns: 0,
            last_turn: Turn {
                added: 0,
                taken: 0,
                cut: 0,
                empty: false,
            },
            added: 0,
            cut: 0,
            forgotten: 0,
        }
    }

    /// With entries that were added and cut.
    pub(crate) fn with_work(self, added: u64, cut: u64) -> Totals
        ensures { result ≡ with_work_of self added cut }
    {
        Totals {
            added: self.added.saturating_add(added),
            cut: self.cut.saturating_add(cut),
            ..self
        }
    }

    /// With a turn.
    pub(crate) fn with_turn(self, turn: Turn) -> Totals
        ensures { result ≡ with_turn_of self turn }
    {
        Totals {
            turns: self.turns.saturating_add(1),
            last_turn: turn,
            added: self.added.saturating_add(turn.added),
            cut: self.cut.saturating_add(turn.cut),
            forgotten: self.forgotten,
        }
    }

    /// With received entries that were forgotten.
    pub(crate) fn with_forgotten(self, forgotten: u64) -> Totals
        ensures { result ≡ with_forgotten_of self forgotten }
    {
        Totals {
            forgotten: self.forgotten.saturating_add(forgotten),
            ..self
        }
    }
}
