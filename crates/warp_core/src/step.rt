//! The steps of the core.

ghost use Rattle.std.specs.Prelude.{◌≡◌};

use surf_kinds::Key;

/// What a configuration may do next.
#[derive(Clone, Copy, Debug, PartialEq, Eq)]
pub enum Step {
    /// A region applies its next entry, an event of its own, and tells the regions that see its sites.
    Fire { region: u32 },
    /// A region applies its next entry, an event that it was told of; or goes to the end, where nothing is left for it.
    Pass { region: u32 },
    /// A region takes the first message that waits for it from another.
    Take { from: u32, to: u32 },
    /// The events below a key become final.
    Commit { key: Key },
}

/// Whether a step was made.
#[derive(Clone, Copy, Debug, PartialEq, Eq)]
pub enum Did {
    Done,
    /// The step's condition doesn't hold, and nothing has changed.
    NotNow,
}

impl Did {
    ghost use Rattle.warp_core.specs.Tried.{count_of};

    /// 1 where the step was made.
    pub(crate) fn count(self) -> u64
        ensures { result ≡ count_of self }
    {
        match self {
            Did::Done => 1,
            Did::NotNow => 0,
        }
    }
}
