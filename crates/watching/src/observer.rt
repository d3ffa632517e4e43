//! Who is told of a run's events, round by round.

ghost use Rattle.std.specs.Prelude.{◌≡◌, ℕ, ◌+◌, ◌-◌, ◌^◌, ◌<◌, ◌++◌, List, length, OnOk};
ghost use Rattle.surf_kinds.specs.declared.event.Event.{Event as TheEvent};
ghost use Rattle.surf_kinds.specs.declared.site.SiteState.{SiteState as TheSite};
ghost use Rattle.plan.specs.Network.{Network};
ghost use Rattle.plan.specs.History.{AreNext};

use plan::Plan;
use surf_kinds::{Event, NoMemory};

/// One who is told of the events of each round of a run, in order. `R` is what it may need of the outside.
pub trait Observer<R> {
    // It was told of these events of a run of the network from this surface on, and of no others.
    ghost has_seen: { Self → Network → List TheSite → List TheEvent → Type 0 };

    // What stays of it.
    ghost Mark: { Type 0 };

    ghost mark: { Self → Self.Mark };

    /// Tells it of the events of a round, which come next.
    fn saw(&mut self, rt: &R, plan: &Plan, events: &[Event]) -> Result<(), NoMemory>
        requires next { (until : ℕ) × (first : List TheSite) × (es : List TheEvent) × has_seen self.old plan.now first es × AreNext plan.now until first (es ++ events.now) × (length es + length events.now < 2 ^ 64 - 1) }
        ensures same { mark self.new ≡ mark self.old }
        ensures seen { OnOk result ((until : ℕ) (first : List TheSite) (es : List TheEvent) → has_seen self.old plan.now first es → AreNext plan.now until first (es ++ events.now) → has_seen self.new plan.now first (es ++ events.now)) };
}

/// Nobody.
#[derive(Clone, Copy)]
pub struct Nobody;

impl<R> Observer<R> for Nobody {
    ghost use Rattle.std.specs.Prelude.{List};
    ghost use Rattle.surf_kinds.specs.declared.event.Event.{Event};
    ghost use Rattle.surf_kinds.specs.declared.site.SiteState.{SiteState};
    ghost use Rattle.plan.specs.Network.{Network};

    ghost has_seen = { λ nobody network first events. Unit {0} };

    ghost Mark = { Unit {0} };

    ghost mark = { λ nobody. tt };

    fn saw(&mut self, _rt: &R, _plan: &Plan, _events: &[Event]) -> Result<(), NoMemory> {
        Ok(())
    }
}
