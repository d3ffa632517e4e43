//! The engine: a surface with the queue of its next events.

ghost use Rattle.std.specs.Prelude.{◌≡◌, ◌^◌, ◌≤◌, ◌*◌, ◌∷◌, [], All, IfOk, MatchOption};
ghost use Rattle.plan.specs.History.{due};
ghost use Rattle.one_engine.specs.State.{fired, history_from};
ghost use Rattle.plan.specs.Products.{LeavesWithin};

use event_queue::Queue;
use lattice::PlaceRange;
use next_events::{EveryPlace, queue_of, refresh};
use plan::Plan;
use std::alloc::Global;
use std::marker::Model;
use surf_kinds::{Event, NoMemory, Place, SiteId, Step};
use surface_state::Surface;

/// A surface that runs by the rules of a plan.
#[derive(Drop)]
pub struct Engine {
    plan: Plan,
    surface: Surface,
    queue: Queue,
}

impl Model for Engine {
    ghost use Rattle.one_engine.specs.State.{State};
    ghost use Rattle.one_engine.specs.Running.{IsRunning};

    ghost Value = { State };

    ghost view = { λ e. record { network = e.plan; surface = e.surface } };

    ghost invariant = { λ e. IsRunning e.plan e.surface e.queue };
}

impl Engine {
    /// An engine over a surface on which no site was rewritten more than seven times a tick, up to tick 10^15. The
    /// other calls take no memory.
    pub fn new(alloc: Global, plan: Plan, surface: Surface) -> Result<Engine, NoMemory>
        requires lattice { surface.lattice ≡ plan.lattice }
        requires species { All (LeavesWithin surface.species_count) plan.rules }
        requires versions { All (λ s. s.version ≤ 7 * s.last) surface.sites }
        requires lasts { All (λ s. s.last ≤ 10 ^ 15) surface.sites }
        ensures { IfOk result (λ e. e ≡ record { network = plan; surface = surface }) }
    {
        let end = Place::at(SiteId(plan.lattice().site_count()), Step::Alone);
        let all_places = PlaceRange {
            first: 0,
            end: end.0,
        };
        let queue = queue_of(alloc, &plan, &surface, all_places)?;
        Ok(Engine {
            plan,
            surface,
            queue,
        })
    }

    /// Fires the next event of the surface, where its time is at most `until`, and gives it. None where there is
    /// no event or it is later; then nothing changes. The cost goes with the logarithm of the number of places.
    pub fn fire(&mut self, until: u64) -> Option<Event>
        requires { until ≤ 10 ^ 15 }
        ensures due { result ≡ due self.old.network until self.old.surface.sites }
        ensures state { MatchOption result (self.new ≡ self.old) (λ e. self.new ≡ fired self.old e) }

        // The answer is the first event of the history, which the next answers go on with.
        ensures history { MatchOption result (history_from until self.old ≡ []) (λ e. history_from until self.old ≡ e ∷ history_from until self.new) }
    {
        match self.queue.least() {
            Some(event) if event.time <= until => {
                let products = self.plan.products(event.channel);
                self.surface.apply(event, products);
                refresh(
                    &self.plan,
                    &self.surface,
                    &mut self.queue,
                    EveryPlace,
                    event.place,
                );
                Some(event)
            }
            _ => None,
        }
    }

    /// The rules that it runs by.
    pub fn plan(&self) -> &Plan
        ensures { result.now ≡ self.now.network }
    {
        &self.plan
    }

    /// What stands at the sites, and the counts of species.
    pub fn surface(&self) -> &Surface
        ensures surface { result.now ≡ self.now.surface }
        ensures lattice { self.now.surface.lattice ≡ self.now.network.lattice }
    {
        &self.surface
    }
}
