//! What settling calls.
ghost use Rattle.std.specs.Prelude.{◌≡◌, ◌≢◌, ◌⊎◌, ◌<◌, ℕ, true, false, [], Some, OnOk, OnErr, IfOk};
ghost use Rattle.warp_core.specs.World.{World, end_key};
ghost use Rattle.warp_core.specs.Cores.{Core, IsConsistent};
ghost use Rattle.warp_core.specs.Steps.{StepOf};
ghost use Rattle.warp_core.specs.declared.step.Step.{Step};
ghost use Rattle.warp_core.specs.Settling.{StepsOne, IsNextKey};

use regions::Neighbours;
use surf_kinds::{Key, NoMemory};

pub trait Machine {
    ghost world: { Self → World };

    ghost core: { Self → Core };

    // What settling leaves as it was.
    ghost Rest: { Type 0 };

    ghost rest: { Self → Self.Rest };

    fn regions(&self) -> u32
        ensures { result ≡ (world self.now).regions };

    /// The regions that a region sends messages to. The channels from it to all others are empty.
    fn neighbours(&self, region: u32) -> Neighbours
        requires { region < (world self.now).regions }
        ensures inside { (i : ℕ) → (result.first ≡ Some i) ⊎ (result.second ≡ Some i) → (i < (world self.now).regions) × (region ≢ i) }
        ensures others { (i : ℕ) → i < (world self.now).regions → result.first ≢ Some i → result.second ≢ Some i → (core self.now).channel region i ≡ [] };

    fn clock(&self, region: u32) -> Key
        requires { region < (world self.now).regions }
        ensures { result ≡ ((core self.now).part region).clock };

    fn next_key(&self, region: u32) -> Key
        requires inside { region < (world self.now).regions }
        requires good { IsConsistent (world self.now) (core self.now) }
        ensures { IsNextKey (world self.now) (core self.now) region result };

    fn end(&self) -> Key
        ensures { result ≡ end_key (world self.now) };

    fn deliver(&mut self, from: u32, to: u32) -> Result<bool, NoMemory>
        requires inside { (from < (world self.old).regions) × (to < (world self.old).regions) × (from ≢ to) }
        requires good { IsConsistent (world self.old) (core self.old) }
        ensures world { world self.new ≡ world self.old }
        ensures rest { rest self.new ≡ rest self.old }
        ensures done { IfOk result (λ done. done ≡ true → StepOf (world self.old) (core self.old) (Step.Take from to) (core self.new)) }
        ensures not_now { IfOk result (λ done. done ≡ false → (core self.new ≡ core self.old) × ((core self.old).channel from to ≡ [])) }
        ensures err { OnErr result (core self.new ≡ core self.old) };

    fn step_one(&mut self, region: u32) -> Result<(), NoMemory>
        requires inside { region < (world self.old).regions }
        requires good { IsConsistent (world self.old) (core self.old) }
        ensures world { world self.new ≡ world self.old }
        ensures rest { rest self.new ≡ rest self.old }
        ensures one { OnOk result (StepsOne (world self.old) (core self.old) region (core self.new)) }
        ensures err { OnErr result (core self.new ≡ core self.old) };

    ghost apart: { (s : Self) (i : ℕ) → (core s).channel i i ≡ [] };
}
