//! Laws of the energy, over its definition alone.

ghost use Rattle.std.specs.Prelude.{ℕ, ◌≤◌};
ghost use Rattle.fixed_log.specs.Log.{energy_of};

/// The word 0 has the greatest energy.
pub fn energies_are_bounded()
    ensures { (w : ℕ) → energy_of w ≤ 190530846208 }
{}
