//! How many sites have each species.

ghost use Rattle.std.specs.Prelude.{◌≡◌, ◌+◌, ◌-◌, ◌^◌, ◌<◌, ◌≤◌, ℕ, length, All, IfOk, slice_index_or, vec_len};
ghost use Rattle.surface_state.specs.Columns.{one_at, AreCounts};

use std::alloc::Global;
use surf_kinds::{NoMemory, SpeciesId};

/// Counts one more site of a species.
fn count_one(counts: &mut [u32], species: SpeciesId)
    requires known { species.0 < length counts.old }
    requires room { (d : ℕ) → slice_index_or counts.old species.0 d < 2 ^ 32 - 1 }
    ensures { (k d : ℕ) → k < length counts.old → slice_index_or counts.new k d ≡ slice_index_or counts.old k d + one_at species k }
{
    counts[usize::from(species.0)] += 1;
}

/// Counts one site less of a species.
fn count_off(counts: &mut [u32], species: SpeciesId)
    requires known { species.0 < length counts.old }
    requires some { (d : ℕ) → 1 ≤ slice_index_or counts.old species.0 d }
    ensures { (k d : ℕ) → k < length counts.old → slice_index_or counts.new k d + one_at species k ≡ slice_index_or counts.old k d }
{
    counts[usize::from(species.0)] -= 1;
}

/// A site that had the one species now has the other.
pub(crate) fn count_moved(counts: &mut [u32], from: SpeciesId, to: SpeciesId)
    requires from { from.0 < length counts.old }
    requires to { to.0 < length counts.old }
    requires some { (d : ℕ) → 1 ≤ slice_index_or counts.old from.0 d }
    requires room { (d : ℕ) → slice_index_or counts.old to.0 d < 2 ^ 32 - 1 }
    ensures { (k d : ℕ) → k < length counts.old → slice_index_or counts.new k d + one_at from k ≡ slice_index_or counts.old k d + one_at to k }
{
    count_off(counts, from);
    count_one(counts, to);
}

/// How many of the cells have each species.
pub(crate) fn counts_of(
    alloc: Global,
    cells: &[SpeciesId],
    species_count: u32,
) -> Result<Vec<u32>, NoMemory>
    requires few { length cells.now ≤ 2 ^ 20 }
    requires known { All (λ s. s.0 < species_count) cells.now }
    ensures long { IfOk result (λ counts. length counts.items ≡ species_count) }
    ensures counts { IfOk result (λ counts. AreCounts counts.items cells.now) }
{
    let mut counts = vec![in alloc; 0u32; species_count as usize]?;
    for cell in cells {
        count_one(&mut counts, *cell);
    }
    Ok(counts)
}
