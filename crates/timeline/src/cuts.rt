//! Cutting entries at a key, from the last on or from the first.

ghost use Rattle.std.specs.Prelude.{◌≡◌, ◌++◌, ◌∷◌, [], ◌≤◌, length, drop, position, not, IfSome, IfNone, vec_capacity};
ghost use Rattle.surf_kinds.specs.Keys.{is_before, ◌is_upto◌, RiseStrictly};
ghost use Rattle.surface_state.specs.SurfaceView.{SurfaceView};
ghost use Rattle.timeline.specs.TimelineView.{events_of, entry_key, below, from, EndsBelow};
ghost use Rattle.timeline.specs.Led.{LedTo};

use crate::entry::Entry;
use surf_kinds::Key;
use surface_state::Surface;

/// Takes the last entry out, where its key is at least this one.
fn pop_from(entries: &mut Vec<Entry>, key: Key) -> Option<Entry>
    ensures last { IfSome result (λ e. entries.old.items ≡ entries.new.items ++ e ∷ []) }
    ensures from { IfSome result (λ e. key is_upto entry_key e) }
    ensures same { IfNone result (entries.new.items ≡ entries.old.items) }
    ensures below { IfNone result (EndsBelow key entries.old.items) }
    ensures capacity { vec_capacity entries.new ≡ vec_capacity entries.old }
{
    let last = *entries.last()?;
    if last.key().is_before(key) {
        return None;
    }
    entries.pop()
}

/// Undoes and removes the entries from a key on, last first. Answers how many.
pub(crate) fn undo_from(entries: &mut Vec<Entry>, key: Key, surface: &mut Surface) -> u64
    requires rise { RiseStrictly (events_of entries.old.items) }
    requires led { (base : SurfaceView) × LedTo base entries.old.items surface.old }
    ensures entries { entries.new.items ≡ below key entries.old.items }
    ensures answer { result ≡ length (from key entries.old.items) }
    ensures surface { (stood : SurfaceView) → LedTo stood (from key entries.old.items) surface.old → surface.new ≡ stood }
    ensures lattice { surface.new.lattice ≡ surface.old.lattice }
    ensures species_count { surface.new.species_count ≡ surface.old.species_count }
    ensures capacity { vec_capacity entries.new ≡ vec_capacity entries.old }
{
    let mut undone = 0;
    while let Some(entry) = pop_from(entries, key) {
        surface.undo(entry.before);
        undone += 1;
    }
    undone
}

/// The index of the first entry from a key on.
fn first_from(entries: &[Entry], key: Key) -> Option<usize>
    ensures { result ≡ position (λ e. not (is_before (entry_key e) key)) entries.now }
{
    entries.iter().position(|entry| !entry.key().is_before(key))
}

/// How many entries come before the first one from a key on.
fn count_below(entries: &[Entry], key: Key) -> usize
    requires { RiseStrictly (events_of entries.now) }
    ensures within { result ≤ length entries.now }
    ensures rest { drop result entries.now ≡ from key entries.now }
{
    match first_from(entries, key) {
        Some(count) => count,
        None => entries.len(),
    }
}

/// Removes the entries below a key. Those from it on aren't looked at, and moved where one was removed.
pub(crate) fn forget_below(entries: &mut Vec<Entry>, key: Key)
    requires { RiseStrictly (events_of entries.old.items) }
    ensures entries { entries.new.items ≡ from key entries.old.items }
    ensures capacity { vec_capacity entries.new ≡ vec_capacity entries.old }
{
    let count = count_below(entries, key);
    if count > 0 {
        let rest = entries.len() - count;
        entries.copy_within(count.., 0);
        entries.truncate(rest);
    }
}
