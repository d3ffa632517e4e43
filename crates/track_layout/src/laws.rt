//! Laws of tracks.

ghost use Rattle.std.specs.Prelude.{◌≡◌, ℕ, List, ◌<◌, ◌≤◌, ◌+◌, length, get_or};
ghost use Rattle.circuit_text.specs.Values.{AreNets};
ghost use Rattle.gate_layout.specs.Nets.{AreNumbered};
ghost use Rattle.gate_layout.specs.Table.{IsWellFormed};
ghost use Rattle.gate_layout.specs.Placed.{table_on};
ghost use Rattle.track_layout.specs.Spans.{first};
ghost use Rattle.track_layout.specs.Tracks.{track_in, AreTracks, on_tracks};
ghost use Rattle.track_layout.specs.Crowd.{crowd, AreShared};
ghost use Rattle.track_layout.specs.Turns.{tracks_of};

use circuit_text::Circuit;
use circuit_text::laws::nets_are_ordered;

/// What holds of each circuit. The calls say so, and their answers are not needed.
pub(crate) fn circuit_facts(circuit: &Circuit)
    ensures nets { AreNets circuit.now.nets }
    ensures inputs { AreNumbered circuit.now.nets }
    ensures some { 0 < length circuit.now.nets }
    ensures outputs { (i : ℕ) → i < length circuit.now.outputs → get_or circuit.now.outputs i 0 < length circuit.now.nets }
{
    nets_are_ordered(circuit);
    let _inputs = circuit.input_count();
    let _outputs = circuit.output_count();
}

/// On the tracks of a circuit, its table is well-formed: the roles of neighbours agree, inputs and outputs have wires of
/// their nets, and each half but those of input cells has a feeder of a lower rank.
pub fn compact_tables_are_well_formed(circuit: &Circuit)
    ensures { (tracks : List ℕ) (count : ℕ) → AreTracks circuit.now tracks count → IsWellFormed circuit.now (table_on (on_tracks circuit.now tracks count) circuit.now) }
{
    circuit_facts(circuit);
}

/// Each circuit has tracks: those that its nets get in their turns.
pub fn circuits_have_tracks(circuit: &Circuit)
    ensures list { (tracks_of circuit.now).list ≡ circuit.now }
    ensures tracks { AreTracks circuit.now (tracks_of circuit.now).tracks (tracks_of circuit.now).count }
{
    circuit_facts(circuit);
}

/// A circuit has one list of tracks, and one number of them.
pub fn tracks_are_one_list(circuit: &Circuit)
    ensures { (tracks others : List ℕ) (count more : ℕ) → AreTracks circuit.now tracks count → AreTracks circuit.now others more → (tracks ≡ others) × (count ≡ more) }
{}

/// At the column where a net of the last track begins, exactly as many spans meet as there are tracks; so no sharing of
/// rows by these spans has fewer.
pub fn no_sharing_has_fewer_rows(circuit: &Circuit)
    ensures exactly { (tracks : List ℕ) (count n : ℕ) → AreTracks circuit.now tracks count → n < length circuit.now.nets → track_in tracks n + 1 ≡ count → crowd circuit.now (length circuit.now.nets) (first circuit.now n) ≡ count }
    ensures fewest { (tracks : List ℕ) (count n : ℕ) → AreTracks circuit.now tracks count → n < length circuit.now.nets → track_in tracks n + 1 ≡ count → (rows : ℕ) (row : ℕ → ℕ) → AreShared circuit.now rows row → count ≤ rows }
{
    circuit_facts(circuit);
}
