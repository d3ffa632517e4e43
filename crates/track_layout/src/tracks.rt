//! A compact layout.

ghost use Rattle.std.specs.Prelude.{◌≡◌, ℕ, List, ◌==◌, ◌<◌, ◌≤◌, ◌+◌, ◌*◌, ◌^◌, Err, length, true, false, IfOk, IfSome};
ghost use Rattle.gate_layout.specs.Nets.{gate_count};
ghost use Rattle.gate_layout.specs.Table.{IsWellFormed};
ghost use Rattle.gate_layout.specs.Placed.{IsPlaced, col_count};
ghost use Rattle.track_layout.specs.Spans.{first};
ghost use Rattle.track_layout.specs.Tracks.{AreTracks, track_in, running, placing as place, compact_table, site_count};
ghost use Rattle.track_layout.specs.Crowd.{crowd, AreShared, OpensLast};
ghost use Rattle.track_layout.specs.Turns.{tracks_of};
ghost use Rattle.track_layout.specs.declared.tracks.TrackError.TheVariants.{TooManySites as TooMany};

use crate::cells::cells_of;
use crate::laws::{circuit_facts, circuits_have_tracks, compact_tables_are_well_formed};
use crate::sweep::tracks_of;
use circuit_text::{Circuit, Net};
use gate_layout::placed::{column_count, feeder_on, net_of_input, rank_on, role_on};
use gate_layout::{Placement, Role, Roles};
use std::alloc::Global;
use std::marker::Model;
use surf_kinds::NoMemory;

/// The most cells of a layout.
const MOST_SITES: u64 = 1 << 20;

/// Why a circuit was not laid out.
#[derive(Clone, Copy, Debug, PartialEq, Eq)]
pub enum TrackError {
    /// The layout has more than 2^20 cells.
    TooManySites { sites: u64 },
    /// Memory ran out.
    Memory,
}

/// The tracks of a circuit's nets: two nets share one where their spans don't meet, and each net has the least one that
/// is free when its turn comes.
#[derive(Drop)]
pub struct Tracks<'a> {
    circuit: &'a Circuit,
    tracks: Vec<u32>,
    count: u32,
    cells: Vec<Option<u32>>,
}

impl<'a> Model for Tracks<'a> {
    ghost use Rattle.std.specs.Prelude.{◌≤◌, ◌+◌, ◌*◌, ◌^◌, length};
    ghost use Rattle.gate_layout.specs.Placed.{col_count};
    ghost use Rattle.track_layout.specs.Tracks.{TracksView, AreTracks};
    ghost use Rattle.track_layout.specs.Sweep.{AreCells};

    ghost Value = { TracksView };

    ghost view = { λ t. record { list = t.circuit.now; tracks = t.tracks.items; count = t.count } };

    ghost invariant = { λ t. AreTracks t.circuit.now t.tracks.items t.count × ((2 * t.count + 2) * col_count t.circuit.now.nets ≤ 2 ^ 20) × AreCells t.circuit.now t.tracks.items t.count t.cells.items (length t.circuit.now.nets) };
}

impl<'a> Tracks<'a> {
    /// The tracks of a circuit, where the layout on them has at most 2^20 cells. It is well-formed: the roles of
    /// neighbours agree, inputs and outputs have wires of their nets, and each half but those of input cells has a feeder
    /// of a lower rank.
    pub fn of(alloc: Global, circuit: &'a Circuit) -> Result<Tracks<'a>, TrackError>
        ensures laid { IfOk result (λ t. t.list ≡ circuit.now) }
        ensures turns { IfOk result (λ t. t ≡ tracks_of circuit.now) }
        ensures tracks { IfOk result (λ t. AreTracks circuit.now t.tracks t.count) }
        ensures room { IfOk result (λ t. site_count t ≤ 2 ^ 20) }
        ensures many { (sites : ℕ) → result ≡ Err (TooMany sites) → (sites ≡ site_count (tracks_of circuit.now)) × (2 ^ 20 < sites) }
        ensures formed { IfOk result (λ t. IsWellFormed circuit.now (compact_table t)) }
    {
        compact_tables_are_well_formed(circuit);
        circuits_have_tracks(circuit);
        let sweep = match tracks_of(alloc, circuit) {
            Ok(sweep) => sweep,
            Err(_) => return Err(TrackError::Memory),
        };
        let sites = (2 * sweep.count as u64 + 2) * column_count(circuit) as u64;
        if sites > MOST_SITES {
            return Err(TrackError::TooManySites { sites });
        }
        let count = sweep.count;
        match cells_of(alloc, circuit, &sweep.tracks, count) {
            Ok(cells) => Ok(Tracks {
                circuit,
                tracks: sweep.tracks,
                count,
                cells,
            }),
            Err(_) => Err(TrackError::Memory),
        }
    }

    /// How many tracks there are.
    pub fn count(&self) -> u32
        ensures { result ≡ self.now.count }
    {
        self.count
    }

    /// The track of a net.
    pub fn track(&self, net: u32) -> u32
        requires { net < length self.now.list.nets }
        ensures track { result ≡ track_in self.now.tracks net }
        ensures within { result < self.now.count }
    {
        self.tracks[net as usize]
    }

    /// The first column of the net that opened the last track. There exactly as many spans meet as there are tracks, so
    /// no sharing of rows by these spans has fewer.
    pub fn crowded(&self) -> u32
        ensures opens { OpensLast self.now.list self.now.tracks self.now.count result }
        ensures exactly { crowd self.now.list (length self.now.list.nets) result ≡ self.now.count }
        ensures fewest { (rows : ℕ) (row : ℕ → ℕ) → AreShared self.now.list rows row → self.now.count ≤ rows }
    {
        circuit_facts(self.circuit);
        self.has_room();
        if self.has_input_last() {
            return 0;
        }
        for gate in 0..self.circuit.gate_count() {
            if self.is_last(self.circuit.gate_net(gate)) {
                return 6 * gate + 5;
            }
        }
        unreachable!()
    }

    /// A net has the last track.
    fn is_last(&self, net: u32) -> bool
        requires { net < length self.now.list.nets }
        ensures { result ≡ (track_in self.now.tracks net + 1 == self.now.count) }
    {
        self.has_room();
        self.track(net) + 1 == self.count()
    }

    /// An input has the last track.
    fn has_input_last(&self) -> bool
        ensures some { result ≡ true → (n : ℕ) × (n < length self.now.list.nets) × (track_in self.now.tracks n + 1 ≡ self.now.count) × (first self.now.list n ≡ 0) }
        ensures none { result ≡ false → (n : ℕ) → n < length self.now.list.nets → track_in self.now.tracks n + 1 ≡ self.now.count → 0 < first self.now.list n }
    {
        for net in 0..self.circuit.net_count() {
            if let Net::Input { .. } = self.circuit.net(net) {
                if self.is_last(net) {
                    return true;
                }
            }
        }
        false
    }

    /// There are few enough cells, and so few enough gates and tracks.
    fn has_room(&self)
        ensures sites { site_count self.now ≤ 2 ^ 20 }
        ensures few { 6 * gate_count self.now.list.nets < 2 ^ 20 }
        ensures small { self.now.count < 2 ^ 19 }
        ensures some { 0 < length self.now.list.nets → 0 < self.now.count }
    {
        let _cols = column_count(self.circuit);
    }

    /// The net that runs at a column of a track.
    fn net_at(&self, track: u32, col: u32) -> Option<u32>
        requires track { track < self.now.count }
        requires col { col < col_count self.now.list.nets }
        ensures net { result ≡ running self.now.list self.now.tracks (length self.now.list.nets) track col }
        ensures within { IfSome result (λ net. net < length self.now.list.nets) }
    {
        let cols = column_count(self.circuit) as usize;
        self.cells[track as usize * cols + col as usize]
    }

    /// The nets are soundly placed.
    fn is_placed(&self)
        ensures { IsPlaced self.now.list (place self.now) }
    {
        circuit_facts(self.circuit);
    }
}

impl<'a> Placement for Tracks<'a> {
    ghost use Rattle.track_layout.specs.Tracks.{placing as place};

    ghost placing = { place };

    ghost net_list = { λ t. t.list };

    fn circuit(&self) -> &Circuit {
        self.circuit
    }

    fn tracks(&self) -> u32 {
        self.has_room();
        self.count()
    }

    fn track(&self, net: u32) -> u32 {
        self.track(net)
    }

    fn runs(&self, track: u32, col: u32) -> Option<u32> {
        self.net_at(track, col)
    }
}

impl<'a> Roles for Tracks<'a> {
    ghost use Rattle.track_layout.specs.Tracks.{compact_table};

    ghost table = { compact_table };

    ghost circuit = { λ t. t.list };

    fn rows(&self) -> u32 {
        self.has_room();
        2 * self.count() + 2
    }

    fn cols(&self) -> u32 {
        column_count(self.circuit)
    }

    fn role(&self, row: u32, col: u32) -> Role {
        self.has_room();
        role_on(self, row, col)
    }

    fn input_cell(&self, i: u32) -> (u32, u32) {
        self.has_room();
        (2 * self.track(net_of_input(self.circuit, i)), 0)
    }

    fn output_cell(&self, i: u32) -> (u32, u32) {
        self.has_room();
        let net = self.circuit.output(i);
        (2 * self.track(net), column_count(self.circuit) - 1)
    }

    fn feeder(&self, row: u32, col: u32, half: u8) -> Option<(u32, u32)> {
        self.has_room();
        self.is_placed();
        feeder_on(self, row, col, half)
    }

    fn rank(&self, row: u32, col: u32, half: u8) -> u64 {
        self.has_room();
        rank_on(self, row, col, half)
    }
}
