//! Where nets run.

ghost use Rattle.std.specs.Prelude.{◌≡◌, ◌<◌, ◌^◌, length, IfSome};
ghost use Rattle.circuit_text.specs.Circuits.{NetList};
ghost use Rattle.gate_layout.specs.Placed.{Placement as Placing, col_count};

use circuit_text::Circuit;

/// How the nets of a circuit are put on tracks, which are the rows along which they run. Nets whose runs don't meet may
/// share one.
pub trait Placement {
    ghost placing: { Self → Placing };

    ghost net_list: { Self → NetList };

    fn circuit(&self) -> &Circuit
        ensures { result.now ≡ net_list self.now };

    /// How many tracks there are, no more than a table of 2^20 cells has.
    fn tracks(&self) -> u32
        ensures count { result ≡ (placing self.now).tracks }
        ensures few { result < 2 ^ 19 }
        ensures some { 0 < length (net_list self.now).nets → 0 < (placing self.now).tracks };

    /// The track of a net.
    fn track(&self, net: u32) -> u32
        requires { net < length (net_list self.now).nets }
        ensures track { result ≡ (placing self.now).track net }
        ensures within { result < (placing self.now).tracks };

    /// The net that runs at a column of a track, where one does.
    fn runs(&self, track: u32, col: u32) -> Option<u32>
        requires track { track < (placing self.now).tracks }
        requires col { col < col_count (net_list self.now).nets }
        ensures net { result ≡ (placing self.now).runs track col }
        ensures within { IfSome result (λ net. net < length (net_list self.now).nets) };
}
