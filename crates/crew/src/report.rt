//! What the regions of a crew did, counted together.

ghost use Rattle.std.specs.Prelude.{◌≡◌, ◌==◌, ◌-◌, if◌then◌else◌};
ghost use Rattle.region_run.specs.Sides.{raised};
ghost use Rattle.crew.specs.Reports.{added_in_all, cut_in_all, forgotten_in_all, fired_in_all};

use region_run::Region;

/// Entries of all regions: how many were added and cut, and how many received ones forgotten. Each stops at 2^64 - 1.
#[derive(Clone, Copy)]
pub(crate) struct Sums {
    pub(crate) added: u64,
    pub(crate) cut: u64,
    pub(crate) forgotten: u64,
}

impl Sums {
    /// The sums over the regions.
    pub(crate) fn of(regions: &[Region]) -> Sums
        ensures added { result.added ≡ added_in_all regions.now }
        ensures cut { result.cut ≡ cut_in_all regions.now }
        ensures forgotten { result.forgotten ≡ forgotten_in_all regions.now }
    {
        let mut sums = Sums {
            added: 0,
            cut: 0,
            forgotten: 0,
        };
        let mut i = regions.len();
        while i > 0 {
            i -= 1;
            sums = sums.with(&regions[i]);
        }
        sums
    }

    /// With a region.
    fn with(self, region: &Region) -> Sums
        ensures { result ≡ record { added = raised self.added region.now.totals.added; cut = raised self.cut region.now.totals.cut; forgotten = raised self.forgotten region.now.totals.forgotten } }
    {
        let totals = region.totals();
        Sums {
            added: self.added.saturating_add(totals.added),
            cut: self.cut.saturating_add(totals.cut),
            forgotten: self.forgotten.saturating_add(totals.forgotten),
        }
    }

    /// The entries that were added, less the received ones that were forgotten.
    pub(crate) fn fired(self) -> u64
        ensures { result ≡ (if self.added == 18446744073709551615 then 18446744073709551615 else self.added - self.forgotten) }
    {
        if self.added == u64::MAX {
            u64::MAX
        } else {
            self.added.saturating_sub(self.forgotten)
        }
    }
}
