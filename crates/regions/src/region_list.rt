//! A short list of regions.

ghost use Rattle.std.specs.Prelude.{◌≡◌, ◌≤◌, ◌⊎◌, ◌↔◌, ℕ, Some, Contains, IsTrue, take};
ghost use Rattle.std.specs.List.Sorted.{IsStrictlyIncreasing};

/// Up to two regions, rising: the first `count` of the list. The others mean nothing.
#[derive(Clone, Copy, Debug, PartialEq, Eq)]
pub struct RegionList {
    pub count: u8,
    pub list: [u32; 2],
}

impl RegionList {
    /// Whether the region is one of the list.
    #[inline]
    pub fn has(&self, region: u32) -> bool
        requires { self.now.count ≤ 2 }
        ensures { IsTrue result ↔ Contains (take self.now.count self.now.list) region }
    {
        self.list[..usize::from(self.count)].contains(&region)
    }

    /// The regions that there are, each once.
    #[inline]
    pub(crate) fn of(a: Option<u32>, b: Option<u32>) -> RegionList
        ensures rising { IsStrictlyIncreasing (take result.count result.list) }
        ensures listed { (region : ℕ) → ((a ≡ Some region) ⊎ (b ≡ Some region)) ↔ Contains (take result.count result.list) region }
        ensures at_most { result.count ≤ 2 }
    {
        match a {
            None => match b {
                None => RegionList {
                    count: 0,
                    list: [0; 2],
                },
                Some(b) => RegionList::pair(b, b),
            },
            Some(a) => RegionList::pair(a, b.unwrap_or(a)),
        }
    }

    /// Two regions, or one where they are the same.
    #[inline]
    fn pair(a: u32, b: u32) -> RegionList
        ensures rising { IsStrictlyIncreasing (take result.count result.list) }
        ensures listed { (region : ℕ) → ((a ≡ region) ⊎ (b ≡ region)) ↔ Contains (take result.count result.list) region }
        ensures at_most { result.count ≤ 2 }
    {
        RegionList {
            count: if a == b { 1 } else { 2 },
            list: [a.min(b), a.max(b)],
        }
    }
}
