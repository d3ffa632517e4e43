//! Manifests.

use crate::items::Items;
use crate::text::{Setting, Text};
use lattice::Lattice;
use species::Names;
use surf_kinds::{Rule, SpeciesId};

/// Settings, in the order of the text.
pub type Settings = Items<Setting>;

/// Rules, in the order of the text.
pub type RuleList = Items<Rule>;

/// The species that stand at the sites, by the numbers of the sites.
pub type CellList = Items<SpeciesId>;

/// Lines, in the order of the text.
pub type LineList = Items<Text>;

/// A manifest.
#[derive(Drop)]
pub struct Manifest {
    /// Of the draws.
    pub seed: u64,
    /// In ticks, of which a million make a unit of time.
    pub until: u64,
    pub lattice: Lattice,
    /// The settings that the simulation does not read.
    pub others: Settings,
    /// The names of the species, by their numbers.
    pub names: Names,
    pub rules: RuleList,
    pub cells: CellList,
    /// The lines on colours, where there are any.
    pub colours: Option<LineList>,
}
