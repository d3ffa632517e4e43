//! The channels of a plan, found by what stands at the sites of a place.

ghost use Rattle.std.specs.Prelude.{◌≡◌, ◌++◌, ◌∷◌, [], OnOk, IfOk, map, length, position};

use std::alloc::Global;
use surf_kinds::{NoMemory, Rate, Rule, SpeciesId};

/// What stands at the sites of a place.
#[derive(Clone, Copy, Debug, PartialEq, Eq)]
pub(crate) struct Reactants {
    pub(crate) first: SpeciesId,
    pub(crate) second: Option<SpeciesId>,
}

/// A rule in one of its ways.
#[derive(Clone, Copy, Debug, PartialEq, Eq)]
pub(crate) struct Channel {
    pub(crate) number: u16,
    pub(crate) rate: Rate,
}

/// The channels of the places whose first site holds one species.
#[derive(Drop)]
struct Row {
    // of the site alone
    alone: Vec<Channel>,
    // the species of the second sites, rising, and the channels beside each
    seconds: Vec<u16>,
    pairs: Vec<Vec<Channel>>,
}

impl Row {
    ghost use Rattle.plan.specs.Index.{found_in_row, same_species, IsRow, IsPlaceFor};
    ghost use Rattle.surf_kinds.specs.declared.site.SpeciesId.{SpeciesId};
    ghost use Rattle.std.specs.Prelude.{◌≡◌, ◌++◌, ◌∷◌, [], OnOk, Option, Some, if◌then◌else◌};

    fn new(alloc: Global) -> Row
        ensures row { IsRow result }
        ensures none { (s : Option SpeciesId) → found_in_row result s ≡ [] }
    {
        Row {
            alone: Vec::new(alloc),
            seconds: Vec::new(alloc),
            pairs: Vec::new(alloc),
        }
    }

    /// The channels with this second species.
    #[inline]
    fn find(&self, second: Option<SpeciesId>) -> &[Channel]
        requires { IsRow self.now }
        ensures { result.now ≡ found_in_row self.now second }
    {
        match second {
            None => self.alone.as_slice(),
            Some(second) => match self.seconds.binary_search(&second.0) {
                Ok(k) => self.pairs[k].as_slice(),
                Err(_) => &[],
            },
        }
    }

    /// Puts a channel behind those with the same second species.
    fn add(
        &mut self,
        alloc: Global,
        second: Option<SpeciesId>,
        channel: Channel,
    ) -> Result<(), NoMemory>
        requires { IsRow self.old }
        ensures row { OnOk result (IsRow self.new) }
        ensures added { OnOk result ((s : Option SpeciesId) → found_in_row self.new s ≡ (if same_species s second then found_in_row self.old s ++ channel ∷ [] else found_in_row self.old s)) }
    {
        match second {
            None => {
                self.alone.push(channel)?;
                Ok(())
            }
            Some(second) => self.add_pair(alloc, second.0, channel),
        }
    }

    fn add_pair(&mut self, alloc: Global, second: u16, channel: Channel) -> Result<(), NoMemory>
        requires { IsRow self.old }
        ensures row { OnOk result (IsRow self.new) }
        ensures added { OnOk result ((s : Option SpeciesId) → found_in_row self.new s ≡ (if same_species s (Some (record { 0 = second })) then found_in_row self.old s ++ channel ∷ [] else found_in_row self.old s)) }
    {
        match self.seconds.binary_search(&second) {
            Ok(k) => {
                let list = &mut self.pairs[k];
                list.push(channel)?;
                Ok(())
            }
            Err(k) => self.add_first(alloc, k, second, channel),
        }
    }

    /// Puts the first channel with this second species, whose place among the others is `k`.
    fn add_first(
        &mut self,
        alloc: Global,
        k: usize,
        second: u16,
        channel: Channel,
    ) -> Result<(), NoMemory>
        requires row { IsRow self.old }
        requires place { IsPlaceFor self.old.seconds.items k second }
        ensures row { OnOk result (IsRow self.new) }
        ensures added { OnOk result ((s : Option SpeciesId) → found_in_row self.new s ≡ (if same_species s (Some (record { 0 = second })) then found_in_row self.old s ++ channel ∷ [] else found_in_row self.old s)) }
    {
        let mut list = Vec::new(alloc);
        list.push(channel)?;
        self.pairs.insert(k, list)?;
        self.seconds.insert(k, second)?;
        Ok(())
    }
}

/// The channels of each reactants, in the order in which they were added.
#[derive(Drop)]
pub(crate) struct Index {
    // by the number of the first species
    rows: Vec<Row>,
}

impl Index {
    ghost use Rattle.plan.specs.Channels.{channel_at};
    ghost use Rattle.plan.specs.Index.{found_in, same, AreRows};
    ghost use Rattle.plan.specs.declared.index.Reactants.{Reactants};
    ghost use Rattle.std.specs.Prelude.{◌≡◌, ◌++◌, ◌∷◌, [], ◌+◌, ◌<◌, ◌&&◌, nat_lt, OnOk, Some, length, if◌then◌else◌};

    pub(crate) fn new(alloc: Global) -> Index
        ensures rows { AreRows result }
        ensures none { (r : Reactants) → found_in result r ≡ [] }
    {
        Index {
            rows: Vec::new(alloc),
        }
    }

    /// The channels with these reactants.
    #[inline]
    pub(crate) fn find(&self, reactants: Reactants) -> &[Channel]
        requires { AreRows self.now }
        ensures { result.now ≡ found_in self.now reactants }
    {
        match self.rows.get(usize::from(reactants.first.0)) {
            Some(row) => row.find(reactants.second),
            None => &[],
        }
    }

    /// Makes rows up to that of a species.
    fn grow(&mut self, alloc: Global, first: SpeciesId) -> Result<(), NoMemory>
        requires { AreRows self.old }
        ensures rows { OnOk result (AreRows self.new) }
        ensures long { OnOk result (first.0 < length self.new.rows.items) }
        ensures found { OnOk result ((r : Reactants) → found_in self.new r ≡ found_in self.old r) }
    {
        while self.rows.len() <= usize::from(first.0) {
            self.rows.push(Row::new(alloc))?;
        }
        Ok(())
    }

    /// Puts a channel behind those with the same reactants.
    fn add(&mut self, alloc: Global, reactants: Reactants, channel: Channel) -> Result<(), NoMemory>
        requires { AreRows self.old }
        ensures rows { OnOk result (AreRows self.new) }
        ensures added { OnOk result ((r : Reactants) → found_in self.new r ≡ (if same r reactants then found_in self.old r ++ channel ∷ [] else found_in self.old r)) }
    {
        self.grow(alloc, reactants.first)?;
        let row = &mut self.rows[usize::from(reactants.first.0)];
        row.add(alloc, reactants.second, channel)
    }

    /// Puts the channels of a rule last, whose way 0 has this number.
    pub(crate) fn add_rule(
        &mut self,
        alloc: Global,
        number: u16,
        rule: Rule,
    ) -> Result<(), NoMemory>
        requires rows { AreRows self.old }
        requires number { number < 8191 }
        ensures rows { OnOk result (AreRows self.new) }
        ensures added { OnOk result ((r : Reactants) → found_in self.new r ≡ (found_in self.old r ++ channel_at r number 0 (Some rule)) ++ channel_at r (number + 1) 1 (Some rule)) }
    {
        match rule {
            Rule::One { rate, a, c: _ } => self.add_positive(
                alloc,
                Reactants {
                    first: a,
                    second: None,
                },
                Channel { number, rate },
            ),
            Rule::Two { rate, a, b, c, d } => {
                self.add_positive(
                    alloc,
                    Reactants {
                        first: a,
                        second: Some(b),
                    },
                    Channel { number, rate },
                )?;
                if a == b && c == d {
                    return Ok(());
                }
                self.add_positive(
                    alloc,
                    Reactants {
                        first: b,
                        second: Some(a),
                    },
                    Channel {
                        number: number + 1,
                        rate,
                    },
                )
            }
        }
    }

    /// Puts a channel last, where its rate is above 0.
    fn add_positive(
        &mut self,
        alloc: Global,
        reactants: Reactants,
        channel: Channel,
    ) -> Result<(), NoMemory>
        requires { AreRows self.old }
        ensures rows { OnOk result (AreRows self.new) }
        ensures added { OnOk result ((r : Reactants) → found_in self.new r ≡ (if nat_lt 0 channel.rate.p && same r reactants then found_in self.old r ++ channel ∷ [] else found_in self.old r)) }
    {
        if channel.rate.p == 0 {
            return Ok(());
        }
        self.add(alloc, reactants, channel)
    }
}
