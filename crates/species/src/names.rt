//! Names with their numbers.

ghost use Rattle.std.specs.Prelude.{◌≡◌, ◌<◌, ◌≤◌, ◌↔◌, [], length, slice_get, Some, Err, IfOk, IsNone, OnOk, OnErr, true, false};

use crate::texts::Texts;
use std::alloc::Global;
use std::marker::Model;
use surf_kinds::{NoMemory, SpeciesId};

/// Why a name got no number.
#[derive(Clone, Copy, Debug, PartialEq, Eq)]
pub enum NameError {
    /// There are as many names already as can be numbered.
    TooMany,
    /// Memory ran out.
    Memory,
}

impl From<NoMemory> for NameError {
    ghost use Rattle.species.specs.declared.names.NameError.TheVariants as error;

    ghost from_gives = { λ _ e. e ≡ error.Memory };

    fn from(_error: NoMemory) -> NameError {
        NameError::Memory
    }
}

const MOST_NAMES: usize = 4096;

/// The names, each once, in the order in which they first came: a list of at most 4,096 distinct texts. The
/// number of a name is its index in that list.
#[derive(Drop)]
pub struct Names {
    texts: Texts,
}

impl Model for Names {
    ghost use Rattle.std.specs.Prelude.{ℕ, List, ◌≤◌, length};

    ghost Value = { List (List ℕ) };

    ghost view = { λ n. n.texts };

    ghost invariant = { λ n. length n.texts ≤ 4096 };
}

impl Names {
    ghost use Rattle.std.specs.Str.{bytes_eq};
    ghost use Rattle.std.specs.List.{IsDistinct};
    ghost use Rattle.species.specs.Names.{with_name, number_of, place_of, is_full};
    ghost use Rattle.species.specs.declared.names.NameError.TheVariants.{TooMany};

    /// No names. Takes no memory.
    pub fn new(alloc: Global) -> Names
        ensures { result ≡ [] }
    {
        Names {
            texts: Texts::new(alloc),
        }
    }

    /// How many names there are.
    pub fn count(&self) -> u32
        ensures count { result ≡ length self.now }
        ensures at_most { result ≤ 4096 }
        ensures distinct { IsDistinct bytes_eq self.now }
    {
        self.texts.count() as u32
    }

    /// The number of a name; `None` exactly where it isn't in the list.
    pub fn find(&self, name: &str) -> Option<SpeciesId>
        ensures { result ≡ number_of self.now name.now }
    {
        match self.texts.find(name) {
            Some(index) => Some(SpeciesId(index as u16)),
            None => None,
        }
    }

    /// The name that has a number.
    pub fn name(&self, id: SpeciesId) -> &str
        requires { id.0 < length self.now }
        ensures { slice_get self.now id.0 ≡ Some result.now }
    {
        self.texts.text(id.0 as usize)
    }

    /// The number of a name, which goes last if it is new. After an error the names are as they were. `Memory`
    /// too comes only for a new name.
    pub fn intern(&mut self, name: &str) -> Result<SpeciesId, NameError>
        ensures id { IfOk result (λ id. number_of self.new name.now ≡ Some id) }
        ensures names { OnOk result (self.new ≡ with_name self.old name.now) }
        ensures unchanged { OnErr result (self.new ≡ self.old) }
        ensures new_name { OnErr result (IsNone (number_of self.old name.now)) }
        ensures too_many { (result ≡ Err TooMany) ↔ ((length self.old ≡ 4096) × IsNone (number_of self.old name.now)) }

        // the same by definitions that compute
        ensures place { IfOk result (λ id. id ≡ place_of self.new name.now) }
        ensures room { OnOk result (is_full self.old name.now ≡ false) }
        ensures full { result ≡ Err TooMany → is_full self.old name.now ≡ true }
    {
        if let Some(id) = self.find(name) {
            return Ok(id);
        }
        let index = self.texts.count();
        if index == MOST_NAMES {
            return Err(NameError::TooMany);
        }
        self.texts.add(name)?;
        Ok(SpeciesId(index as u16))
    }
}
