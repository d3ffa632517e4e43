//! Names of nets and their numbers.

ghost use Rattle.std.specs.Prelude.{◌≡◌, ◌<◌, ◌≤◌, ◌∷◌, ◌++◌, [], length, IfSome, OnSome, IfNone, OnOk, true, false};

use indexmap::IndexSet;
use std::alloc::Global;
use std::marker::Model;
use surf_kinds::NoMemory;

/// A list of distinct names, which are parts of a text. The number of a name is its index in the list.
#[derive(Drop)]
pub(crate) struct NameTable<'a> {
    names: IndexSet<&'a [u8]>,
}

impl<'a> Model for NameTable<'a> {
    ghost use Rattle.std.specs.Prelude.{ℕ, List, map};

    ghost Value = { List (List ℕ) };

    ghost view = { λ t. map (λ k. k.now) t.names.keys };
}

impl<'a> NameTable<'a> {
    ghost use Rattle.species.specs.Texts.{is_in, index_of};

    /// No names. Takes no memory.
    pub(crate) fn new(alloc: Global) -> NameTable<'a>
        ensures { result ≡ [] }
    {
        NameTable {
            names: IndexSet::new(alloc),
        }
    }

    /// Whether the name is in the list.
    pub(crate) fn has(&self, name: &[u8]) -> bool
        ensures { result ≡ is_in self.now name.now }
    {
        self.names.contains(name)
    }

    /// The number of a name; `None` exactly where it isn't in the list.
    pub(crate) fn find(&self, name: &[u8]) -> Option<usize>
        ensures index { IfSome result (λ i. i ≡ index_of self.now name.now) }
        ensures within { IfSome result (λ i. i < length self.now) }
        ensures some { OnSome result (is_in self.now name.now ≡ true) }
        ensures none { IfNone result (is_in self.now name.now ≡ false) }
    {
        match self.names.get_index_of(name) {
            Some(index) => Some(index),
            None => None,
        }
    }

    /// The number of a name that is in the list.
    pub(crate) fn number(&self, name: &[u8]) -> u32
        requires few { length self.now ≤ 65536 }
        requires known { is_in self.now name.now ≡ true }
        ensures number { result ≡ index_of self.now name.now }
        ensures within { result < length self.now }
    {
        match self.find(name) {
            Some(index) => index as u32,
            None => unreachable!(),
        }
    }

    /// Puts a new name last.
    pub(crate) fn add(&mut self, name: &'a [u8]) -> Result<(), NoMemory>
        requires { is_in self.old name.now ≡ false }
        ensures { OnOk result (self.new ≡ self.old ++ name.now ∷ []) }
    {
        self.names.insert(name)?;
        Ok(())
    }
}
