//! Texts, each once.

ghost use Rattle.std.specs.Prelude.{◌≡◌, ◌<◌, [], length, slice_get, Some, OnSome, IfSome, IfNone, OnOk, OnErr, position, true, false};

use indexmap::IndexSet;
use std::alloc::Global;
use std::marker::Model;
use surf_kinds::NoMemory;

/// A list of distinct texts, in the order in which they first came. The number of a text is its index in the list.
#[derive(Drop)]
pub struct Texts {
    texts: IndexSet<String>,
}

impl Model for Texts {
    ghost use Rattle.std.specs.Prelude.{ℕ, List, map};
    ghost use Rattle.std.specs.String.{string_bytes};

    ghost Value = { List (List ℕ) };

    ghost view = { λ t. map string_bytes t.texts.keys };
}

impl Texts {
    ghost use Rattle.std.specs.List.{IsDistinct};
    ghost use Rattle.std.specs.Str.{bytes_eq};
    ghost use Rattle.species.specs.Texts.{is_in, index_of, with_text};

    /// No texts. Takes no memory.
    pub fn new(alloc: Global) -> Texts
        ensures { result ≡ [] }
    {
        Texts {
            texts: IndexSet::new(alloc),
        }
    }

    /// How many texts there are.
    pub fn count(&self) -> usize
        ensures count { result ≡ length self.now }
        ensures distinct { IsDistinct bytes_eq self.now }
    {
        self.texts.len()
    }

    /// Whether the text is in the list.
    pub fn has(&self, text: &str) -> bool
        ensures { result ≡ is_in self.now text.now }
    {
        self.texts.contains(text)
    }

    /// The number of a text; `None` exactly where it isn't in the list.
    pub fn find(&self, text: &str) -> Option<usize>
        ensures number { result ≡ position (bytes_eq text.now) self.now }
        ensures index { IfSome result (λ i. i ≡ index_of self.now text.now) }
        ensures within { IfSome result (λ i. i < length self.now) }
        ensures some { OnSome result (is_in self.now text.now ≡ true) }
        ensures none { IfNone result (is_in self.now text.now ≡ false) }
    {
        match self.texts.get_index_of(text) {
            Some(index) => Some(index),
            None => None,
        }
    }

    /// The text that has a number.
    pub fn text(&self, index: usize) -> &str
        requires { index < length self.now }
        ensures { slice_get self.now index ≡ Some result.now }
    {
        self.texts.as_slice()[index].as_str()
    }

    /// Puts a text last, if it is new. After an error the texts are as they were.
    pub fn add(&mut self, text: &str) -> Result<(), NoMemory>
        ensures texts { OnOk result (self.new ≡ with_text self.old text.now) }
        ensures unchanged { OnErr result (self.new ≡ self.old) }
    {
        let alloc = *self.texts.allocator();
        let owned = String::from_str(alloc, text)?;
        self.texts.insert(owned)?;
        Ok(())
    }
}
