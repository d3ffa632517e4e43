//! Items in the order in which they are placed.

ghost use Rattle.std.specs.Prelude.{◌≡◌, ◌<◌, ◌≤◌, ◌^◌, ◌∷◌, ◌++◌, [], length, OnOk, IfOk, IfSome, IfNone, true, false};
ghost use Rattle.bench_read.specs.Order.{is_placed, place_of, first_unplaced};

use std::alloc::Global;
use std::marker::Model;
use surf_kinds::NoMemory;

const NOWHERE: u32 = u32::MAX;

/// So many items, and those of them that are placed. The place of an item is its index among these.
#[derive(Drop)]
pub(crate) struct Order {
    /// The place of each item that is placed, `NOWHERE` for each other.
    places: Vec<u32>,
    placed: Vec<u32>,
}

impl Model for Order {
    ghost use Rattle.std.specs.Prelude.{◌≤◌, length};
    ghost use Rattle.bench_read.specs.Placing.{OrderView, AreLocated};

    ghost Value = { OrderView };

    ghost view = { λ o. record { count = length o.places.items; placed = o.placed.items } };

    ghost invariant = { λ o. (length o.places.items ≤ 65536) × AreLocated o.placed.items o.places.items };
}

impl Order {
    /// So many items, none of them placed.
    pub(crate) fn new(alloc: Global, count: usize) -> Result<Order, NoMemory>
        requires { count ≤ 65536 }
        ensures { IfOk result (λ o. o ≡ record { count = count; placed = [] }) }
    {
        let places = vec![in alloc; NOWHERE; count]?;
        Ok(Order {
            places,
            placed: Vec::new(alloc),
        })
    }

    /// Whether an item is placed.
    pub(crate) fn has(&self, item: u32) -> bool
        requires { item < self.now.count }
        ensures { result ≡ is_placed self.now.placed item }
    {
        self.places[item as usize] != NOWHERE
    }

    /// Places an item next.
    pub(crate) fn push(&mut self, item: u32) -> Result<(), NoMemory>
        requires item { item < self.old.count }
        requires unplaced { is_placed self.old.placed item ≡ false }
        requires room { length self.old.placed < 131072 }
        ensures { OnOk result (self.new ≡ record { count = self.old.count; placed = self.old.placed ++ item ∷ [] }) }
    {
        let place = self.placed.len() as u32;
        self.placed.push(item)?;
        self.places[item as usize] = place;
        Ok(())
    }

    /// The place of an item that is placed.
    pub(crate) fn place(&self, item: u32) -> u32
        requires item { item < self.now.count }
        requires placed { is_placed self.now.placed item ≡ true }
        ensures place { result ≡ place_of self.now.placed item }
    {
        self.places[item as usize]
    }

    /// The items that are placed, in their order.
    pub(crate) fn placed(&self) -> &[u32]
        ensures { result.now ≡ self.now.placed }
    {
        &self.placed
    }

    /// The first item that isn't placed.
    pub(crate) fn first_unplaced(&self) -> Option<usize>
        ensures some { IfSome result (λ d. d ≡ first_unplaced self.now.count self.now.placed) }
        ensures within { IfSome result (λ d. d < self.now.count) }
        ensures none { IfNone result (first_unplaced self.now.count self.now.placed ≡ self.now.count) }
    {
        for (item, place) in self.places.iter().enumerate() {
            if *place == NOWHERE {
                return Some(item);
            }
        }
        None
    }
}
