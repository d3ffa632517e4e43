//! A list of entries, and the first of them by key.
//!
//! The nodes of a tree stand in one list, the inner ones first and then the entries. Each inner node has the entry
//! of one of its eight children that none of the others precedes, so the root has the first of all. A new entry is
//! compared only with the nodes above it, and with its siblings where it was the first of them.

ghost use Rattle.std.specs.Prelude.{◌≡◌, ℕ, ◌+◌, ◌*◌, ◌^◌, ◌<◌, ◌≤◌, ◌⊎◌, length, replicate, slice_set, IfOk, vec_len, vec_capacity, false};
ghost use Rattle.event_queue.specs.Tournament.{IsTournament, IsTournamentBut, IsWinner, entry_at, nothing, parent, precedes};

use crate::entry::{Entry, NOTHING};
use std::alloc::Global;
use std::marker::Model;
use surf_kinds::NoMemory;

/// The position of the root. The nodes before it are unused, so that eight siblings fill two cache lines.
const ROOT: usize = 6;

/// Entries by number, and the first of them by key.
#[derive(Drop)]
pub(crate) struct Tournament {
    // made with the first entry that is set, in memory that is reserved before
    nodes: Vec<Entry>,
    // where the inner nodes end and the entries begin
    inner_end: usize,
    count: usize,
}

impl Model for Tournament {
    ghost use Rattle.event_queue.specs.Tournament.{IsSound, leaves};
    ghost use Rattle.event_queue.specs.declared.entry.Entry.{Entry};
    ghost use Rattle.std.specs.Prelude.{List, vec_capacity};

    ghost Value = { List Entry };

    ghost view = { λ t. leaves t.nodes.items t.inner_end t.count };

    ghost invariant = { λ t. IsSound t.nodes.items (vec_capacity t.nodes) t.inner_end t.count };
}

/// The first of the eight nodes below a node `p`, which are the nodes `j` with `(j + 41) / 8 == p`.
#[inline]
fn first_below(node: usize) -> usize
    requires root { 6 ≤ node }
    requires few { 8 * node < 2 ^ 64 }
    ensures { result + 41 ≡ 8 * node }
{
    node * 8 - 41
}

/// Makes the nodes that aren't there, each with no entry.
fn make(nodes: &mut Vec<Entry>, end: usize)
    requires least { vec_len nodes.old ≤ end }
    requires room { end ≤ vec_capacity nodes.old }
    ensures len { vec_len nodes.new ≡ end }
    ensures same { (j : ℕ) → entry_at nodes.new.items j ≡ entry_at nodes.old.items j }
    ensures capacity { vec_capacity nodes.new ≡ vec_capacity nodes.old }
{
    for _made in nodes.len()..end {
        nodes.push_reserved(NOTHING);
    }
}

/// The position of the lesser of two entries.
#[inline]
fn lesser(nodes: &[Entry], i: usize, j: usize) -> usize
    requires i_within { i < length nodes.now }
    requires j_within { j < length nodes.now }
    ensures one { (result ≡ i) ⊎ (result ≡ j) }
    ensures not_i { precedes (entry_at nodes.now i) (entry_at nodes.now result) ≡ false }
    ensures not_j { precedes (entry_at nodes.now j) (entry_at nodes.now result) ≡ false }
{
    if nodes[j].is_before(nodes[i]) { j } else { i }
}

/// The position of the first of four entries.
#[inline]
fn first_of_four(nodes: &[Entry], start: usize) -> usize
    requires within { start + 4 ≤ length nodes.now }
    ensures from { start ≤ result }
    ensures to { result < start + 4 }
    ensures first { (k : ℕ) → start ≤ k → k < start + 4 → precedes (entry_at nodes.now k) (entry_at nodes.now result) ≡ false }
{
    let low = lesser(nodes, start, start + 1);
    let high = lesser(nodes, start + 2, start + 3);
    lesser(nodes, low, high)
}

/// The position of the first of eight entries.
#[inline]
fn first_of_eight(nodes: &[Entry], start: usize) -> usize
    requires within { start + 8 ≤ length nodes.now }
    ensures from { start ≤ result }
    ensures to { result < start + 8 }
    ensures first { (k : ℕ) → start ≤ k → k < start + 8 → precedes (entry_at nodes.now k) (entry_at nodes.now result) ≡ false }
{
    let low = first_of_four(nodes, start);
    let high = first_of_four(nodes, start + 4);
    lesser(nodes, low, high)
}

/// Brings the nodes above `from` into order, after an entry was written there in the place of another.
fn rise(nodes: &mut [Entry], from: usize, was: Entry, entry: Entry)
    requires full { length nodes.old + 41 ≡ 8 * parent (length nodes.old) }
    requires few { length nodes.old + 41 < 2 ^ 64 }
    requires root { 6 ≤ from }
    requires within { from < length nodes.old }
    requires written { entry_at nodes.old from ≡ entry }
    requires ordered { IsTournamentBut nodes.old (parent (length nodes.old)) from was }
    ensures ordered { IsTournament nodes.new (parent (length nodes.old)) }
    ensures leaves { (j : ℕ) → parent (length nodes.old) ≤ j → entry_at nodes.new j ≡ entry_at nodes.old j }
{
    let mut at = from;
    let mut old = was;
    let mut new = entry;
    while at > ROOT {
        let up = (at + 41) / 8;
        let over = nodes[up];
        if !new.is_before(over) {
            // another child's entry, which is still the first
            if over.offset != old.offset {
                return;
            }
            new = nodes[first_of_eight(nodes, first_below(up))];
        }
        nodes[up] = new;
        old = over;
        at = up;
    }
}

impl Tournament {
    /// A list of `count` entries, each of them nothing. Takes all memory that the other calls need, and touches none.
    pub(crate) fn new(alloc: Global, count: usize) -> Result<Tournament, NoMemory>
        requires { count ≤ 2 ^ 32 }
        ensures { IfOk result (λ t. t ≡ replicate count nothing) }
    {
        // one node is an entry's, and each inner node adds seven
        let inner_end = ROOT + (count + 5) / 7;
        let nodes = Vec::with_capacity(alloc, first_below(inner_end))?;
        Ok(Tournament {
            nodes,
            inner_end,
            count,
        })
    }

    /// Writes an entry. Takes a time that goes with the logarithm of the number of entries.
    pub(crate) fn set(&mut self, number: usize, entry: Entry)
        requires { number < length self.old }
        ensures { self.new ≡ slice_set self.old number entry }
    {
        let old = self.get(number);
        // so that no node is made for an entry that is nothing
        if old == entry {
            return;
        }
        make(&mut self.nodes, first_below(self.inner_end));
        let at = self.inner_end + number;
        self.nodes[at] = entry;
        rise(&mut self.nodes, at, old, entry);
    }

    /// The entry with a number.
    #[inline]
    pub(crate) fn get(&self, number: usize) -> Entry
        requires { number < length self.now }
        ensures { result ≡ entry_at self.now number }
    {
        let at = self.inner_end + number;
        if at < self.nodes.len() {
            self.nodes[at]
        } else {
            NOTHING
        }
    }

    /// The first of the entries by key, or nothing.
    #[inline]
    pub(crate) fn winner(&self) -> Entry
        ensures { IsWinner self.now result }
    {
        if ROOT < self.nodes.len() {
            self.nodes[ROOT]
        } else {
            NOTHING
        }
    }
}
