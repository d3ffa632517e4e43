//! The gates that each net is an operand of.

ghost use Rattle.std.specs.Prelude.{◌≡◌, ◌<◌, ◌≤◌, ℕ, [], length, map, get_or, vec_len, OnOk, IfOk};
ghost use Rattle.std.specs.List.{All, Contains};
ghost use Rattle.bench_read.specs.Order.{operands_at};
ghost use Rattle.bench_read.specs.Placing.{AreWithin, AreUsers};
ghost use Rattle.bench_read.specs.Readings.{item_of, lists_of};

use crate::second::Item;
use std::alloc::Global;
use surf_kinds::NoMemory;

/// A gate more that a net is an operand of.
fn add_user(users: &mut Vec<Vec<u32>>, operand: u32, item: u32) -> Result<(), NoMemory>
    requires operand { operand < vec_len users.old }
    ensures count { length (lists_of users.new.items) ≡ length (lists_of users.old.items) }
    ensures added { OnOk result (Contains (get_or (lists_of users.new.items) operand []) item) }
    ensures kept { OnOk result ((y d : ℕ) → Contains (get_or (lists_of users.old.items) y []) d → Contains (get_or (lists_of users.new.items) y []) d) }
    ensures only { OnOk result ((bound : ℕ) → item < bound → ((y : ℕ) → All (λ d. d < bound) (get_or (lists_of users.old.items) y [])) → (y : ℕ) → All (λ d. d < bound) (get_or (lists_of users.new.items) y [])) }
{
    users[operand as usize].push(item)?;
    Ok(())
}

/// A gate more, which has these operands.
fn add_gate(users: &mut Vec<Vec<u32>>, operands: &[u32], item: u32) -> Result<(), NoMemory>
    requires operands { All (λ y. y < length (lists_of users.old.items)) operands.now }
    ensures count { OnOk result (length (lists_of users.new.items) ≡ length (lists_of users.old.items)) }
    ensures added { OnOk result ((y : ℕ) → Contains operands.now y → Contains (get_or (lists_of users.new.items) y []) item) }
    ensures kept { OnOk result ((y d : ℕ) → Contains (get_or (lists_of users.old.items) y []) d → Contains (get_or (lists_of users.new.items) y []) d) }
    ensures only { OnOk result ((bound : ℕ) → item < bound → ((y : ℕ) → All (λ d. d < bound) (get_or (lists_of users.old.items) y [])) → (y : ℕ) → All (λ d. d < bound) (get_or (lists_of users.new.items) y [])) }
{
    for operand in operands {
        add_user(users, *operand, item)?;
    }
    Ok(())
}

/// An item more.
fn add_item(users: &mut Vec<Vec<u32>>, item: &Item, number: u32) -> Result<(), NoMemory>
    requires operands { All (λ y. y < length (lists_of users.old.items)) (operands_at (item_of item.now)) }
    ensures count { OnOk result (length (lists_of users.new.items) ≡ length (lists_of users.old.items)) }
    ensures added { OnOk result ((y : ℕ) → Contains (operands_at (item_of item.now)) y → Contains (get_or (lists_of users.new.items) y []) number) }
    ensures kept { OnOk result ((y d : ℕ) → Contains (get_or (lists_of users.old.items) y []) d → Contains (get_or (lists_of users.new.items) y []) d) }
    ensures only { OnOk result ((bound : ℕ) → number < bound → ((y : ℕ) → All (λ d. d < bound) (get_or (lists_of users.old.items) y [])) → (y : ℕ) → All (λ d. d < bound) (get_or (lists_of users.new.items) y [])) }
{
    match item {
        Item::Input => Ok(()),
        Item::Gate { operands, .. } => match add_gate(users, operands, number) {
            Ok(()) => Ok(()),
            Err(error) => Err(error),
        },
    }
}

/// A list for each item.
fn empty_lists(alloc: Global, count: usize) -> Result<Vec<Vec<u32>>, NoMemory>
    ensures count { IfOk result (λ v. length (lists_of v.items) ≡ count) }
    ensures empty { IfOk result (λ v. (y : ℕ) → get_or (lists_of v.items) y [] ≡ []) }
{
    let mut lists = Vec::new(alloc);
    for _ in 0..count {
        lists.push(Vec::new(alloc))?;
    }
    Ok(lists)
}

/// The gates that each item is an operand of.
pub(crate) fn users_of(alloc: Global, items: &[Item]) -> Result<Vec<Vec<u32>>, NoMemory>
    requires within { AreWithin (map item_of items.now) }
    requires few { length items.now ≤ 65536 }
    ensures { IfOk result (λ v. AreUsers (map item_of items.now) (lists_of v.items)) }
{
    let mut users = empty_lists(alloc, items.len())?;
    for (number, item) in items.iter().enumerate() {
        add_item(&mut users, item, number as u32)?;
    }
    Ok(users)
}
