//! Items placed one after the other, each behind its operands.

ghost use Rattle.std.specs.Prelude.{◌≡◌, ◌<◌, ◌≤◌, ◌⊎◌, ◌∷◌, ◌++◌, ℕ, [], length, map, get_or, OnOk, IfOk, IfSome, IfNone, true, false, if◌then◌else◌};
ghost use Rattle.std.specs.List.{All, Contains, list_all};
ghost use Rattle.bench_read.specs.Order.{item_at, is_input, inputs_of, is_placed, is_ready, next_of, order_of};
ghost use Rattle.bench_read.specs.Placing.{AreWithin, AreUsers, Covers};
ghost use Rattle.bench_read.specs.Readings.{item_of, lists_of};

use crate::order::Order;
use crate::ready::Ready;
use crate::second::Item;
use crate::users::users_of;
use std::alloc::Global;
use surf_kinds::NoMemory;

/// Whether each operand is placed.
fn are_placed(order: &Order, operands: &[u32]) -> bool
    requires { All (λ y. y < order.now.count) operands.now }
    ensures { result ≡ list_all (is_placed order.now.placed) operands.now }
{
    for operand in operands {
        if !order.has(*operand) {
            return false;
        }
    }
    true
}

/// Whether an item is a gate that isn't placed and whose operands are.
fn is_ready(items: &[Item], order: &Order, number: u32) -> bool
    requires within { AreWithin (map item_of items.now) }
    requires count { order.now.count ≡ length items.now }
    requires number { number < length items.now }
    ensures { result ≡ is_ready (map item_of items.now) order.now.placed number }
{
    match &items[number as usize] {
        Item::Input => false,
        Item::Gate { operands, .. } => !order.has(number) && are_placed(order, operands),
    }
}

/// Takes an item in, if it is ready.
fn offer(items: &[Item], order: &Order, ready: &mut Ready, number: u32) -> Result<(), NoMemory>
    requires within { AreWithin (map item_of items.now) }
    requires count { order.now.count ≡ length items.now }
    requires number { number < length items.now }
    requires bound { All (λ d. d < length items.now) ready.old }
    ensures offered { OnOk result (is_ready (map item_of items.now) order.now.placed number ≡ true → Contains ready.new number) }
    ensures kept { OnOk result ((d : ℕ) → Contains ready.old d → Contains ready.new d) }
    ensures bound { OnOk result (All (λ d. d < length items.now) ready.new) }
{
    if !is_ready(items, order, number) {
        return Ok(());
    }
    match ready.push(number) {
        Ok(()) => Ok(()),
        Err(error) => Err(error),
    }
}

/// Takes in those of the items that are ready.
fn offer_each(
    items: &[Item],
    order: &Order,
    ready: &mut Ready,
    numbers: &[u32],
) -> Result<(), NoMemory>
    requires within { AreWithin (map item_of items.now) }
    requires count { order.now.count ≡ length items.now }
    requires numbers { All (λ d. d < length items.now) numbers.now }
    requires bound { All (λ d. d < length items.now) ready.old }
    ensures offered { OnOk result ((d : ℕ) → Contains numbers.now d → is_ready (map item_of items.now) order.now.placed d ≡ true → Contains ready.new d) }
    ensures kept { OnOk result ((d : ℕ) → Contains ready.old d → Contains ready.new d) }
    ensures bound { OnOk result (All (λ d. d < length items.now) ready.new) }
{
    for number in numbers {
        offer(items, order, ready, *number)?;
    }
    Ok(())
}

/// The first gate that is ready.
fn next_ready(items: &[Item], order: &Order, ready: &mut Ready) -> Option<u32>
    requires within { AreWithin (map item_of items.now) }
    requires count { order.now.count ≡ length items.now }
    requires bound { All (λ d. d < length items.now) ready.old }
    requires covers { Covers (map item_of items.now) order.now.placed ready.old }
    ensures none { IfNone result (next_of (map item_of items.now) order.now.placed ≡ length items.now) }
    ensures some { IfSome result (λ d. next_of (map item_of items.now) order.now.placed ≡ d) }
    ensures within { IfSome result (λ d. d < length items.now) }
    ensures is_ready { IfSome result (λ d. is_ready (map item_of items.now) order.now.placed d ≡ true) }
    ensures left { IfSome result (λ d. (e : ℕ) → e < length items.now → is_ready (map item_of items.now) order.now.placed e ≡ true → (e ≡ d) ⊎ Contains ready.new e) }
    ensures bound { All (λ d. d < length items.now) ready.new }
{
    while let Some(number) = ready.pop() {
        if is_ready(items, order, number) {
            return Some(number);
        }
    }
    None
}

/// Places an item next, if it is an input.
fn place_input(order: &mut Order, item: &Item, number: u32) -> Result<(), NoMemory>
    requires item { number < order.old.count }
    requires unplaced { is_placed order.old.placed number ≡ false }
    requires room { length order.old.placed < 131072 }
    ensures { OnOk result (order.new ≡ record {
      count = order.old.count;
      placed = order.old.placed ++ (if is_input (item_of item.now) then number ∷ [] else []);
    }) }
{
    match item {
        Item::Input => match order.push(number) {
            Ok(()) => Ok(()),
            Err(error) => Err(error),
        },
        Item::Gate { .. } => Ok(()),
    }
}

/// The inputs, placed in their order.
fn place_inputs(alloc: Global, items: &[Item]) -> Result<Order, NoMemory>
    requires few { length items.now ≤ 65536 }
    ensures { IfOk result (λ o. o ≡ record { count = length items.now; placed = inputs_of (map item_of items.now) }) }
{
    let mut order = Order::new(alloc, items.len())?;
    for (number, item) in items.iter().enumerate() {
        place_input(&mut order, item, number as u32)?;
    }
    Ok(order)
}

/// The gates that are ready.
fn all_ready(alloc: Global, items: &[Item], order: &Order) -> Result<Ready, NoMemory>
    requires within { AreWithin (map item_of items.now) }
    requires count { order.now.count ≡ length items.now }
    requires few { length items.now ≤ 65536 }
    ensures covers { IfOk result (λ r. Covers (map item_of items.now) order.now.placed r) }
    ensures bound { IfOk result (λ r. All (λ d. d < length items.now) r) }
{
    let mut ready = Ready::new(alloc);
    for number in 0..items.len() as u32 {
        offer(items, order, &mut ready, number)?;
    }
    Ok(ready)
}

/// Places a gate that is ready.
fn place(
    items: &[Item],
    users: &[Vec<u32>],
    order: &mut Order,
    ready: &mut Ready,
    number: u32,
) -> Result<(), NoMemory>
    requires within { AreWithin (map item_of items.now) }
    requires users { AreUsers (map item_of items.now) (lists_of users.now) }
    requires count { order.old.count ≡ length items.now }
    requires few { length order.old.placed < 131072 }
    requires number { number < length items.now }
    requires is_ready { is_ready (map item_of items.now) order.old.placed number ≡ true }
    requires bound { All (λ d. d < length items.now) ready.old }
    requires left { (e : ℕ) → e < length items.now → is_ready (map item_of items.now) order.old.placed e ≡ true → (e ≡ number) ⊎ Contains ready.old e }
    ensures placed { OnOk result (order.new ≡ record { count = order.old.count; placed = order.old.placed ++ number ∷ [] }) }
    ensures covers { OnOk result (Covers (map item_of items.now) (order.old.placed ++ number ∷ []) ready.new) }
    ensures bound { OnOk result (All (λ d. d < length items.now) ready.new) }
{
    order.push(number)?;
    match offer_each(items, order, ready, &users[number as usize]) {
        Ok(()) => Ok(()),
        Err(error) => Err(error),
    }
}

/// Items in the order in which they are placed, of which the first are the inputs.
#[derive(Drop)]
pub(crate) struct Placement {
    pub(crate) order: Order,
    pub(crate) inputs: usize,
}

/// Places the gates that can be placed, after the inputs.
fn place_gates(alloc: Global, items: &[Item], inputs: Order) -> Result<Order, NoMemory>
    requires within { AreWithin (map item_of items.now) }
    requires few { length items.now ≤ 65536 }
    requires inputs { inputs ≡ record { count = length items.now; placed = inputs_of (map item_of items.now) } }
    ensures { IfOk result (λ o. o ≡ record { count = length items.now; placed = order_of (map item_of items.now) }) }
{
    let users = users_of(alloc, items)?;
    let mut order = inputs;
    let mut ready = all_ready(alloc, items, &order)?;
    for _ in 0..items.len() {
        let Some(number) = next_ready(items, &order, &mut ready) else {
            return Ok(order);
        };
        place(items, &users, &mut order, &mut ready, number)?;
    }
    Ok(order)
}

/// All inputs and gates that can be placed, in the order in which they are.
pub(crate) fn place_all(alloc: Global, items: &[Item]) -> Result<Placement, NoMemory>
    requires within { AreWithin (map item_of items.now) }
    requires few { length items.now ≤ 65536 }
    ensures order { IfOk result (λ p. p.order ≡ record { count = length items.now; placed = order_of (map item_of items.now) }) }
    ensures inputs { IfOk result (λ p. p.inputs ≡ length (inputs_of (map item_of items.now))) }
{
    let order = place_inputs(alloc, items)?;
    let inputs = order.placed().len();
    let order = place_gates(alloc, items, order)?;
    Ok(Placement { order, inputs })
}
