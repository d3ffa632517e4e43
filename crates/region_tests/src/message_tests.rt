//! Messages that are lawful and such that are not.

use crate::walk::{A, B, Walk, event, key, pair_rules};
use border::Op;
use lattice::{Kind, Lattice};
use std::alloc::Global;
use std::test::Fail;
use surf_kinds::NoMemory;

/// Region 1 of two rows of one site, A and B, with A + B -> C + D on a pair and B -> E.
fn second_of_two(alloc: Global) -> Result<Walk, Fail> {
    let lattice = Lattice::new(Kind::Square, 2, 1, false)?;
    let walk = Walk::new(alloc, &pair_rules(), lattice, &[A, B])?;
    Ok(walk.ok_or("one region only")?)
}

/// Whether Puts that aren't lawful cut nothing, and leave clock and next key as they are.
fn passes_over_unlawful_puts(walk: &mut Walk) -> Result<bool, NoMemory> {
    let puts = [
        event(3, 8, 2),
        event(3, 0, 2),
        event(3, 2, 2),
        event(3, 2, 9),
        event(1_000_000_000_000_001, 2, 0),
    ];
    for put in puts {
        if !walk.takes(Op::Put(put), 0, key(0, 0), key(1, 8))? {
            return Ok(false);
        }
    }
    Ok(true)
}

#[test]
fn unlawful_puts_are_passed_over(rt: HostRuntime) -> Result<(), Fail> {
    let mut walk = second_of_two(rt.alloc())?;
    assert!(rt; passes_over_unlawful_puts(&mut walk)?);
    Ok(())
}

/// Whether the region goes back for a Back, and then for a Put.
fn goes_back_twice(walk: &mut Walk) -> Result<bool, NoMemory> {
    let stepped = walk.step()?;
    let back = walk.takes(Op::Back(key(1, 8)), 1, key(1, 8), key(1, 8))?;
    let again = walk.step()?;
    let put = walk.takes(Op::Put(event(1, 2, 0)), 1, key(1, 2), key(1, 2))?;
    Ok(stepped && back && again && put)
}

#[test]
fn a_message_cuts_what_lies_behind_it(rt: HostRuntime) -> Result<(), Fail> {
    let mut walk = second_of_two(rt.alloc())?;
    assert!(rt; goes_back_twice(&mut walk)?);
    Ok(())
}

/// Whether a region applies an event that it received, and forgets it at a commit.
fn forgets_what_it_received(alloc: Global, walk: &mut Walk) -> Result<bool, NoMemory> {
    let put = walk.takes(Op::Put(event(1, 2, 0)), 0, key(0, 0), key(1, 2))?;
    let stepped = walk.step()?;
    let own = walk.own(alloc)?;
    Ok(put && stepped && own.len() == 0 && walk.commit() == 1)
}

#[test]
fn a_commit_forgets_received_events(rt: HostRuntime) -> Result<(), Fail> {
    let mut walk = second_of_two(rt.alloc())?;
    assert!(rt; forgets_what_it_received(rt.alloc(), &mut walk)?);
    Ok(())
}
