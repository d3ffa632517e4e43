//! A neighbour that sends messages of all kinds.

use crate::walk::{A, B, C, D, E, Walk, event, instant, key};
use border::Op;
use lattice::{Kind, Lattice};
use std::alloc::Global;
use std::test::Fail;
use surf_kinds::{Event, NoMemory, Rule};

/// Region 1 of two rows of two sites. Its own two turn from A to B and back at each tick, and nothing happens elsewhere;
/// only messages report C + D -> A + B across the border.
fn flipping(alloc: Global) -> Result<Option<Walk>, Fail> {
    let rules = [
        Rule::One {
            rate: instant(),
            a: A,
            c: B,
        },
        Rule::One {
            rate: instant(),
            a: B,
            c: A,
        },
        Rule::Two {
            rate: instant(),
            a: C,
            b: D,
            c: A,
            d: B,
        },
    ];
    let lattice = Lattice::new(Kind::Square, 2, 2, false)?;
    Ok(Walk::new(alloc, &rules, lattice, &[E, E, A, A])?)
}

/// Whether these are the two sites' events up to the last tick.
fn are_flips(events: &[Event]) -> bool {
    for i in 0..events.len() {
        let tick = i as u64 / 2;
        let place = 16 + 8 * (i as u64 % 2);
        let channel = if tick % 2 == 0 { 0 } else { 2 };
        if events[i] != event(1 + tick, place, channel) {
            return false;
        }
    }
    events.len() == 10
}

/// A number that looks random, made of the one before it.
fn drawn(seed: u64) -> u64 {
    seed % 2_147_483_648 * 1_103_515_245 + 12_345
}

/// A message of any kind, lawful or not.
fn message(seed: u64) -> Op {
    let number = seed / 65_536;
    let (time, place) = (number / 4 % 8, number / 32 % 20);
    if number % 4 == 0 {
        Op::Back(key(time, place))
    } else {
        Op::Put(event(time, place, (number / 640 % 7) as u16))
    }
}

/// Takes messages that look random, adds an entry after each, takes all of them back, and adds what is left.
fn annoy(walk: &mut Walk, seed: u64) -> Result<(), NoMemory> {
    let mut seed = seed;
    for _ in 0..400 {
        seed = drawn(seed);
        walk.take(message(seed))?;
        walk.step()?;
    }
    walk.take(Op::Back(key(0, 0)))?;
    for _ in 0..10 {
        walk.step()?;
    }
    Ok(())
}

/// Whether a region whose neighbour annoyed it has its own events at the end, and had to cut many entries.
fn outlasts(alloc: Global, seed: u64) -> Result<bool, Fail> {
    let Some(mut walk) = flipping(alloc)? else {
        return Ok(false);
    };
    annoy(&mut walk, seed)?;
    let own = walk.own(alloc)?;
    Ok(are_flips(own.as_slice()) && walk.cut_so_far() > 100)
}

/// Whether that is so for eight neighbours.
fn outlasts_all(alloc: Global) -> Result<bool, Fail> {
    for seed in 0..8 {
        if !outlasts(alloc, seed)? {
            return Ok(false);
        }
    }
    Ok(true)
}

#[test]
fn a_hostile_neighbour_leaves_the_own_events(rt: HostRuntime) -> Result<(), Fail> {
    assert!(rt; outlasts_all(rt.alloc())?);
    Ok(())
}
