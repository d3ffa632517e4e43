ghost use Rattle.std.specs.Prelude.{◌≡◌};

use super::*;
use std::test::Fail;
use surf_kinds::{Event, Key, Place};

fn needs_send<T: Send>(value: T) -> T
    ensures { result ≡ value }
{
    value
}

fn needs_both<T: Send + Sync>(value: T) -> T
    ensures { result ≡ value }
{
    value
}

fn event(time: u64, place: u64) -> Event
    ensures { result ≡ record { time = time; place = record { 0 = place }; channel = 2 } }
{
    Event {
        time,
        place: Place(place),
        channel: 2,
    }
}

fn key(time: u64, place: u64) -> Key {
    Key {
        time,
        place: Place(place),
    }
}

#[test]
fn a_ring_of_one_slot_holds_one_message(rt: HostRuntime) -> Result<(), Fail> {
    let (out, inn) = ring(rt.alloc(), 1)?;
    let mut out = needs_send(out);
    let mut inn = needs_send(inn);
    let first = Op::Put(event(1, 8));
    let second = Op::Back(key(1, 2));
    assert_eq!(rt; out.send(first), Ok(()));
    assert_eq!(rt; inn.take(), Some(first));
    assert_eq!(rt; out.send(second), Ok(()));
    assert_eq!(rt; out.send(first), Err(first));
    assert_eq!(rt; beside(&mut out, &mut inn), 1);
    assert_eq!(rt; inn.take(), Some(second));
    Ok(())
}

#[test]
fn beside_tells_what_waits(rt: HostRuntime) -> Result<(), Fail> {
    let (mut out, mut inn) = ring(rt.alloc(), 2)?;
    assert_eq!(rt; inn.take(), None);
    assert_eq!(rt; out.send(Op::Put(event(1, 8))), Ok(()));
    assert_eq!(rt; out.send(Op::Put(event(2, 8))), Ok(()));
    assert_eq!(rt; beside(&mut out, &mut inn), 2);
    assert_eq!(rt; inn.take(), Some(Op::Put(event(1, 8))));
    assert_eq!(rt; beside(&mut out, &mut inn), 1);
    assert_eq!(rt; inn.take(), Some(Op::Put(event(2, 8))));
    assert_eq!(rt; beside(&mut out, &mut inn), 0);
    assert_eq!(rt; inn.take(), None);
    Ok(())
}

#[test]
fn a_cut_removes_from_a_key_on(rt: HostRuntime) -> Result<(), Fail> {
    let mut stack = Vec::new(rt.alloc());
    stack.push(event(1, 8))?;
    stack.push(event(2, 0))?;
    stack.push(event(2, 8))?;
    assert_eq!(rt; cut(&mut stack, key(2, 9)), 0);
    assert_eq!(rt; cut(&mut stack, key(2, 0)), 2);
    assert_eq!(rt; stack.as_slice(), [event(1, 8)].as_slice());
    assert_eq!(rt; cut(&mut stack, key(0, 100)), 1);
    assert_eq!(rt; cut(&mut stack, key(0, 0)), 0);
    Ok(())
}

#[test]
fn messages_build_the_stack_of_their_sender(rt: HostRuntime) -> Result<(), Fail> {
    let mut stacks = needs_both(Stacks::new(rt.alloc(), 2)?);
    stacks.reserve(5)?;
    stacks.replay(0, Op::Put(event(1, 8)));
    stacks.replay(0, Op::Put(event(3, 2)));
    stacks.replay(1, Op::Put(event(7, 7)));
    // The event at time 3 is told no longer, since one at time 2 came after it.
    stacks.replay(0, Op::Put(event(2, 10)));
    assert_eq!(rt; stacks.of(0), [event(1, 8), event(2, 10)].as_slice());
    stacks.replay(0, Op::Back(key(1, 9)));
    assert_eq!(rt; stacks.of(0), [event(1, 8)].as_slice());
    assert_eq!(rt; stacks.of(1), [event(7, 7)].as_slice());
    stacks.forget_below(key(1, 9));
    assert_eq!(rt; stacks.of(0), [].as_slice());
    assert_eq!(rt; stacks.of(1), [event(7, 7)].as_slice());
    Ok(())
}
