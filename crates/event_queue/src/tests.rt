ghost use Rattle.std.specs.Prelude.{◌≡◌};

use super::*;
use std::test::Fail;
use surf_kinds::{Event, Place};

fn event(time: u64, place: u64, channel: u16) -> Event
    ensures { result.place.0 ≡ place }
{
    Event {
        time,
        place: Place(place),
        channel,
    }
}

fn needs_both<T: Send + Sync>(value: T) -> T
    ensures { result ≡ value }
{
    value
}

#[test]
fn the_least_event_comes_first_and_equal_times_go_by_place(rt: HostRuntime) -> Result<(), Fail> {
    let mut queue = needs_both(Queue::new(rt.alloc(), Place(0), 3)?);
    queue.set(Place(2), Some(event(7, 2, 5)));
    queue.set(Place(1), Some(event(7, 1, 9)));
    assert_eq!(rt; queue.least(), Some(event(7, 1, 9)));
    queue.set(Place(1), None);
    assert_eq!(rt; queue.get(Place(1)), None);
    assert_eq!(rt; queue.least(), Some(event(7, 2, 5)));
    Ok(())
}
