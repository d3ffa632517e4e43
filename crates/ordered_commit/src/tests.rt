ghost use Rattle.std.specs.Prelude.{◌≡◌};

use super::*;
use std::test::Fail;
use surf_kinds::{Event, Place};

#[test]
fn a_tally_numbers_events_up_to_its_limit(rt: HostRuntime) {
    let mut tally = Tally::new(2);
    assert_eq!(rt; tally.admit(), Ok(1));
    assert_eq!(rt; tally.admit(), Ok(2));
    assert_eq!(rt; tally.admit(), Err(EventLimit { limit: 2 }));
    assert_eq!(rt; Tally::new(0).admit(), Err(EventLimit { limit: 0 }));
}

fn event(time: u64, place: u64) -> Event
    ensures { result ≡ record { time = time; place = record { 0 = place }; channel = 0 } }
{
    Event {
        time,
        place: Place(place),
        channel: 0,
    }
}

#[test]
fn a_merge_goes_by_time_and_then_by_place(rt: HostRuntime) -> Result<(), Fail> {
    let alloc = rt.alloc();
    let first = vec![in alloc; event(1, 8), event(3, 0)]?;
    let second = vec![in alloc; event(1, 0), event(2, 9)]?;
    let lists = vec![in alloc; first, second]?;
    let merged = merge(alloc, lists.as_slice())?;
    assert_eq!(rt;
        merged.as_slice(),
        [event(1, 0), event(1, 8), event(2, 9), event(3, 0)].as_slice()
    );
    Ok(())
}
