use super::*;
use std::test::Fail;

fn key(time: u64, place: u64) -> Key {
    Key {
        time,
        place: Place(place),
    }
}

#[test]
fn keys_go_by_time_and_then_by_place(rt: HostRuntime) {
    assert!(rt; key(1, 9) < key(2, 0));
    assert!(rt; key(1, 9).is_before(key(2, 0)));
    assert!(rt; key(1, 8) < key(1, 9));
    assert!(rt; key(1, 8) >= key(1, 8));
    let first = Key {
        time: 1,
        place: Place(8),
    };
    assert_eq!(rt; first.after(), key(1, 9));
}

#[test]
fn statuses_have_their_codes(rt: HostRuntime) {
    assert_eq!(rt; Status::Done.code(), 0);
    assert_eq!(rt; Status::Limit.code(), 3);
    assert_eq!(rt; Status::Memory.code(), 6);
}

#[test]
fn counts_are_kept_in_order(rt: HostRuntime) -> Result<(), Fail> {
    let mut counts = Counts::new(rt.alloc());
    counts.push(3)?;
    counts.push(0)?;
    counts.set(1, 5);
    assert_eq!(rt; counts.as_slice(), [3, 5].as_slice());
    Ok(())
}

#[test]
fn places_and_channels_are_taken_apart(rt: HostRuntime) {
    let pair = Place::at(SiteId(2), Step::South);
    assert_eq!(rt; pair, Place(18));
    assert_eq!(rt; pair.site(), 2);
    assert!(rt; pair.step() == Some(Step::South));
    assert!(rt; Place(20).step() == None);
    assert_eq!(rt; rule_of_channel(7), 3);
    assert_eq!(rt; way_of_channel(7), 1);
}
