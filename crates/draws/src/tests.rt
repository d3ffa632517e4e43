use super::*;

// The words that Rust's own `rand_chacha` gives.
#[test]
fn draws_of_the_rust_crate(rt: HostRuntime) {
    let seven = Drawer::new(7);
    assert_eq!(rt; seven.draw(Place(0), 0, 0), 14_095_323_943_061_994_099);
    assert_eq!(rt; seven.draw(Place(5), 1, 3), 17_955_294_034_719_033_957);
    let mixed = Drawer::new(0x0123_4567_89ab_cdef);
    assert_eq!(rt;
        mixed.draw(Place(0x0001_2345_6789), 0x1234_5678_9abc, 8191),
        14_946_996_276_357_712_141
    );
    let greatest = Drawer::new(u64::MAX);
    assert_eq!(rt;
        greatest.draw(Place(u64::MAX), (1 << 54) - 1, 8191),
        10_724_664_596_400_196_491
    );
    assert_eq!(rt;
        greatest.draw(Place(1 << 33), (1 << 40) + 5, 8),
        2_004_107_726_610_260_579
    );
}

// The same words, in their blocks.
#[test]
fn blocks_have_the_draws_of_the_rust_crate(rt: HostRuntime) {
    let seven = Drawer::new(7);
    assert_eq!(rt; seven.draws(Place(0), 0, 0)[0], 14_095_323_943_061_994_099);
    assert_eq!(rt; seven.draws(Place(5), 1, 0)[3], 17_955_294_034_719_033_957);
    let greatest = Drawer::new(u64::MAX);
    assert_eq!(rt;
        greatest.draws(Place(u64::MAX), (1 << 54) - 1, 1023)[7],
        10_724_664_596_400_196_491
    );
}

#[test]
fn the_key_is_the_seed_least_byte_first(rt: HostRuntime) {
    let mut key = [0; 32];
    key[0] = 7;
    assert_eq!(rt; key_of_seed(7), key);
}

fn needs_both<T: Send + Sync>(value: T) -> T {
    value
}

// Many threads may draw from one Drawer, and it may go to another thread.
#[test]
fn drawers_are_shared(rt: HostRuntime) {
    let seven = needs_both(Drawer::new(7));
    assert_eq!(rt; seven.draw(Place(5), 1, 3), 17_955_294_034_719_033_957);
}
