//! Rates and durations as they are read, and waits.

use rates::{read_duration, read_rate, wait, wait_bounds};
use surf_kinds::Rate;

#[tactic(auto, using(surf_kinds::proofs::Fractions::whole_reduced, surf_kinds::proofs::Fractions::one_over_reduced))]
#[test]
fn waits_of_words(rt: HostRuntime) {
    let one = Rate { p: 1, q: 1 };
    let slow = Rate {
        p: 1,
        q: 1_000_000_000,
    };
    let instant = Rate {
        p: 1_000_000_000,
        q: 1,
    };
    let half = (1 << 63) - 1;
    assert_eq!(rt; wait(one, 0), Some(44_361_420));
    assert_eq!(rt; wait(slow, 0), Some(44_361_419_558_525_086));
    assert_eq!(rt; wait(instant, 0), Some(1));
    assert_eq!(rt; wait(one, half), Some(693_148));
    assert_eq!(rt; wait(Rate { p: 1, q: 2 }, half), Some(1_386_295));
    assert_eq!(rt; wait(Rate { p: 2, q: 1 }, half), Some(346_574));
    assert_eq!(rt; wait(slow, u64::MAX), Some(1));
    assert_eq!(rt; wait(instant, u64::MAX), Some(1));
    assert_eq!(rt; wait(Rate { p: 0, q: 1 }, 0), None);
    wait_bounds();
}

/// The mean of the waits of ten thousand words, spread evenly.
fn mean_wait(rate: Rate) -> u64 {
    let mut sum: u64 = 0;
    for i in 0..10_000u64 {
        let word = (2 * i + 1) * 922_337_203_685_477;
        sum = sum.saturating_add(wait(rate, word).unwrap_or(0));
    }
    sum / 10_000
}

#[tactic(auto, using(surf_kinds::proofs::Fractions::whole_reduced, surf_kinds::proofs::Fractions::one_over_reduced))]
#[test]
fn the_mean_wait_is_one_over_the_rate(rt: HostRuntime) {
    let one = mean_wait(Rate { p: 1, q: 1 });
    assert!(rt; one.abs_diff(1_000_000) < 100);
    let four = mean_wait(Rate { p: 4, q: 1 });
    assert!(rt; four.abs_diff(250_000) < 100);
    let eighth = mean_wait(Rate { p: 1, q: 8 });
    assert!(rt; eighth.abs_diff(8_000_000) < 1_000);
}

#[test]
fn rates_are_read(rt: HostRuntime) {
    for (text, p, q) in [
        ("2/4", 1, 2),
        (" 1 / 2 ", 1, 2),
        ("0/7", 0, 1),
        ("000000000000000006/4", 3, 2),
        ("999999999000000000/999999999", 1000000000, 1),
        ("1e-3", 1, 1000),
        ("1e-03", 1, 1000),
        ("1e9", 1000000000, 1),
        (".25", 1, 4),
        ("2.50", 5, 2),
        ("0.0e5", 0, 1),
    ] {
        assert_eq!(rt;
            read_rate(text.as_bytes()).map(|rate| (rate.p, rate.q)),
            Some((p, q))
        );
    }
}

#[test]
fn other_texts_are_no_rates(rt: HostRuntime) {
    for text in [
        "",
        " ",
        "/",
        "1/0",
        "0/0",
        "-1",
        "1e10",
        "1000000001",
        "1.5/2",
        "1/2/3",
        "1 2",
        "1/2000000001",
        "0.0000000001",
        "0000000000000000001/2",
    ] {
        assert_eq!(rt; read_rate(text.as_bytes()), None);
    }
}

#[test]
fn durations_are_read(rt: HostRuntime) {
    for (text, ticks) in [
        ("2.50", Some(2_500_000)),
        ("0.000003", Some(3)),
        ("1000000000", Some(1_000_000_000_000_000)),
        ("1e9", Some(1_000_000_000_000_000)),
        ("1000000001", None),
        ("0.0000009", Some(0)),
        ("1e-9", Some(0)),
        ("", None),
        ("-1", None),
        ("1e10", None),
    ] {
        assert_eq!(rt; read_duration(text.as_bytes()), ticks);
    }
}
