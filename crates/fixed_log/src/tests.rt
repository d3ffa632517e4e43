use super::*;

#[test]
fn logarithms(rt: HostRuntime) {
    assert_eq!(rt; log2_fixed(1), 0);
    assert_eq!(rt; log2_fixed(2), 4_294_967_296);
    assert_eq!(rt; log2_fixed(3), 6_807_362_105);
    assert_eq!(rt; log2_fixed((1 << 64) - 1), 274_877_906_943);
    assert_eq!(rt; log2_fixed(1 << 64), 274_877_906_944);
}

#[test]
fn energies(rt: HostRuntime) {
    assert_eq!(rt; energy(u64::MAX), 0);
    assert_eq!(rt; energy(u64::MAX - 1), 0);
    assert_eq!(rt; energy(0), 190_530_846_208);
    assert_eq!(rt; energy((1 << 63) - 1), 2_977_044_472);
}
