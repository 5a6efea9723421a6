// Clocks: one that gives the moments of a list, and that of the system.
use dv_base::{Clock, Failed, ListClock, SystemClock};
use std::test::Fail;

// 2020-01-01T00:00:00Z.
const LONG_AGO: i64 = 1_577_836_800;

#[test]
fn a_clock_in_memory_gives_each_moment_once_and_the_last_for_good(
    rt: HostRuntime,
) -> Result<(), Fail> {
    let mut clock = ListClock::failing(Vec::from_slice(rt.alloc(), &[5, -7])?, 9, 2);
    assert_eq!(rt; clock.now(), Ok(5));
    assert_eq!(rt; clock.now(), Err(Failed));
    assert_eq!(rt; clock.now(), Ok(-7));
    assert_eq!(rt; clock.now(), Ok(9));
    assert_eq!(rt; clock.now(), Ok(9));
    Ok(())
}

#[test]
fn a_moment_outside_the_years_1_to_9999_is_a_fault(rt: HostRuntime) {
    let mut clock = ListClock::new(Vec::new(rt.alloc()), 253_402_300_800);
    assert_eq!(rt; clock.now(), Err(Failed));
    let mut clock = ListClock::new(Vec::new(rt.alloc()), -62_135_596_801);
    assert_eq!(rt; clock.now(), Err(Failed));
    let mut clock = ListClock::new(Vec::new(rt.alloc()), -62_135_596_800);
    assert_eq!(rt; clock.now(), Ok(-62_135_596_800));
}

#[test]
fn the_system_tells_a_moment_of_today(rt: HostRuntime) -> Result<(), Fail> {
    let mut clock = SystemClock::new(&rt);
    assert!(rt; clock.now()? > LONG_AGO);
    Ok(())
}
