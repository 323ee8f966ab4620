use super::*;
use std::cmp::Ordering;
use std::test::Fail;

fn pair(first: i64, second: i64) -> Pair<Whole, Whole> {
    Pair {
        first: Whole::read(first),
        second: Whole::read(second),
    }
}

#[test]
fn new_stops_at_the_bounds(rt: HostRuntime) {
    assert!(rt; Whole::new(4_000_000_000_000_000_000).is_some());
    assert!(rt; Whole::new(4_000_000_000_000_000_001).is_none());
    assert!(rt; Whole::new(-4_000_000_000_000_000_000).is_some());
    assert!(rt; Whole::new(-4_000_000_000_000_000_001).is_none());
}

#[test]
fn rows_outside_read_as_the_nearer_bound(rt: HostRuntime) {
    assert_eq!(rt; Whole::read(i64::MAX).row(), 4_000_000_000_000_000_000);
    assert_eq!(rt; Whole::read(i64::MIN).row(), -4_000_000_000_000_000_000);
    assert_eq!(rt; Whole::read(-7).row(), -7);
}

#[test]
fn weights_are_checked_before_parts(rt: HostRuntime) {
    let east = pair(3_000_000_000_000_000_000, 0);
    let north = pair(0, 3_000_000_000_000_000_000);
    assert!(rt; east.plus(north).is_none());
    assert!(rt; east.first.plus(north.first).is_some());
    assert!(rt; east.second.plus(north.second).is_some());
}

#[test]
fn first_parts_go_before(rt: HostRuntime) {
    assert_eq!(rt; pair(0, 9).compare(pair(1, 0)), Ordering::Less);
    assert_eq!(rt; pair(1, 9).compare(pair(1, 0)), Ordering::Greater);
}

#[test]
fn multiples_stop_at_a_million(rt: HostRuntime) -> Result<(), Fail> {
    let Some(most) = pair(-1_000_000, 3).times(1_000_000) else {
        assert!(rt; false);
        return Ok(());
    };
    assert_eq!(rt; most.row(), (-1_000_000_000_000, 3_000_000));
    assert!(rt; pair(1, 0).times(1_000_001).is_none());
    assert!(rt; pair(0, 1_000_001).times(0).is_none());
    Ok(())
}
