// Both ends of every range, and the first number past each.
use market::limits::*;

#[test]
fn prices_and_times(rt: HostRuntime) {
    for (p, inside) in [
        (0, false),
        (1, true),
        (200_000_000, true),
        (200_000_001, false),
        (u32::MAX, false),
    ] {
        assert_eq!(rt; is_price(p), inside);
    }
    for (t, inside) in [
        (0, true),
        (86_399_999, true),
        (86_400_000, false),
        (u32::MAX, false),
    ] {
        assert_eq!(rt; is_time(t), inside);
    }
}

#[test]
fn units_and_lots(rt: HostRuntime) {
    for (u, inside) in [
        (0, false),
        (9, false),
        (10, true),
        (11, false),
        (99, false),
        (100, true),
        (101, false),
    ] {
        assert_eq!(rt; is_unit(u), inside);
    }
    let lots = [
        (10, 0, false),
        (10, 1, true),
        (10, 9, true),
        (10, 10, false),
        (100, 0, false),
        (100, 1, true),
        (100, 99, true),
        (100, 100, false),
        (50, 20, false),
    ];
    for (unit, n, inside) in lots {
        assert_eq!(rt; is_odd_lot(unit, n), inside);
    }
    let volumes = [
        (10, 9, false),
        (10, 10, true),
        (10, 100_000_000, true),
        (10, 100_000_001, false),
        (100, 99, false),
        (100, 100, true),
        (100, 100_000_000, true),
        (100, 100_000_001, false),
        (50, 50, false),
    ];
    for (unit, v, inside) in volumes {
        assert_eq!(rt; is_volume(unit, v), inside);
    }
}

#[test]
fn counts_and_tags(rt: HostRuntime) {
    for (n, inside) in [
        (0, false),
        (1, true),
        (268_435_455, true),
        (268_435_456, false),
    ] {
        assert_eq!(rt; is_tag(n), inside);
    }
    for (n, room) in [(0, true), (511, true), (512, false), (usize::MAX, false)] {
        assert_eq!(rt; has_live_room(n), room);
    }
    for (n, room) in [
        (0, true),
        (59_999, true),
        (60_000, false),
        (u32::MAX, false),
    ] {
        assert_eq!(rt; has_accepted_room(n), room);
    }
    for (n, inside) in [(0, false), (1, true), (99, true), (100, false)] {
        assert_eq!(rt; is_postable(n), inside);
    }
}
