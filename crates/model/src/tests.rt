// The most levels at some numbers of items.
use super::levels_for;

#[test]
fn most_levels(rt: HostRuntime) {
    let table = [
        (0, 0),
        (1, 1),
        (3, 1),
        (4, 2),
        (9, 2),
        (10, 3),
        (49149, 14),
        (49150, 15),
        (65535, 15),
        (131070, 16),
        (u32::MAX, 31),
    ];
    for (items, levels) in table {
        assert_eq!(rt; levels_for(items), levels);
    }
}
