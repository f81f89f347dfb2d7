// The kinds on examples.
use super::{Ask, Counted, Kind, Offset, Piece, Pieces, Target, Targets, Within};

fn total<K: Kind>(items: &[K::Item]) -> K::Total {
    let mut sum = K::nothing();
    for item in items {
        sum = K::join(sum, K::measure(*item));
    }
    sum
}

fn piece(length: u16, ended: bool) -> Piece {
    Piece {
        place: 0,
        length,
        ended,
    }
}

#[test]
fn pieces_add_up(rt: HostRuntime) {
    let size = total::<Pieces>(&[piece(12, true), piece(14, true)]);
    assert_eq!(rt; size.bytes, 26);
    assert_eq!(rt; size.newlines, 2);
    assert!(rt; Pieces::meets(size, Offset::Byte(25)));
    assert!(rt; !Pieces::meets(size, Offset::Byte(26)));
    assert!(rt; !Pieces::meets(size, Offset::Newline(2)));
    assert!(rt; !Pieces::admits(piece(0, false)));
    assert!(rt; Pieces::admits(piece(65535, false)));
}

#[test]
fn targets_take_the_least(rt: HostRuntime) {
    let near = Target {
        number: 9,
        range: 250,
    };
    let far = Target {
        number: 4,
        range: 900,
    };
    assert_eq!(rt; total::<Targets>(&[far, near]), 250);
    assert_eq!(rt; total::<Targets>(&[]), 4294967295);
    assert!(rt; Targets::meets(250, Within(250)));
    assert!(rt; !Targets::meets(250, Within(249)));
}

#[test]
fn target_limits(rt: HostRuntime) {
    for (number, range, admitted) in [
        (0, 0, false),
        (1, 0, true),
        (9999, 99999, true),
        (10000, 0, false),
        (1, 100000, false),
    ] {
        assert_eq!(rt; Targets::admits(Target { number, range }), admitted);
    }
}

#[test]
fn counted_twice(rt: HostRuntime) {
    let tally = total::<Counted<Counted<Pieces>>>(&[piece(3, true), piece(1, false)]);
    assert_eq!(rt; tally.count, 2);
    assert_eq!(rt; tally.inner.count, 2);
    assert_eq!(rt; tally.inner.inner.bytes, 4);
    assert!(rt; Counted::<Counted<Pieces>>::meets(tally, Ask::Item(1)));
    assert!(rt; !Counted::<Counted<Pieces>>::meets(tally, Ask::Inner(Ask::Item(2))));
}
