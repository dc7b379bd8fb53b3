//! Pairs of links at a change of segments.

use path_fields::read_path;
use segment_switch::{LinkKind, PairFault, is_switch, joins, pair_ok};

const KINDS: [LinkKind; 3] = [LinkKind::Core, LinkKind::Parent, LinkKind::Child];

#[test]
fn tells_where_segments_change(rt: HostRuntime) {
    // Segments of one hop, two and one; then one segment of three hops.
    let three = [[0x00, 0x01], [0x41, 0x00], [0x42, 0x01], [0x83, 0x00]];
    for [cursor, switches] in three {
        let mut bytes = [0; 76];
        bytes[..4].copy_from_slice(&[cursor, 0x00, 0x10, 0x81]);
        assert!(rt;
            is_switch(&read_path(&bytes).expect(&rt, "it is a path")) == (switches == 1),
            "{cursor:x}"
        );
    }
    for hop in 0..3u8 {
        let mut bytes = [0; 48];
        bytes[..4].copy_from_slice(&[hop, 0x00, 0x30, 0x00]);
        assert!(rt;
            !is_switch(&read_path(&bytes).expect(&rt, "it is a path")),
            "{hop}"
        );
    }
}

/// Whether a pair of links is judged so, on one segment and where segments change.
fn is_judged(from: LinkKind, to: LinkKind, straight: bool, changing: bool) -> bool {
    pair_ok(Some(from), to, false).is_ok() == straight
        && pair_ok(Some(from), to, true).is_ok() == changing
        && joins(from, to) == changing
}

/// Whether what begins its path here may leave by such a link, but not by one of another segment.
fn may_begin_by(to: LinkKind) -> bool {
    pair_ok(None, to, false).is_ok() && pair_ok(None, to, true) == Err(PairFault::ChangeOver)
}

#[test]
fn judges_pairs(rt: HostRuntime) {
    // a line for what the packet came by: Core, Parent, Child; a column for what it leaves by
    let straight = [
        [true, false, false],
        [false, false, true],
        [false, true, false],
    ];
    let changing = [
        [false, false, true],
        [false, false, false],
        [true, false, true],
    ];
    for from in 0..3usize {
        for to in 0..3usize {
            let (straight, changing) = (straight[from][to], changing[from][to]);
            assert!(rt; is_judged(KINDS[from], KINDS[to], straight, changing));
        }
    }
    for to in KINDS {
        assert!(rt; may_begin_by(to));
    }
    let parents = pair_ok(Some(LinkKind::Parent), LinkKind::Parent, false);
    assert!(rt; parents == Err(PairFault::StraightOn));
    assert!(rt; (PairFault::StraightOn.code(), PairFault::ChangeOver.code()) == (48, 53));
}
