//! Paths, read, moved along and written.

use crate::hops::hop_between;
use field_rows::array_at;
use path_fields::{
    Hop, Info, Meta, NoRoom, PathEnd, PathFault, advance, check_path, path_is_lawful, read_hop,
    read_info, read_meta, read_path, reversed, set_cursor, set_seg_id, write_path,
};
use sample_packets::{FIRST, PATH_AT};

/// One segment of three hops, travelled along; the cursor is at the second.
fn one_segment() -> [u8; 48] {
    array_at::<48>(&FIRST, PATH_AT)
}

fn hop(ingress: u16, egress: u16, mac: [u8; 6]) -> Hop {
    hop_between(ingress, egress, 63, mac)
}

fn info() -> Info {
    Info {
        reserved_flags: 0,
        along: true,
        reserved: 0,
        segment_id: 0x1234,
        timestamp: 0x6500_0000,
    }
}

#[test]
fn reads_and_writes_a_path(rt: HostRuntime) {
    let bytes = one_segment();
    let path = read_path(&bytes).expect(&rt, "it is a path");
    assert!(rt; (path.current_info, path.current_hop, path.reserved) == (0, 1, 0));
    assert!(rt; path.lengths == [3, 0, 0]);
    assert!(rt; path.infos.as_slice() == [info()].as_slice());
    let hops = [
        hop(0, 17, [0xa0, 0xa1, 0xa2, 0xa3, 0xa4, 0xa5]),
        hop(1, 2, [0x0e, 0x66, 0xd2, 0x97, 0x45, 0x36]),
        hop(18, 0, [0xb0, 0xb1, 0xb2, 0xb3, 0xb4, 0xb5]),
    ];
    assert!(rt; path.hops.as_slice() == hops.as_slice());
    let mut room = [0x55; 50];
    assert!(rt; write_path(&path, &mut room[..47]) == Err(NoRoom));
    assert!(rt; write_path(&path, &mut room) == Ok(48));
    let mut written = [0x55; 50];
    written[..48].copy_from_slice(&bytes);
    assert!(rt; room == written);
    path_is_lawful();
}

#[test]
fn reads_one_field(rt: HostRuntime) {
    let meta = Meta {
        current_info: 0,
        current_hop: 1,
        reserved: 0,
        lengths: [3, 0, 0],
    };
    let path = one_segment();
    assert!(rt; read_meta(&path) == meta);
    assert!(rt; check_path(&path) == Ok(meta));
    assert!(rt; (meta.segment_count(), meta.hop_count(), meta.path_len()) == (1, 3, 48));
    assert!(rt; (meta.segment_of(2), meta.first_hop(0)) == (0, 0));
    assert!(rt; (meta.hops_place(), meta.hop_place(1)) == (12, 24));
    assert!(rt; read_info(&path, 0) == info());
    assert!(rt; read_hop(&path, 24) == hop(1, 2, [0x0e, 0x66, 0xd2, 0x97, 0x45, 0x36]));
}

/// Whether the bytes are refused as a path for this fault.
fn is_refused(bytes: &[u8], fault: PathFault) -> bool {
    check_path(bytes) == Err(fault)
}

#[test]
fn refuses_what_is_no_path(rt: HostRuntime) {
    let whole = one_segment();
    for len in [0, 3, 44, 47] {
        assert!(rt; is_refused(&whole[..len], PathFault::Header), "{len} bytes");
    }
    let metas = [
        [0x01, 0x00, 0x00, 0xc0],
        [0x41, 0x00, 0x30, 0x00],
        [0x01, 0x03, 0xf0, 0x80],
        [0x03, 0x00, 0x30, 0x00],
    ];
    for meta in metas {
        let mut path = whole;
        path[..4].copy_from_slice(&meta);
        assert!(rt; is_refused(&path, PathFault::Path), "{meta:?}");
    }
    let mut path = whole;
    path[4] = 0x03;
    assert!(rt; is_refused(&path, PathFault::Peering));
}

#[test]
fn moves_over_three_segments(rt: HostRuntime) {
    // one hop, two and one
    let mut bytes = [0; 76];
    bytes[..4].copy_from_slice(&[0x00, 0x00, 0x10, 0x81]);
    let mut path = read_path(&bytes).expect(&rt, "it is a path");
    for place in [(1, 1), (1, 2), (2, 3)] {
        assert!(rt; advance(&mut path) == Ok(()));
        assert!(rt; (path.current_info, path.current_hop) == place);
    }
    assert!(rt; advance(&mut path) == Err(PathEnd));
    assert!(rt; (path.current_info, path.current_hop) == (2, 3));
}

#[test]
fn sets_fields_in_place(rt: HostRuntime) {
    // two segments of two hops, the cursor moved from the second hop to the third
    let mut meta = [0x01, 0x00, 0x20, 0x80];
    set_cursor(&mut meta, 1, 2);
    assert!(rt; meta == [0x42, 0x00, 0x20, 0x80]);
    let mut path = one_segment();
    set_seg_id(&mut path, 0, 0xd2f4);
    let mut chained = one_segment();
    chained[6] = 0xd2;
    chained[7] = 0xf4;
    assert!(rt; path == chained);
}

#[test]
fn turns_a_path_back(rt: HostRuntime) {
    let mut back = reversed(&read_path(&one_segment()).expect(&rt, "it is a path"));
    assert!(rt; (back.current_info, back.current_hop) == (0, 1));
    // one hop on, as the way back of an answer that leaves by the link by which its packet came
    assert!(rt; advance(&mut back) == Ok(()));
    let mut written = [0; 48];
    assert!(rt; write_path(&back, &mut written) == Ok(48));
    let way_back = *b"\x02\x00\x30\x00\x00\x00\x12\x34\x65\x00\x00\x00\
        \x00\x3f\x00\x12\x00\x00\xb0\xb1\xb2\xb3\xb4\xb5\
        \x00\x3f\x00\x01\x00\x02\x0e\x66\xd2\x97\x45\x36\
        \x00\x3f\x00\x00\x00\x11\xa0\xa1\xa2\xa3\xa4\xa5";
    assert!(rt; written == way_back);
}

#[test]
fn turns_three_segments_back(rt: HostRuntime) {
    // one hop, two and one, the cursor at the third; every flag and every reserved bit is set somewhere
    let path = *b"\x42\xa8\x10\x81\xfd\xaa\x10\x11\x01\x02\x03\x04\
        \xfc\xbb\x20\x21\x05\x06\x07\x08\x01\x00\x30\x31\x09\x0a\x0b\x0c\
        \xff\x3f\x00\x50\x00\x60\x00\x01\x02\x03\x04\x05\
        \xfe\x40\x01\x51\x01\x61\x10\x11\x12\x13\x14\x15\
        \xfd\x41\x02\x52\x02\x62\x20\x21\x22\x23\x24\x25\
        \xfc\x42\x03\x53\x03\x63\x30\x31\x32\x33\x34\x35";
    let way_back = *b"\x41\x00\x10\x81\x00\x00\x30\x31\x09\x0a\x0b\x0c\
        \x01\x00\x20\x21\x05\x06\x07\x08\x00\x00\x10\x11\x01\x02\x03\x04\
        \x00\x42\x03\x53\x03\x63\x30\x31\x32\x33\x34\x35\
        \x00\x41\x02\x52\x02\x62\x20\x21\x22\x23\x24\x25\
        \x00\x40\x01\x51\x01\x61\x10\x11\x12\x13\x14\x15\
        \x00\x3f\x00\x50\x00\x60\x00\x01\x02\x03\x04\x05";
    let mut written = [0; 76];
    assert!(rt;
        write_path(
            &reversed(&read_path(&path).expect(&rt, "it is a path")),
            &mut written
        ) == Ok(76)
    );
    assert!(rt; written == way_back);
}

#[test]
fn tells_the_end_of_a_segment(rt: HostRuntime) {
    // one hop, two and one: each hop with its segment, whether it is the last there, and whether another
    // segment follows
    let places = [
        (0x00, true, true),
        (0x41, false, true),
        (0x42, true, true),
        (0x83, true, false),
    ];
    for (cursor, last, followed) in places {
        let mut bytes = [0; 76];
        bytes[..4].copy_from_slice(&[cursor, 0x00, 0x10, 0x81]);
        let path = read_path(&bytes).expect(&rt, "it is a path");
        assert!(rt;
            (path.is_last_of_segment(), path.is_followed()) == (last, followed),
            "{cursor:x}"
        );
    }
}
