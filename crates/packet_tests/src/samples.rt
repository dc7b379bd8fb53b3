//! Datagrams with other bytes.

use sample_packets::{FIRST, MAC_AT, OTHER_MAC, PATH_AT, with_bytes};

#[test]
fn changes_bytes_where_they_are_told(rt: HostRuntime) {
    let other = with_bytes(FIRST, MAC_AT, &OTHER_MAC);
    assert!(rt; other.starts_with(&FIRST[..MAC_AT]));
    assert!(rt; other[MAC_AT..].starts_with(&OTHER_MAC));
    assert!(rt; other.ends_with(&FIRST[MAC_AT + 6..]));
    let moved = with_bytes(other, PATH_AT, &[0x02]);
    assert!(rt; (moved[PATH_AT], moved[MAC_AT]) == (0x02, 0xc0));
}
