//! Each read and each write once, on bytes written out by hand.

use field_rows::{array_at, put, put_u8, put_u16, put_u32, put_u48, u16_at, u32_at, u48_at};

#[test]
fn reads_at_a_place(rt: HostRuntime) {
    let bytes = [0x00, 0x01, 0xff, 0x00, 0x00, 0x00, 0x01, 0x12, 0x0a];
    assert!(rt; u16_at(&bytes, 0) == 0x0001);
    assert!(rt; u32_at(&bytes, 5) == 0x0001_120a);
    assert!(rt; u48_at(&bytes, 2) == 0xff00_0000_0112);
    assert!(rt; array_at::<3>(&bytes, 6) == [0x01, 0x12, 0x0a]);
    assert!(rt; array_at::<0>(&bytes, 9) == []);
}

#[test]
fn writes_at_a_place(rt: HostRuntime) {
    let mut out = [0x55; 20];
    put_u8(&mut out, 1, 0x11);
    put_u16(&mut out, 2, 0x2233);
    put_u32(&mut out, 4, 0x4455_6677);
    put_u48(&mut out, 8, 0xff00_0000_0112);
    put(&mut out, 14, b"\x0a\x02\x00\x07");
    let wanted =
        *b"\x55\x11\x22\x33\x44\x55\x66\x77\xff\x00\x00\x00\x01\x12\x0a\x02\x00\x07\x55\x55";
    assert!(rt; out == wanted);
}
