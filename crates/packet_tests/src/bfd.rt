//! Values from outside: BFD control packets by RFC 5880, which of them are taken, and what answers them.

use bfd_control::{is_taken, write_answer};

/// Down, each second, from discriminator 5eed0111, which knows none of the other end.
const DOWN: [u8; 24] = *b"\x20\x40\x03\x18\x5e\xed\x01\x11\x00\x00\x00\x00\
    \x00\x0f\x42\x40\x00\x03\x0d\x40\x00\x00\x00\x00";

/// Up, each 0.3 seconds, with a poll, to discriminator 1.
const POLL: [u8; 24] = *b"\x20\xe0\x03\x18\x5e\xed\x01\x11\x00\x00\x00\x01\
    \x00\x04\x93\xe0\x00\x03\x0d\x40\x00\x00\x00\x00";

#[test]
fn takes_what_is_for_this_end(rt: HostRuntime) {
    assert!(rt; is_taken(1, &DOWN));
    assert!(rt; is_taken(2, &DOWN));
    assert!(rt; is_taken(1, &POLL));
    assert!(rt; !is_taken(2, &POLL));
    assert!(rt; !is_taken(1, &DOWN[..23]));
}

/// The answer to a control packet at discriminator 1, behind four bytes.
fn answer_to(received: &[u8; 24]) -> [u8; 28] {
    let mut out = [0xc3; 28];
    write_answer(1, received, &mut out, 4);
    out
}

#[test]
fn answers_by_a_state_and_a_final(rt: HostRuntime) {
    // Init, each second
    let init = *b"\xc3\xc3\xc3\xc3\x20\x80\x03\x18\x00\x00\x00\x01\x5e\xed\x01\x11\
        \x00\x0f\x42\x40\x00\x03\x0d\x40\x00\x00\x00\x00";
    assert!(rt; answer_to(&DOWN) == init);
    // Up, each 0.3 seconds
    let up = *b"\xc3\xc3\xc3\xc3\x20\xd0\x03\x18\x00\x00\x00\x01\x5e\xed\x01\x11\
        \x00\x04\x93\xe0\x00\x03\x0d\x40\x00\x00\x00\x00";
    assert!(rt; answer_to(&POLL) == up);
}
