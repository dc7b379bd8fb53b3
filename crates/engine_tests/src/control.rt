//! Answers to BFD with their bytes, and which answer a datagram gets. The answers to BFD are those of the model in
//! `tests/scion.py`.

use crate::answers::NEIGHBOUR;
use crate::sound::{is_answerable, is_whole_control};
use bfd_answer::{LONGEST_BFD_ANSWER, bfd_answer_into};
use packet_answer::{AnswerLen, Answered, LONGEST_ANSWER, answer, answer_into};
use process_packet::{Arrival, BFD, Cause, Config, Problem};
use router_config::read_config;
use sample_packets::{FINAL, FIRST, IN_TIME, PATH_AT, POLL};
use std::test::*;

/// A router whose first two links lead to neighbours by name, over IPv4 and over IPv6.
const CONFIGURATION: &str =
    "version = 1\nisd_as = \"1-ff00:0:110\"\nkey = \"2b7e151628aed2a6abf7158809cf4f3c\"\n\
    internal = \"10.0.0.1:30000\"\nhost_port = 30041\nprocessors = 1\ncapacity = 4\nseed = 0\nlink = [\n\
    {id=1, kind=\"parent\", local=\"10.1.0.1:40000\", remote=\"10.1.0.2:40000\", neighbor=\"1-ff00:0:111\", bfd=true},\n\
    {id=2, kind=\"child\", local=\"[fd00:0:1:0:0:0:0:a001]:40000\", remote=\"[fd00:0:1:0:0:0:0:a002]:40000\", \
    neighbor=\"1-ff00:0:112\", bfd=true},\n\
    {id=3, kind=\"core\", local=\"10.3.0.1:40000\", remote=\"10.3.0.2:40000\"}]\n";

/// Down, from discriminator c0ffee01 of 1-ff00:0:112.
const DOWN: [u8; 92] = *b"\x0b\x80\xde\xad\xcb\x11\x00\x18\x02\x00\x00\x00\
    \x00\x01\xff\x00\x00\x00\x01\x10\x00\x01\xff\x00\x00\x00\x01\x12\x0a\x02\x00\x01\x0a\x02\x00\x02\
    \x01\x00\xbe\xef\x65\x00\x03\xde\x00\x3f\x00\x00\x00\x11\xa0\xa1\xa2\xa3\xa4\xa5\
    \x00\x00\x00\x00\x00\x00\x00\x00\x00\x00\x00\x00\
    \x20\x40\x03\x18\xc0\xff\xee\x01\x00\x00\x00\x00\x00\x0f\x42\x40\x00\x03\x0d\x40\x00\x00\x00\x00";

/// Init, to it, from one end of link 2 to the other.
const INIT: [u8; 116] = *b"\x0b\x8b\xfd\xa0\xcb\x17\x00\x18\x02\x33\x00\x00\
    \x00\x01\xff\x00\x00\x00\x01\x12\x00\x01\xff\x00\x00\x00\x01\x10\
    \xfd\x00\x00\x00\x00\x01\x00\x00\x00\x00\x00\x00\x00\x00\xa0\x02\
    \xfd\x00\x00\x00\x00\x01\x00\x00\x00\x00\x00\x00\x00\x00\xa0\x01\
    \x01\x00\x3e\x3e\x65\x00\x03\xe8\x00\x3f\x00\x00\x00\x02\x3e\x3e\xce\xdf\xe1\x32\
    \x00\x00\x00\x00\x00\x00\x00\x00\x00\x00\x00\x00\
    \x20\x80\x03\x18\x00\x00\x00\x02\xc0\xff\xee\x01\x00\x0f\x42\x40\x00\x03\x0d\x40\x00\x00\x00\x00";

/// Whether a control packet that came by the link gets this answer.
fn gets(config: &Config, link: u16, bytes: &[u8], wanted: &[u8]) -> bool {
    if !is_whole_control(bytes) {
        return false;
    }
    let mut out = [0x55; LONGEST_BFD_ANSWER];
    match bfd_answer_into(config, link, IN_TIME, bytes, &mut out) {
        Some(len) => len == wanted.len() && out.starts_with(wanted),
        None => false,
    }
}

/// Whether it gets none, and nothing is written.
fn gets_none(config: &Config, link: u16, bytes: &[u8]) -> bool {
    if !is_whole_control(bytes) {
        return false;
    }
    let mut out = [0x55; LONGEST_BFD_ANSWER];
    bfd_answer_into(config, link, IN_TIME, bytes, &mut out).is_none()
        && out.iter().all(|byte| *byte == 0x55)
}

#[test]
fn answers_bfd(rt: HostRuntime) {
    let config = read_config(rt.alloc(), CONFIGURATION).expect(&rt, "configuration");
    assert!(rt; gets(&config, 1, &POLL, &FINAL), "Up");
    assert!(rt; gets(&config, 2, &DOWN, &INIT), "Down, by IPv6");
    assert!(rt; gets_none(&config, 3, &POLL), "no neighbour is named");
    assert!(rt; gets_none(&config, 4, &POLL), "no such link");
    drop(config);
}

/// What a control packet that came by link 1 is answered for.
const CONTROL: Problem = Problem {
    kind: BFD,
    code: 0,
    pointer: 1,
};

/// The MAC of the first datagram's second hop field is wrong.
const WRONG_MAC: Problem = Problem {
    kind: 4,
    code: 51,
    pointer: 60,
};

/// What becomes of a datagram that came by link 1 and may be answered, in a buffer.
fn answered_into(
    config: &Config,
    bytes: &[u8],
    problem: &Problem,
    out: &mut [u8; LONGEST_ANSWER],
) -> AnswerLen {
    if !is_answerable(bytes, problem) {
        return AnswerLen::Drop(Cause::Header);
    }
    answer_into(config, 1, NEIGHBOUR, IN_TIME, bytes, problem, out)
}

/// Whether it is an answer of this length to link 1's other end.
fn is_sent(answer: AnswerLen, wanted: usize) -> bool {
    let sent = AnswerLen::Send {
        link: 1,
        to: None,
        len: wanted,
    };
    answer == sent
}

/// Whether the bytes are an SCMP message to the sender of the first datagram that tells it of its wrong MAC and quotes
/// it.
fn tells_of_the_mac(answer: &[u8]) -> bool {
    match answer.get(84..184) {
        Some([4, 51, _, _, 0, 0, 0, 60, quote @ ..]) => quote == FIRST.as_slice(),
        _ => false,
    }
}

#[test]
fn answers_by_bfd_or_by_scmp(rt: HostRuntime) {
    let config = read_config(rt.alloc(), CONFIGURATION).expect(&rt, "configuration");
    let mut out = [0x55; LONGEST_ANSWER];
    let by_bfd = answered_into(&config, &POLL, &CONTROL, &mut out);
    assert!(rt; is_sent(by_bfd, 92) && out.starts_with(&FINAL), "BFD");
    let by_scmp = answered_into(&config, &FIRST, &WRONG_MAC, &mut out);
    assert!(rt; is_sent(by_scmp, 184) && tells_of_the_mac(&out), "SCMP");
    // at the first hop of all there is no way back
    let mut first = FIRST;
    first[PATH_AT] = 0;
    let by_scmp = answered_into(&config, &first, &WRONG_MAC, &mut out);
    assert!(rt; by_scmp == AnswerLen::Drop(Cause::NoWayBack), "no answer");
    drop(config);
}

/// Whether these are the bytes that leave by link 1.
fn is_sent_with(answered: &Answered, wanted: &[u8]) -> bool {
    match answered {
        Answered::Send { link, to, bytes } => {
            *link == 1 && to.is_none() && bytes.as_slice() == wanted
        }
        Answered::Drop(_) => false,
    }
}

#[test]
fn answers_bfd_with_bytes_of_their_own(rt: HostRuntime) {
    let config = read_config(rt.alloc(), CONFIGURATION).expect(&rt, "configuration");
    let arrival = Arrival {
        link: 1,
        number: 1,
        source: NEIGHBOUR,
        now: IN_TIME,
        bytes: Vec::from_slice(rt.alloc(), &POLL).expect(&rt, "memory"),
    };
    assert!(rt; is_answerable(arrival.bytes.as_slice(), &CONTROL));
    let answered = answer(rt.alloc(), &config, &arrival, &CONTROL).expect(&rt, "memory");
    assert!(rt; is_sent_with(&answered, &FINAL));
    drop(config);
}
