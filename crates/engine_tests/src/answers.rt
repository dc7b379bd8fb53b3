//! Answers to what the decision answers.

use crate::sound::is_sound;
use process_packet::{Arrival, Cause, Config, Ip, Problem, Underlay};
use router_config::read_config;
use sample_packets::{
    ANSWER, CONFIGURATION, FIRST, MAC_AT, OTHER_MAC, PATH_AT, PAYLOAD_AT, with_bytes,
};
use scmp_answer::{AnswerLen, Answered, answer, answer_into};
use std::test::*;

/// Where the datagrams come from.
pub(crate) const NEIGHBOUR: Underlay = Underlay {
    ip: Ip::V4([10, 1, 0, 2]),
    port: 40000,
};

/// Its second hop has expired.
const EXPIRED: Problem = Problem {
    kind: 4,
    code: 52,
    pointer: 60,
};

/// Its payload is shorter or longer than its header tells.
const PAYLOAD_LENGTH: Problem = Problem {
    kind: 4,
    code: 19,
    pointer: 0,
};

/// Whether the buffer begins with the answer whose payload has this length: with this message and this
/// quote.
fn begins_with_answer(out: &[u8], payload_length: u8, message: &[u8], quote: &[u8]) -> bool {
    let mut front = with_bytes(ANSWER, MAC_AT, &OTHER_MAC);
    front[7] = payload_length;
    match out.strip_prefix(&front[..PAYLOAD_AT]) {
        Some(payload) => match payload.strip_prefix(message) {
            Some(quoted) => quoted.starts_with(quote),
            None => false,
        },
        None => false,
    }
}

/// Whether the datagram is answered by the link by which it came, with a payload of this length that has
/// this message.
fn is_answered(
    config: &Config,
    link: u16,
    bytes: &[u8],
    problem: &Problem,
    payload_length: u8,
    message: &[u8],
) -> bool {
    if !is_sound(bytes) {
        return false;
    }
    let mut out = [0x55; 1232];
    match answer_into(config, link, NEIGHBOUR, bytes, problem, &mut out) {
        AnswerLen::Send {
            link: back,
            to: None,
            len,
        } => {
            back == link
                && len == usize::from(payload_length) + 84
                && begins_with_answer(&out, payload_length, message, bytes)
        }
        _ => false,
    }
}

/// The first datagram with another MAC.
fn with_other_mac() -> [u8; 92] {
    with_bytes(FIRST, MAC_AT, &OTHER_MAC)
}

fn answers_an_expired_hop(config: &Config) -> bool {
    is_answered(
        config,
        1,
        &with_other_mac(),
        &EXPIRED,
        100,
        b"\x04\x34\xe2\xbd\x00\x00\x00\x3c",
    )
}

fn answers_a_wrong_payload_length(config: &Config) -> bool {
    let datagram = with_bytes(with_other_mac(), 7, &[9]);
    is_answered(
        config,
        1,
        &datagram,
        &PAYLOAD_LENGTH,
        100,
        b"\x04\x13\xe3\x19\x00\x00\x00\x00",
    )
}

fn answers_a_cut_datagram(config: &Config) -> bool {
    let datagram = with_bytes(FIRST, MAC_AT, &OTHER_MAC);
    is_answered(
        config,
        1,
        &datagram[..PAYLOAD_AT],
        &PAYLOAD_LENGTH,
        92,
        b"\x04\x13\xcd\xdd\x00\x00\x00\x00",
    )
}

fn answers_by_another_link(config: &Config) -> bool {
    let problem = Problem {
        kind: 4,
        code: 49,
        pointer: 60,
    };
    is_answered(
        config,
        2,
        &with_other_mac(),
        &problem,
        100,
        b"\x04\x31\xe2\xc0\x00\x00\x00\x3c",
    )
}

fn answers_for_no_service(config: &Config) -> bool {
    let problem = Problem {
        kind: 1,
        code: 0,
        pointer: 7,
    };
    is_answered(
        config,
        1,
        &with_other_mac(),
        &problem,
        100,
        b"\x01\x00\xe6\x2d\x00\x00\x00\x00",
    )
}

#[test]
fn answers_by_the_way_back(rt: HostRuntime) {
    let config = read_config(rt.alloc(), CONFIGURATION).expect(&rt, "configuration");
    assert!(rt; answers_an_expired_hop(&config), "an expired hop");
    assert!(rt;
        answers_a_wrong_payload_length(&config),
        "a wrong payload length"
    );
    assert!(rt; answers_a_cut_datagram(&config), "a cut datagram");
    assert!(rt; answers_by_another_link(&config), "by another link");
    assert!(rt;
        answers_for_no_service(&config),
        "no such service: the pointer is not told"
    );
    drop(config);
}

/// The first datagram, with an extension header.
fn extended() -> [u8; 92] {
    with_bytes(with_other_mac(), 4, &[0xc8])
}

fn answers_an_informational_message(config: &Config) -> bool {
    let datagram = with_bytes(extended(), PAYLOAD_AT, b"\xca\x00\x00\x00\x80\x00");
    is_answered(
        config,
        1,
        &datagram,
        &EXPIRED,
        100,
        b"\x04\x34\xcc\x76\x00\x00\x00\x3c",
    )
}

fn answers_behind_two_extensions(config: &Config) -> bool {
    let datagram = with_bytes(extended(), PAYLOAD_AT, b"\xc8\x00\x00\x00\x04\x33");
    is_answered(
        config,
        1,
        &datagram,
        &EXPIRED,
        100,
        b"\x04\x34\x4a\x44\x00\x00\x00\x3c",
    )
}

#[test]
fn answers_what_is_no_error_message(rt: HostRuntime) {
    let config = read_config(rt.alloc(), CONFIGURATION).expect(&rt, "configuration");
    assert!(rt;
        answers_an_informational_message(&config),
        "an informational SCMP message"
    );
    assert!(rt;
        answers_behind_two_extensions(&config),
        "two hop-by-hop extensions"
    );
    drop(config);
}

/// A traceroute request to the ingress router of its second hop.
fn request() -> [u8; 108] {
    let mut bytes = [0; 108];
    bytes[..84].copy_from_slice(&with_bytes(FIRST, MAC_AT, &OTHER_MAC)[..84]);
    bytes[4] = 202;
    bytes[7] = 24;
    bytes[60] = 2;
    bytes[84..92].copy_from_slice(b"\x82\x00\x00\x00\x00\x07\x00\x03");
    bytes
}

/// Whether the request gets this reply with its interface.
fn is_replied(config: &Config, interface: u16, message: &[u8]) -> bool {
    let bytes = request();
    let problem = Problem {
        kind: 131,
        code: 0,
        pointer: interface,
    };
    if !is_sound(&bytes) {
        return false;
    }
    let mut out = [0x55; 1232];
    let result = answer_into(config, 1, NEIGHBOUR, &bytes, &problem, &mut out);
    let wanted = AnswerLen::Send {
        link: 1,
        to: None,
        len: 108,
    };
    result == wanted && begins_with_answer(&out, 24, message, &[0x55])
}

#[test]
fn replies_to_traceroute_requests(rt: HostRuntime) {
    let config = read_config(rt.alloc(), CONFIGURATION).expect(&rt, "configuration");
    assert!(rt;
        is_replied(
            &config,
            1,
            b"\x83\x00\x67\xd4\x00\x07\x00\x03\x00\x01\xff\x00\x00\x00\x01\x10\x00\x00\x00\x00\x00\x00\x00\x01"
        )
    );
    assert!(rt;
        is_replied(
            &config,
            2,
            b"\x83\x00\x67\xd3\x00\x07\x00\x03\x00\x01\xff\x00\x00\x00\x01\x10\x00\x00\x00\x00\x00\x00\x00\x02"
        )
    );
    drop(config);
}

/// Whether the datagram has no fault, and the problem isn't answered for this cause.
fn is_dropped(config: &Config, bytes: &[u8], problem: &Problem, cause: Cause) -> bool {
    if !is_sound(bytes) {
        return false;
    }
    let mut out = [0x55; 1232];
    answer_into(config, 1, NEIGHBOUR, bytes, problem, &mut out) == AnswerLen::Drop(cause)
}

/// An SCMP message of this type and code.
fn scmp(message: [u8; 2]) -> [u8; 92] {
    with_bytes(with_bytes(FIRST, 4, &[202]), PAYLOAD_AT, &message)
}

fn drops_a_cut_message(config: &Config) -> bool {
    let error = with_bytes(with_bytes(FIRST, 4, &[202]), PAYLOAD_AT, &[4, 0]);
    is_dropped(config, &error[..PAYLOAD_AT], &EXPIRED, Cause::NoAnswer)
}

fn drops_one_behind_an_extension(config: &Config) -> bool {
    let extended = with_bytes(with_bytes(FIRST, 4, &[200]), PAYLOAD_AT, &[202, 0]);
    is_dropped(config, &extended[..89], &EXPIRED, Cause::NoAnswer)
}

fn drops_a_cut_extension(config: &Config) -> bool {
    let options = with_bytes(with_bytes(FIRST, 4, &[201]), PAYLOAD_AT, &[17, 2]);
    is_dropped(config, &options, &EXPIRED, Cause::NoAnswer)
}

#[test]
fn drops_what_may_be_an_error_message(rt: HostRuntime) {
    let config = read_config(rt.alloc(), CONFIGURATION).expect(&rt, "configuration");
    assert!(rt;
        is_dropped(&config, &scmp([4, 0]), &EXPIRED, Cause::NoAnswer),
        "an error message"
    );
    assert!(rt;
        is_dropped(&config, &scmp([127, 0]), &EXPIRED, Cause::NoAnswer),
        "the last type of one"
    );
    assert!(rt; drops_a_cut_message(&config), "a cut message");
    assert!(rt;
        drops_one_behind_an_extension(&config),
        "behind an extension"
    );
    assert!(rt; drops_a_cut_extension(&config), "a cut extension");
    drop(config);
}

#[test]
fn drops_what_has_no_way_back(rt: HostRuntime) {
    let config = read_config(rt.alloc(), CONFIGURATION).expect(&rt, "configuration");
    let first = with_bytes(FIRST, PATH_AT, &[0]);
    assert!(rt;
        is_dropped(&config, &first, &EXPIRED, Cause::NoWayBack),
        "a problem"
    );
    let request = Problem {
        kind: 131,
        code: 0,
        pointer: 1,
    };
    assert!(rt;
        is_dropped(&config, &first, &request, Cause::NoWayBack),
        "a request"
    );
    drop(config);
}

/// Two segments of two hops with all flags and reserved bits set, at the second segment's first hop.
const TWO_SEGMENTS: [u8; 112] = *b"\x0b\x8f\xff\xff\x11\x1a\x00\x08\x01\x00\xab\xcd\
    \x00\x01\xff\x00\x00\x00\x01\x12\x00\x01\xff\x00\x00\x00\x01\x11\x0a\x02\x00\x07\x0a\x01\x00\x05\
    \x42\x54\x20\x80\xfd\x77\x11\x22\x65\x00\x00\x00\x00\x01\x33\x44\x65\x00\x00\x01\
    \xff\x3f\x00\x01\x00\x02\x10\x11\x12\x13\x14\x15\
    \x02\x3f\x00\x02\x00\x03\x20\x21\x22\x23\x24\x25\
    \x01\x3f\x00\x03\x00\x04\x30\x31\x32\x33\x34\x35\
    \x00\x3f\x00\x04\x00\x05\x40\x41\x42\x43\x44\x45\
    \x75\x59\x75\x59\x00\x08\x00\x00";

/// The answer to it before its quote.
const TWO_SEGMENTS_BACK: [u8; 112] = *b"\x0b\x8f\xff\xff\xca\x1a\x00\x78\x01\x00\x00\x00\
    \x00\x01\xff\x00\x00\x00\x01\x11\x00\x01\xff\x00\x00\x00\x01\x10\x0a\x01\x00\x05\x0a\x00\x00\x01\
    \x42\x00\x20\x80\x01\x00\x33\x44\x65\x00\x00\x01\x00\x00\x11\x22\x65\x00\x00\x00\
    \x00\x3f\x00\x04\x00\x05\x40\x41\x42\x43\x44\x45\
    \x00\x3f\x00\x03\x00\x04\x30\x31\x32\x33\x34\x35\
    \x00\x3f\x00\x02\x00\x03\x20\x21\x22\x23\x24\x25\
    \x00\x3f\x00\x01\x00\x02\x10\x11\x12\x13\x14\x15\
    \x04\x34\xb1\xcd\x00\x00\x00\x50";

/// Its second segment's first hop has expired.
const EXPIRED_THERE: Problem = Problem {
    kind: 4,
    code: 52,
    pointer: 80,
};

/// Whether the answer goes to this address inside, and quotes the datagram whole.
fn is_back_inside(answered: &Answered, source: Underlay) -> bool {
    match answered {
        Answered::Send { link, to, bytes } => {
            *link == 0
                && *to == Some(source)
                && bytes.as_slice().strip_prefix(TWO_SEGMENTS_BACK.as_slice())
                    == Some(TWO_SEGMENTS.as_slice())
        }
        Answered::Drop(_) => false,
    }
}

fn has_no_way_back(answered: &Answered) -> bool {
    match answered {
        Answered::Send { .. } => false,
        Answered::Drop(cause) => *cause == Cause::NoWayBack,
    }
}

#[test]
fn answers_with_bytes_of_their_own(rt: HostRuntime) {
    let config = read_config(rt.alloc(), CONFIGURATION).expect(&rt, "configuration");
    let source = Underlay {
        ip: Ip::V4([10, 0, 0, 2]),
        port: 30000,
    };
    let arrival = Arrival {
        link: 0,
        number: 1,
        source,
        now: 0,
        bytes: Vec::from_slice(rt.alloc(), &TWO_SEGMENTS).expect(&rt, "memory"),
    };
    assert!(rt; is_sound(arrival.bytes.as_slice()));
    let answered = answer(rt.alloc(), &config, &arrival, &EXPIRED_THERE).expect(&rt, "memory");
    assert!(rt; is_back_inside(&answered, source), "within the AS");
    // from outside the same hop is the first of its segment
    let outside = Arrival { link: 1, ..arrival };
    assert!(rt; is_sound(outside.bytes.as_slice()));
    let answered = answer(rt.alloc(), &config, &outside, &EXPIRED_THERE).expect(&rt, "memory");
    assert!(rt; has_no_way_back(&answered), "from outside");
    drop(config);
}

/// 9,216 bytes between IPv6 hosts over 64 hops, each with its number as its egress; its payload length is
/// wrong.
fn longest() -> [u8; 9216] {
    let mut bytes = [0; 9216];
    bytes[..12].copy_from_slice(b"\x00\x00\x00\x01\x11\xd6\x20\xa9\x01\x33\x00\x00");
    bytes[12..28].copy_from_slice(&FIRST[12..28]);
    (bytes[28], bytes[43], bytes[44], bytes[59]) = (0xfd, 7, 0xfd, 5);
    bytes[60..64].copy_from_slice(b"\x01\x01\x65\x55");
    (bytes[64], bytes[72], bytes[80]) = (1, 1, 1);
    for k in 0..64u8 {
        bytes[93 + 12 * usize::from(k)] = k;
    }
    bytes
}

/// Where the hop fields of its answer begin.
const HOPS_AT: usize = 76;

/// Whether the answer goes back over the 64 hops, and quotes as much as it has room for.
fn is_longest_answer(out: &[u8; 1232], datagram: &[u8]) -> bool {
    let header = *b"\x00\x00\x00\x01\xca\xd3\x01\x84\x01\x30\x00\x00\
        \x00\x01\xff\x00\x00\x00\x01\x11\x00\x01\xff\x00\x00\x00\x01\x10\
        \xfd\x00\x00\x00\x00\x00\x00\x00\x00\x00\x00\x00\x00\x00\x00\x05\x0a\x00\x00\x01\
        \xbf\x01\x55\x56";
    let mut good = out.starts_with(header.as_slice());
    for k in 0..64u8 {
        good = good && out[HOPS_AT + 12 * usize::from(k) + 5] == 63 - k;
    }
    good && out[844..].starts_with(b"\x04\x13\x5a\x20\x00\x00\x00\x00".as_slice())
        && datagram.starts_with(&out[852..])
}

#[test]
fn cuts_the_quote_to_the_longest_answer(rt: HostRuntime) {
    let config = read_config(rt.alloc(), CONFIGURATION).expect(&rt, "configuration");
    let bytes = longest();
    assert!(rt; is_sound(&bytes));
    let mut out = [0x55; 1232];
    let result = answer_into(&config, 1, NEIGHBOUR, &bytes, &PAYLOAD_LENGTH, &mut out);
    let wanted = AnswerLen::Send {
        link: 1,
        to: None,
        len: 1232,
    };
    assert!(rt; result == wanted);
    assert!(rt; is_longest_answer(&out, &bytes));
    drop(config);
}
