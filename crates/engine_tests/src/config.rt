//! The values of configurations and addresses, and a fault. `tests/lines` has the tables of faults.
use crate::links::{link, underlay};
use process_packet::{Bands, Config, Ip, Link, PortRange, Service, Sibling, Underlay};
use router_config::{ConfigFault, fault_words, push_underlay, read_config, read_underlay};
use sample_packets::CONFIGURATION as TEXT;
use scion_header::Domain;
use segment_switch::LinkKind;
use std::alloc::Global;
use std::process::Abort;

/// The tag of an empty message under the configuration's key, from RFC 4493.
const EMPTY_TAG: [u8; 16] = [
    0xbb, 0x1d, 0x69, 0x29, 0xe9, 0x59, 0x37, 0x28, 0x7f, 0xa3, 0x7d, 0x12, 0x9b, 0x75, 0x67, 0x46,
];

/// Whether a configuration has the values of the text, but for its links and what version 2 has more.
fn is_rest(config: &Config) -> bool {
    let siblings = [Sibling {
        id: 4,
        kind: LinkKind::Child,
        at: underlay([10, 0, 0, 2], 30000),
    }];
    let services = [Service {
        number: 2,
        at: underlay([10, 0, 0, 9], 30252),
    }];
    config.isd == 1
        && config.autonomous_system == 0xff00_0000_0110
        && config.key.tag(b"") == EMPTY_TAG
        && config.internal == underlay([10, 0, 0, 1], 30000)
        && config.host_port == 30041
        && (config.processors, config.capacity, config.seed) == (1, 4, 0)
        && config.siblings.as_slice() == siblings.as_slice()
        && config.services.as_slice() == services.as_slice()
}

#[test]
fn reads_a_configuration(rt: HostRuntime) {
    let config = read_config(rt.alloc(), TEXT).expect(&rt, "configuration");
    assert!(&rt; is_rest(&config));
    assert!(&rt; config.internal_bands == Bands::One);
    assert!(&rt; config.buffers == 64);
    assert!(&rt; config.dispatched_ports.is_none());
    let links = [
        link(1, LinkKind::Parent, 1, Bands::One),
        link(2, LinkKind::Child, 2, Bands::One),
        link(3, LinkKind::Core, 3, Bands::One),
    ];
    assert!(&rt; config.links.as_slice() == links.as_slice());
    drop(config);
}

/// The text with a part replaced.
fn changed(rt: &(impl AllocGlobal + Abort), text: &str, old: &str, new: &str) -> String {
    assert!(rt; text.contains(old), "{old}");
    text.replacen(rt.alloc(), old, new, 1).expect(rt, "text")
}

/// The text in version 2, with ports of applications: the internal network has one band, link 2 has two,
/// its other end is named, and BFD is answered there.
fn second(rt: &(impl AllocGlobal + Abort)) -> String {
    let text = changed(
        rt,
        TEXT,
        "version = 1",
        "version = 2\ninternal_bands = 1\ndispatched_ports = [31000, 32767]",
    );
    let text = changed(
        rt,
        text.as_str(),
        "10.1.0.2:40000\"",
        "10.1.0.2:40000\", bands=1",
    );
    let text = changed(
        rt,
        text.as_str(),
        "10.2.0.2:40000\"",
        "10.2.0.2:40000\", bands=2, neighbor=\"1-ff00:0:112\", bfd=true",
    );
    changed(
        rt,
        text.as_str(),
        "10.3.0.2:40000\"",
        "10.3.0.2:40000\", bands=1",
    )
}

#[test]
fn reads_the_second_version(rt: HostRuntime) {
    let config = read_config(rt.alloc(), second(&rt).as_str()).expect(&rt, "configuration");
    assert!(&rt; is_rest(&config));
    assert!(&rt; config.internal_bands == Bands::One);
    let ports = PortRange {
        first: 31000,
        last: 32767,
    };
    assert!(&rt; config.dispatched_ports == Some(ports));
    let mut child = link(2, LinkKind::Child, 2, Bands::Two);
    child.neighbor = Some(Domain {
        isd: 1,
        autonomous_system: 0xff00_0000_0112,
    });
    child.bfd = true;
    let links = [
        link(1, LinkKind::Parent, 1, Bands::One),
        child,
        link(3, LinkKind::Core, 3, Bands::One),
    ];
    assert!(&rt; config.links.as_slice() == links.as_slice());
    drop(config);
}

/// The number of a text's fault; 0 where it is a configuration.
fn fault_number(alloc: Global, text: &str) -> u8 {
    match read_config(alloc, text) {
        Ok(_) => 0,
        Err(fault) => fault.number(),
    }
}

/// Whether a text's fault is told in these words; none where it is a configuration.
fn is_told(alloc: Global, text: &str, words: Option<&str>) -> bool {
    match fault_words(alloc, text) {
        Ok(Some(told)) => words == Some(told.as_str()),
        Ok(None) => words.is_none(),
        Err(_) => false,
    }
}

/// The fault by its number and in its words.
#[test]
fn tells_a_fault(rt: HostRuntime) {
    let alloc = rt.alloc();
    let text = changed(&rt, TEXT, "version = 1", "version = 3");
    let words = "`version` is 3; wanted: 1 or 2";
    assert!(&rt; fault_number(alloc, text.as_str()) == 8);
    assert!(&rt; is_told(alloc, text.as_str(), Some(words)));
    assert!(&rt; is_told(alloc, TEXT, None));
}

/// An address and its text.
const ADDRESSES: [(&str, Underlay); 3] = [
    (
        "10.0.0.255:30000",
        Underlay {
            ip: Ip::V4([10, 0, 0, 255]),
            port: 30000,
        },
    ),
    (
        "0.0.0.0:1",
        Underlay {
            ip: Ip::V4([0; 4]),
            port: 1,
        },
    ),
    (
        "[fd00:1:20:300:4000:0:a:77]:65535",
        Underlay {
            ip: Ip::V6([0xfd, 0, 0, 1, 0, 0x20, 3, 0, 0x40, 0, 0, 0, 0, 0xa, 0, 0x77]),
            port: 65535,
        },
    ),
];

/// Whether a text is read as an address, and the address is printed so.
fn is_read_and_printed(alloc: Global, text: &str, address: &Underlay) -> bool {
    let mut printed = Vec::new(alloc);
    read_underlay(text) == Some(*address)
        && push_underlay(&mut printed, address).is_ok()
        && printed.as_slice() == text.as_bytes()
}

#[test]
fn prints_what_it_reads(rt: HostRuntime) {
    for (text, address) in ADDRESSES {
        assert!(&rt; is_read_and_printed(rt.alloc(), text, &address), "{text}");
    }
    // Both cases and leading zeros of a group are read; they aren't printed.
    let read = read_underlay("[FD00:0001:0020:300:4000:0:A:77]:65535");
    assert!(&rt; read == Some(ADDRESSES[2].1));
}

#[test]
fn answers_want_of_memory(rt: HostRuntime) {
    match read_config(rt.alloc(), TEXT) {
        Ok(config) => assert!(&rt; is_rest(&config)),
        Err(fault) => assert!(&rt; fault == ConfigFault::Memory),
    }
}
