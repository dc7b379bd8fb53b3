//! Nets that agree, and nets that don't for one clause alone.

use crate::wires::{end, wire};
use net_check::{is_wired, net_of_configs, open_words, words_of};
use net_laws::{End, Net, Wire, agrees, misfit_of};
use router_config::read_config;
use std::process::Abort;

/// Two routers of 1-ff00:0:110 and one of 1-ff00:0:111 below it: for each the lines of its configuration.
const TOLD: [[&str; 8]; 3] = [
    [
        "isd_as = \"1-ff00:0:110\"\n",
        "key = \"2b7e151628aed2a6abf7158809cf4f3c\"\n",
        "internal = \"10.0.0.1:30000\"\n",
        "host_port = 30041\n",
        "link = [{id=1, kind=\"child\", local=\"10.1.0.1:40000\", remote=\"10.1.0.2:40000\"}]\n",
        "sibling = [{id=2, kind=\"core\", at=\"10.0.0.2:30000\"}]\n",
        "service = [{number=2, at=\"10.0.0.9:30252\"}]\n",
        "dispatched_ports = [1024, 65535]\n",
    ],
    [
        "isd_as = \"1-ff00:0:110\"\n",
        "key = \"2b7e151628aed2a6abf7158809cf4f3c\"\n",
        "internal = \"10.0.0.2:30000\"\n",
        "host_port = 30041\n",
        "link = [{id=2, kind=\"core\", local=\"10.3.0.1:40000\", remote=\"10.3.0.2:40000\"}]\n",
        "sibling = [{id=1, kind=\"child\", at=\"10.0.0.1:30000\"}]\n",
        "service = [{number=2, at=\"10.0.0.9:30252\"}]\n",
        "dispatched_ports = [1024, 65535]\n",
    ],
    [
        "isd_as = \"1-ff00:0:111\"\n",
        "key = \"000102030405060708090a0b0c0d0e0f\"\n",
        "internal = \"10.0.0.1:30000\"\n",
        "host_port = 30042\n",
        "link = [{id=17, kind=\"parent\", local=\"10.1.0.2:40000\", remote=\"10.1.0.1:40000\"}]\n",
        "sibling = []\n",
        "service = []\n",
        "dispatched_ports = [31000, 32767]\n",
    ],
];

const KEY: usize = 1;

const INTERNAL: usize = 2;

const HOST_PORT: usize = 3;

const LINK: usize = 4;

const SIBLING: usize = 5;

const SERVICE: usize = 6;

const PORTS: usize = 7;

/// A line of a router's configuration, told otherwise.
type Change = (usize, usize, &'static str);

const NONE: Change = (3, 0, "");

/// Nets that don't agree, each for the clause that is named.
const CASES: [(&str, [Change; 2]); 20] = [
    (
        "key",
        [
            (1, KEY, "key = \"2b7e151628aed2a6abf7158809cf4f3d\"\n"),
            NONE,
        ],
    ),
    ("host port", [(1, HOST_PORT, "host_port = 30042\n"), NONE]),
    (
        "first of the ports",
        [(1, PORTS, "dispatched_ports = [1025, 65535]\n"), NONE],
    ),
    (
        "last of the ports",
        [(1, PORTS, "dispatched_ports = [1024, 65534]\n"), NONE],
    ),
    ("ports on one side", [(1, PORTS, ""), NONE]),
    (
        "service's address",
        [
            (
                1,
                SERVICE,
                "service = [{number=2, at=\"10.0.0.8:30252\"}]\n",
            ),
            NONE,
        ],
    ),
    (
        "service's number",
        [
            (
                1,
                SERVICE,
                "service = [{number=1, at=\"10.0.0.9:30252\"}]\n",
            ),
            NONE,
        ],
    ),
    (
        "service on one side",
        [(1, SERVICE, "service = []\n"), NONE],
    ),
    (
        "same internal address",
        [
            (1, INTERNAL, "internal = \"10.0.0.1:30000\"\n"),
            (
                0,
                SIBLING,
                "sibling = [{id=2, kind=\"core\", at=\"10.0.0.1:30000\"}]\n",
            ),
        ],
    ),
    (
        "interface not listed",
        [(0, SIBLING, "sibling = []\n"), NONE],
    ),
    (
        "interface's owner",
        [
            (
                0,
                SIBLING,
                "sibling = [{id=2, kind=\"core\", at=\"10.0.0.3:30000\"}]\n",
            ),
            NONE,
        ],
    ),
    (
        "interface's kind",
        [
            (
                0,
                SIBLING,
                "sibling = [{id=2, kind=\"child\", at=\"10.0.0.2:30000\"}]\n",
            ),
            NONE,
        ],
    ),
    (
        "interface in common",
        [
            (
                1,
                LINK,
                "link = [{id=1, kind=\"core\", local=\"10.3.0.1:40000\", remote=\"10.3.0.2:40000\"}]\n",
            ),
            (1, SIBLING, "sibling = []\n"),
        ],
    ),
    (
        "one remote",
        [
            (
                2,
                LINK,
                "link = [{id=17, kind=\"parent\", local=\"10.1.0.2:40000\", remote=\"10.1.0.3:40000\"}]\n",
            ),
            NONE,
        ],
    ),
    (
        "other remote",
        [
            (
                2,
                LINK,
                "link = [{id=17, kind=\"parent\", local=\"10.1.0.3:40000\", remote=\"10.1.0.1:40000\"}]\n",
            ),
            NONE,
        ],
    ),
    (
        "kinds",
        [
            (
                2,
                LINK,
                "link = [{id=17, kind=\"core\", local=\"10.1.0.2:40000\", remote=\"10.1.0.1:40000\"}]\n",
            ),
            NONE,
        ],
    ),
    (
        "one end's neighbour",
        [
            (
                0,
                LINK,
                "link = [{id=1, kind=\"child\", local=\"10.1.0.1:40000\", remote=\"10.1.0.2:40000\", neighbor=\"1-ff00:0:112\"}]\n",
            ),
            NONE,
        ],
    ),
    (
        "other end's neighbour",
        [
            (
                2,
                LINK,
                "link = [{id=17, kind=\"parent\", local=\"10.1.0.2:40000\", remote=\"10.1.0.1:40000\", neighbor=\"1-ff00:0:112\"}]\n",
            ),
            NONE,
        ],
    ),
    (
        "neighbour's isolation domain",
        [
            (
                2,
                LINK,
                "link = [{id=17, kind=\"parent\", local=\"10.1.0.2:40000\", remote=\"10.1.0.1:40000\", neighbor=\"2-ff00:0:110\"}]\n",
            ),
            NONE,
        ],
    ),
    (
        "link's number",
        [
            (
                2,
                LINK,
                "link = [{id=18, kind=\"parent\", local=\"10.1.0.2:40000\", remote=\"10.1.0.1:40000\"}]\n",
            ),
            NONE,
        ],
    ),
];

/// The line as it is, or as one of the changes tells it.
fn line(router: usize, number: usize, told: &'static str, changes: [Change; 2]) -> &'static str {
    for (place, at, text) in changes {
        if place == router && at == number {
            return text;
        }
    }
    told
}

fn net(rt: &(impl AllocGlobal + Abort), changes: [Change; 2], wires: &[Wire]) -> Net {
    let mut configs = Vec::new(rt.alloc());
    for (router, lines) in TOLD.iter().enumerate() {
        let mut text = String::new(rt.alloc());
        text.push_str("version = 1\nprocessors = 1\ncapacity = 4\nseed = 0\n")
            .expect(rt, "text");
        for (number, told) in lines.iter().enumerate() {
            text.push_str(line(router, number, told, changes))
                .expect(rt, "text");
        }
        let config = read_config(rt.alloc(), text.as_str()).expect(rt, "config");
        configs.push(config).expect(rt, "configs");
    }
    let wires = Vec::from_slice(rt.alloc(), wires).expect(rt, "wires");
    Net { configs, wires }
}

#[test]
fn agrees_only_where_each_clause_holds(rt: HostRuntime) {
    let wired = [wire(end(0, 1), end(2, 17))];
    assert!(rt; agrees(&net(&rt, [NONE, NONE], &wired)));
    assert!(rt; agrees(&net(&rt, [NONE, NONE], &[])));
    for (clause, changes) in CASES {
        assert!(rt; !agrees(&net(&rt, changes, &wired)), "{clause}");
    }
}

#[test]
fn agrees_where_ends_name_each_other(rt: HostRuntime) {
    let named = [
        (
            0,
            LINK,
            "link = [{id=1, kind=\"child\", local=\"10.1.0.1:40000\", remote=\"10.1.0.2:40000\", neighbor=\"1-ff00:0:111\"}]\n",
        ),
        (
            2,
            LINK,
            "link = [{id=17, kind=\"parent\", local=\"10.1.0.2:40000\", remote=\"10.1.0.1:40000\", neighbor=\"1-ff00:0:110\"}]\n",
        ),
    ];
    assert!(rt; agrees(&net(&rt, named, &[wire(end(0, 1), end(2, 17))])));
}

#[test]
fn a_link_is_on_one_wire(rt: HostRuntime) {
    let one = wire(end(0, 1), end(2, 17));
    let back = wire(end(2, 17), end(0, 1));
    assert!(rt; agrees(&net(&rt, [NONE, NONE], &[back])));
    assert!(rt; !agrees(&net(&rt, [NONE, NONE], &[one, one])));
    assert!(rt; !agrees(&net(&rt, [NONE, NONE], &[one, back])));
    assert!(rt; !agrees(&net(&rt, [NONE, NONE], &[wire(end(0, 1), end(3, 17))])));
    assert!(rt; !agrees(&net(&rt, [NONE, NONE], &[wire(end(0, 4), end(2, 17))])));
    assert!(rt; !agrees(&net(&rt, [NONE, NONE], &[wire(end(0, 1), end(0, 1))])));
    let empty = Net {
        configs: Vec::new(rt.alloc()),
        wires: Vec::new(rt.alloc()),
    };
    assert!(rt; agrees(&empty));
}

/// The net that the configurations make by themselves.
fn made(rt: &(impl AllocGlobal + Abort), changes: [Change; 2]) -> Net {
    let Net { configs, .. } = net(rt, changes, &[]);
    net_of_configs(rt.alloc(), configs).expect(rt, "net")
}

#[test]
fn configurations_make_a_net(rt: HostRuntime) {
    let net = made(&rt, [NONE, NONE]);
    assert!(rt; misfit_of(&net).is_none());
    assert!(rt; net.configs.len() == 3 && net.wires.len() == 1);
    assert!(rt; is_wired(&net, &end(0, 1)) && is_wired(&net, &end(2, 17)));
    assert!(rt; !is_wired(&net, &end(1, 2)));
    let link = net.configs[1].links[0];
    let words = open_words(rt.alloc(), "b", &link).expect(&rt, "words");
    assert!(rt;
        words.as_str() == "link 2 in b leads to 10.3.0.2:40000, which is in none of these files"
    );
}

/// Changes of the net, and what it says of the first thing that doesn't fit then.
const MISFITS: [(&str, [Change; 2]); 3] = [
    (
        "`key` of a is not that of b; both are of 1-ff00:0:110",
        [
            (1, KEY, "key = \"2b7e151628aed2a6abf7158809cf4f3d\"\n"),
            NONE,
        ],
    ),
    (
        "`kind` of link 1 in a is \"core\", and that of its other end, link 17 in c, is \"parent\"; wanted there: \"core\"",
        [
            (
                0,
                LINK,
                "link = [{id=1, kind=\"core\", local=\"10.1.0.1:40000\", remote=\"10.1.0.2:40000\"}]\n",
            ),
            (
                1,
                SIBLING,
                "sibling = [{id=1, kind=\"core\", at=\"10.0.0.1:30000\"}]\n",
            ),
        ],
    ),
    (
        "`local` is 10.1.0.1:40000 of link 1 in a and of link 2 in b: link 17 in c has two other ends",
        [
            (
                1,
                LINK,
                "link = [{id=2, kind=\"child\", local=\"10.1.0.1:40000\", remote=\"10.1.0.2:40000\"}]\n",
            ),
            (
                0,
                SIBLING,
                "sibling = [{id=2, kind=\"child\", at=\"10.0.0.2:30000\"}]\n",
            ),
        ],
    ),
];

/// What `words_of` tells of the first misfit of a net of the files `a`, `b` and `c`.
fn tells(rt: &(impl AllocGlobal + Abort), net: &Net, wanted: &str) -> bool {
    let mut names = Vec::new(rt.alloc());
    for name in ["a", "b", "c"] {
        let name = String::from_str(rt.alloc(), name).expect(rt, "name");
        names.push(name).expect(rt, "names");
    }
    match misfit_of(net) {
        Some(misfit) => {
            let words = words_of(rt.alloc(), net, names.as_slice(), misfit).expect(rt, "words");
            words.as_str() == wanted
        }
        None => false,
    }
}

#[test]
fn misfits_are_told(rt: HostRuntime) {
    for (words, changes) in MISFITS {
        assert!(&rt; tells(&rt, &made(&rt, changes), words), "{words}");
    }
}
