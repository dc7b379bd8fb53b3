use config_text::push_config;
use serde_json::Value;
use topology::{Found, TopologyFault, read_topology};

const TOPOLOGY: &str =
    r#"{"isd_as": "1-ff00:0:110", "dispatched_ports": "31000-32767", "border_routers": {
    "br1": {"internal_addr": "10.0.0.1:30000", "interfaces": {
        "1": {"underlay": {"public": "10.1.0.1:40000", "remote": "10.1.0.2:40000"},
            "isd_as": "1-ff00:0:111", "link_to": "PARENT", "bfd": {"detect_mult": 3}},
        "5": {"underlay": {"local": "[fd00::1]:40000", "remote": "[fd00::2]:40000"},
            "isd_as": "2-64512", "link_to": "peer"},
        "7": {"underlay": {"local": "[fd00::1]:40000", "remote": "[fd00::2]:40000"},
            "isd_as": "1-ff00:0:112", "link_to": "child", "bfd": {"disable": true}}}},
    "br2": {"internal_addr": "10.0.0.2:30000", "interfaces": {
        "4": {"underlay": {}, "link_to": "core"}}}},
    "control_service": {"cs1": {"addr": "10.0.0.9:30252"}, "cs2": {"addr": "10.0.0.10:30252"}}}"#;

const CONFIGURATION: &[u8] = br#"version = 2
isd_as = "1-ff00:0:110"
key = "00ff"
internal = "10.0.0.1:30000"
internal_bands = 1
host_port = 30041
processors = 1
capacity = 1024
seed = 0
buffers = 2048
dispatched_ports = [31000, 32767]

[[link]]
id = 1
kind = "parent"
local = "10.1.0.1:40000"
remote = "10.1.0.2:40000"
bands = 1
neighbor = "1-ff00:0:111"
bfd = true

[[link]]
id = 7
kind = "child"
local = "[fd00:0:0:0:0:0:0:1]:40000"
remote = "[fd00:0:0:0:0:0:0:2]:40000"
bands = 1
neighbor = "1-ff00:0:112"

[[sibling]]
id = 4
kind = "core"
at = "10.0.0.2:30000"

[[service]]
number = 2
at = "10.0.0.9:30252"
"#;

// A topology with a part of each kind that is left out: a peering link, a timer and a further control service.
#[test]
fn tells_a_router_its_links(rt: HostRuntime) {
    let alloc = rt.alloc();
    let value = Value::from_str(alloc, TOPOLOGY).expect(&rt, "it is JSON");
    let Ok(topology) = read_topology(alloc, &value, "br1") else {
        panic!(rt; "it is a topology");
    };
    assert!(rt; topology.lists.left_out.len() == 3);
    let mut text = Vec::new(alloc);
    push_config(&mut text, &topology, b"00ff", topology.ports).expect(&rt, "memory");
    assert!(rt; text.as_slice() == CONFIGURATION);
}

#[test]
fn tells_another_router_nothing(rt: HostRuntime) {
    let alloc = rt.alloc();
    let value = Value::from_str(alloc, TOPOLOGY).expect(&rt, "it is JSON");
    match read_topology(alloc, &value, "br3") {
        Err(TopologyFault::Refused(refusal)) => {
            assert!(rt; refusal.key == "br3" && matches!(refusal.found, Found::Nothing));
        }
        _ => panic!(rt; "there is no such router"),
    }
}
