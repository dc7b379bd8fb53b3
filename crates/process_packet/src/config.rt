//! What a border router's configuration says of itself and of its AS.

ghost use Rattle.std.specs.Prelude.{◌≤◌, ◌<◌, ◌^◌, ◌++◌, IsTrue, map, length};
ghost use Rattle.std.specs.List.{list_all};
ghost use Rattle.process_packet.specs.Underlay.{is_whole};
ghost use Rattle.process_packet.specs.Neighbours.{are_distinct, has_port, is_link, is_range_if_there, is_service, is_sibling, link_id, service_number, sibling_id};

use crate::neighbours::{Bands, Link, Service, Sibling};
use crate::port_range::PortRange;
use crate::underlay::Underlay;
use cmac_core::Cmac;

/// The configuration of a border router. Its type keeps each value's range, the limits of the lists,
/// and that no interface and no service is listed twice.
pub struct Config {
    /// The isolation domain of the local AS, at least 1.
    pub isd: u16,
    /// The number of the local AS, 48 bits, at least 1.
    pub autonomous_system: u64,
    /// The forwarding key of the AS, ready to make the MACs of its hop fields.
    pub key: Cmac,
    /// The address and port of this router within the AS.
    pub internal: Underlay,
    /// The bands of the internal network, as of a link.
    pub internal_bands: Bands,
    /// The port at which end hosts of the AS listen that have a dispatcher.
    pub host_port: u16,
    /// The ports at which applications on end hosts listen themselves; none where all have a dispatcher.
    pub dispatched_ports: Option<PortRange>,
    /// How many processors take packets side by side, 1 to 16.
    pub processors: u8,
    /// How many packets each queue holds, 1 to 65,536.
    pub capacity: u32,
    /// What flows are spread over the processors by.
    pub seed: u32,
    /// How many buffers each link has, 2 to 65,536.
    pub buffers: u32,
    /// The links of this router to other ASes, 1 to 32.
    pub links: Vec<Link>,
    /// The interfaces of the AS's other routers, at most 256.
    pub siblings: Vec<Sibling>,
    /// The services of the AS, at most 64.
    pub services: Vec<Service>,
    pub ghost isd_is_there: { 1 ≤ isd },
    pub ghost isd_fits: { isd < 2 ^ 16 },
    pub ghost autonomous_system_is_there: { 1 ≤ autonomous_system },
    pub ghost autonomous_system_fits: { autonomous_system < 2 ^ 48 },
    pub ghost internal_has_a_port: { IsTrue (has_port internal) },
    pub ghost internal_ip_is_whole: { IsTrue (is_whole internal.ip) },
    pub ghost host_port_is_there: { 1 ≤ host_port },
    pub ghost dispatched_ports_are_a_range: { IsTrue (is_range_if_there dispatched_ports) },
    pub ghost some_processors: { 1 ≤ processors },
    pub ghost few_processors: { processors ≤ 16 },
    pub ghost some_capacity: { 1 ≤ capacity },
    pub ghost small_capacity: { capacity ≤ 65536 },
    pub ghost some_buffers: { 2 ≤ buffers },
    pub ghost few_buffers: { buffers ≤ 65536 },
    pub ghost some_links: { 1 ≤ length links.items },
    pub ghost few_links: { length links.items ≤ 32 },
    pub ghost few_siblings: { length siblings.items ≤ 256 },
    pub ghost few_services: { length services.items ≤ 64 },
    pub ghost links_are_whole: { IsTrue (list_all is_link links.items) },
    pub ghost siblings_are_whole: { IsTrue (list_all is_sibling siblings.items) },
    pub ghost services_are_whole: { IsTrue (list_all is_service services.items) },
    pub ghost interfaces_are_distinct: { IsTrue (are_distinct (map link_id links.items ++ map sibling_id siblings.items)) },
    pub ghost services_are_distinct: { IsTrue (are_distinct (map service_number services.items)) },
}

impl Drop for Config {
    fn drop(self) {
        let Config {
            isd: _,
            autonomous_system: _,
            key: _,
            internal: _,
            internal_bands: _,
            host_port: _,
            dispatched_ports: _,
            processors: _,
            capacity: _,
            seed: _,
            buffers: _,
            links: _,
            siblings: _,
            services: _,
        } = self;
    }
}
