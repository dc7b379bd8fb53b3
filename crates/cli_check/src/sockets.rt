//! The sockets of a configuration, tried.

use cli_faults::Fault;
use config_warnings::Shown;
use process_packet::Config;
use router_rules::{interface_at, link_count};
use std::net::Net;
use std::rt::Clock;
use udp_devices::{ends_of, open_link};

/// Opens the socket of each link, in ascending order of the interfaces, and closes them all at the end. A line
/// on standard error tells of each that can't be had why. Answers the first of these; 0 is the internal
/// network.
pub(crate) fn open_each<R>(rt: &R, config: &Config) -> Result<Option<u16>, Fault>
where
    R: Eprint + AllocGlobal + Net + Clock + Copy + Drop,
{
    let mut held = Vec::new(rt.alloc());
    let mut first = None;
    for index in 0..link_count(config) {
        let link = interface_at(config, index);
        let ends = ends_of(config, link);
        match open_link(rt, ends) {
            Ok(devices) => held.push(devices)?,
            Err(error) => {
                let _ = eprintln!(rt; "socket {link} at {}: {error}", Shown(&ends.local));
                first = first.or(Some(link));
            }
        }
    }
    Ok(first)
}
