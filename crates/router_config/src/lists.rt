//! The lists of a configuration.
ghost use Rattle.std.specs.Prelude.{◌≡◌, ◌≤◌, [], IfOk, IsTrue, length, map};
ghost use Rattle.std.specs.List.{list_all};
ghost use Rattle.toml.specs.View.{array_view, table_view};
ghost use Rattle.process_packet.specs.Neighbours.{are_distinct, is_link, is_service, is_sibling, link_id, service_number};
ghost use Rattle.router_config.specs.Fault.{Answers};
ghost use Rattle.router_config.specs.Neighbours.{at_most, link_values, links_at, links_of, service_of, services_at, sibling_of, siblings_at, taken};

use crate::entry::{Version, array_at};
use crate::fault::ConfigFault;
use crate::neighbours::{read_link, read_service, read_sibling};
use process_packet::{Link, Service, Sibling};
use std::alloc::Global;
use toml::Table;
use toml::value::Array;

/// The most links that a border router has.
pub(crate) const MOST_LINKS: usize = 32;

/// The most interfaces that its siblings have.
pub(crate) const MOST_SIBLINGS: usize = 256;

/// The most services that an AS has.
pub(crate) const MOST_SERVICES: usize = 64;

/// The links of an array, to other ASes than this one: one to 32 of them, with numbers of their own.
fn read_links(
    alloc: Global,
    version: Version,
    own: (u16, u64),
    members: &Array,
) -> Result<Vec<Link>, ConfigFault>
    ensures value { Answers (λ links. map link_values links.items) (links_of version own (array_view members.now)) result }
    ensures some { IfOk result (λ links. 1 ≤ length links.items) }
    ensures few { IfOk result (λ links. length links.items ≤ 32) }
    ensures whole { IfOk result (λ links. IsTrue (list_all is_link links.items)) }
    ensures distinct { IfOk result (λ links. IsTrue (are_distinct (taken links.items []))) }
{
    let count = members.len();
    if count == 0 {
        return Err(ConfigFault::Limit);
    }
    if count > MOST_LINKS {
        return Err(ConfigFault::Limit);
    }
    let mut links = Vec::new(alloc);
    for member in members {
        let link = match read_link(version, own, links.as_slice(), member) {
            Ok(link) => link,
            Err(fault) => return Err(fault),
        };
        match links.push(link) {
            Ok(()) => {}
            Err(_) => return Err(ConfigFault::Memory),
        }
    }
    Ok(links)
}

/// The siblings' interfaces of an array: at most 256, with numbers that are no link's and not another's.
fn read_siblings(
    alloc: Global,
    links: &[Link],
    members: &Array,
) -> Result<Vec<Sibling>, ConfigFault>
    requires { IsTrue (are_distinct (taken links.now [])) }
    ensures value { Answers (λ siblings. siblings.items) (at_most 256 (sibling_of (map link_id links.now)) (array_view members.now)) result }
    ensures few { IfOk result (λ siblings. length siblings.items ≤ 256) }
    ensures whole { IfOk result (λ siblings. IsTrue (list_all is_sibling siblings.items)) }
    ensures distinct { IfOk result (λ siblings. IsTrue (are_distinct (taken links.now siblings.items))) }
{
    if members.len() > MOST_SIBLINGS {
        return Err(ConfigFault::Limit);
    }
    let mut siblings = Vec::new(alloc);
    for member in members {
        let sibling = match read_sibling(links, siblings.as_slice(), member) {
            Ok(sibling) => sibling,
            Err(fault) => return Err(fault),
        };
        match siblings.push(sibling) {
            Ok(()) => {}
            Err(_) => return Err(ConfigFault::Memory),
        }
    }
    Ok(siblings)
}

/// The services of an array: at most 64, with numbers of their own.
fn read_services(alloc: Global, members: &Array) -> Result<Vec<Service>, ConfigFault>
    ensures value { Answers (λ services. services.items) (at_most 64 service_of (array_view members.now)) result }
    ensures few { IfOk result (λ services. length services.items ≤ 64) }
    ensures whole { IfOk result (λ services. IsTrue (list_all is_service services.items)) }
    ensures distinct { IfOk result (λ services. IsTrue (are_distinct (map service_number services.items))) }
{
    if members.len() > MOST_SERVICES {
        return Err(ConfigFault::Limit);
    }
    let mut services = Vec::new(alloc);
    for member in members {
        let service = match read_service(services.as_slice(), member) {
            Ok(service) => service,
            Err(fault) => return Err(fault),
        };
        match services.push(service) {
            Ok(()) => {}
            Err(_) => return Err(ConfigFault::Memory),
        }
    }
    Ok(services)
}

/// The links of a configuration, to other ASes than this one.
pub(crate) fn links_at(
    alloc: Global,
    version: Version,
    own: (u16, u64),
    table: &Table,
) -> Result<Vec<Link>, ConfigFault>
    ensures value { Answers (λ links. map link_values links.items) (links_at version own (table_view table.now)) result }
    ensures some { IfOk result (λ links. 1 ≤ length links.items) }
    ensures few { IfOk result (λ links. length links.items ≤ 32) }
    ensures whole { IfOk result (λ links. IsTrue (list_all is_link links.items)) }
    ensures distinct { IfOk result (λ links. IsTrue (are_distinct (taken links.items []))) }
{
    match array_at(table, "link") {
        Ok(members) => read_links(alloc, version, own, members),
        Err(fault) => Err(fault),
    }
}

/// The siblings' interfaces of a configuration, if it has any.
pub(crate) fn siblings_at(
    alloc: Global,
    links: &[Link],
    table: &Table,
) -> Result<Vec<Sibling>, ConfigFault>
    requires { IsTrue (are_distinct (taken links.now [])) }
    ensures value { Answers (λ siblings. siblings.items) (siblings_at (map link_id links.now) (table_view table.now)) result }
    ensures few { IfOk result (λ siblings. length siblings.items ≤ 256) }
    ensures whole { IfOk result (λ siblings. IsTrue (list_all is_sibling siblings.items)) }
    ensures distinct { IfOk result (λ siblings. IsTrue (are_distinct (taken links.now siblings.items))) }
{
    match array_at(table, "sibling") {
        Ok(members) => read_siblings(alloc, links, members),
        Err(fault) => match fault {
            ConfigFault::Missing => Ok(Vec::new(alloc)),
            _ => Err(fault),
        },
    }
}

/// The services of a configuration, if it has any.
pub(crate) fn services_at(alloc: Global, table: &Table) -> Result<Vec<Service>, ConfigFault>
    ensures value { Answers (λ services. services.items) (services_at (table_view table.now)) result }
    ensures few { IfOk result (λ services. length services.items ≤ 64) }
    ensures whole { IfOk result (λ services. IsTrue (list_all is_service services.items)) }
    ensures distinct { IfOk result (λ services. IsTrue (are_distinct (map service_number services.items))) }
{
    match array_at(table, "service") {
        Ok(members) => read_services(alloc, members),
        Err(fault) => match fault {
            ConfigFault::Missing => Ok(Vec::new(alloc)),
            _ => Err(fault),
        },
    }
}
