//! Where the first fault of a configuration is.
ghost use Rattle.std.specs.Prelude.{◌≡◌, is_err, is_some, map};
ghost use Rattle.toml.specs.View.{table_view, view};
ghost use Rattle.process_packet.specs.Neighbours.{link_id};
ghost use Rattle.router_config.specs.Config.{internal_at, local_at, sizes_at};
ghost use Rattle.router_config.specs.Neighbours.{link_of, service_of, sibling_of};
ghost use Rattle.router_config.specs.Location.{key_of_internal, key_of_local, key_of_sizes, location_of_link, location_of_service, location_of_sibling};

use crate::config::{buffers_at, key_at};
use crate::entry::{
    Version, address_at, array_at, bands_at, isd_as_at, kind_at, number_at, version_at,
};
use crate::fault::ConfigFault;
use crate::lists::{MOST_LINKS, MOST_SERVICES, MOST_SIBLINGS, links_at, services_at, siblings_at};
use crate::neighbours::{
    bfd_at, id_at, neighbor_at, number_at as service_number_at, read_link, read_service,
    read_sibling,
};
use crate::ports::dispatched_ports_at;
use process_packet::{Link, Service, Sibling};
use std::alloc::{AllocError, Global};
use toml::value::Array;
use toml::{Table, Value};

/// A key of a configuration, or of a member of one of its lists.
#[derive(Clone, Copy)]
pub(crate) enum Key {
    Version,
    IsdAs,
    Forwarding,
    Internal,
    InternalBands,
    HostPort,
    Processors,
    Capacity,
    Seed,
    Buffers,
    DispatchedPorts,
    Link,
    Sibling,
    Service,
    Id,
    Kind,
    Local,
    Remote,
    Bands,
    Neighbor,
    Bfd,
    At,
    Number,
}

/// Where a value is.
#[derive(Clone, Copy)]
pub(crate) enum Location {
    /// At a key of the configuration.
    Value(Key),
    /// The member of a list, counted from 1.
    Member(Key, usize),
    /// At a key of a member of a list, counted from 1.
    MemberValue(Key, usize, Key),
}

impl Key {
    /// How it is written.
    pub(crate) fn name(self) -> &'static str {
        match self {
            Key::Version => "version",
            Key::IsdAs => "isd_as",
            Key::Forwarding => "key",
            Key::Internal => "internal",
            Key::InternalBands => "internal_bands",
            Key::HostPort => "host_port",
            Key::Processors => "processors",
            Key::Capacity => "capacity",
            Key::Seed => "seed",
            Key::Buffers => "buffers",
            Key::DispatchedPorts => "dispatched_ports",
            Key::Link => "link",
            Key::Sibling => "sibling",
            Key::Service => "service",
            Key::Id => "id",
            Key::Kind => "kind",
            Key::Local => "local",
            Key::Remote => "remote",
            Key::Bands => "bands",
            Key::Neighbor => "neighbor",
            Key::Bfd => "bfd",
            Key::At => "at",
            Key::Number => "number",
        }
    }

    /// What is wanted there.
    pub(crate) fn wanted(self) -> &'static str {
        match self {
            Key::Version | Key::InternalBands | Key::Bands => "1 or 2",
            Key::IsdAs => "an ISD-AS number, as \"1-ff00:0:110\" or \"1-64512\"",
            Key::Forwarding => "a text of 32 hex digits",
            Key::Internal | Key::Local | Key::Remote | Key::At => {
                "an address and port, as \"10.0.0.1:30000\" or \"[fd00:0:0:0:0:0:0:1]:30000\""
            }
            Key::HostPort => "1 to 65535",
            Key::Processors => "1 to 16",
            Key::Capacity => "1 to 65536",
            Key::Seed => "0 to 4294967295",
            Key::Buffers => "2 to 65536",
            Key::DispatchedPorts => {
                "a list of the first and the last port, 1 to 65535, as [31000, 32767]"
            }
            Key::Link => "a list of 1 to 32 tables",
            Key::Sibling => "a list of at most 256 tables",
            Key::Service => "a list of at most 64 tables",
            Key::Id => "1 to 65535, once among all links and siblings",
            Key::Kind => "\"core\", \"parent\" or \"child\"",
            Key::Neighbor => {
                "an ISD-AS number other than `isd_as`, as \"1-ff00:0:111\" or \"1-64513\""
            }
            Key::Bfd => "true or false, and true beside `neighbor` alone",
            Key::Number => "0 to 32767, once among the services",
        }
    }
}

/// The first key of the local AS whose value is refused.
#[tactic(auto, unfolding(crate::specs::Config::local_at))]
fn key_of_local(table: &Table) -> Option<Key>
    ensures some { is_some result ≡ is_err (local_at (table_view table.now)) }
    ensures key { result ≡ key_of_local (table_view table.now) }
{
    if let Err(_) = isd_as_at(table, "isd_as") {
        return Some(Key::IsdAs);
    }
    match key_at(table) {
        Ok(_) => None,
        Err(_) => Some(Key::Forwarding),
    }
}

/// The first key of the internal network whose value is refused.
#[tactic(auto, unfolding(crate::specs::Config::internal_at))]
fn key_of_internal(version: Version, table: &Table) -> Option<Key>
    ensures some { is_some result ≡ is_err (internal_at version (table_view table.now)) }
    ensures key { result ≡ key_of_internal version (table_view table.now) }
{
    if let Err(_) = address_at(table, "internal") {
        return Some(Key::Internal);
    }
    if let Err(_) = bands_at(version, table, "internal_bands") {
        return Some(Key::InternalBands);
    }
    match number_at(table, "host_port", 1, 65535) {
        Ok(_) => None,
        Err(_) => Some(Key::HostPort),
    }
}

/// The first key of the sizes whose value is refused.
#[tactic(auto, unfolding(crate::specs::Config::sizes_at))]
fn key_of_sizes(table: &Table) -> Option<Key>
    ensures some { is_some result ≡ is_err (sizes_at (table_view table.now)) }
    ensures key { result ≡ key_of_sizes (table_view table.now) }
{
    if let Err(_) = number_at(table, "processors", 1, 16) {
        return Some(Key::Processors);
    }
    if let Err(_) = number_at(table, "capacity", 1, 65536) {
        return Some(Key::Capacity);
    }
    if let Err(_) = number_at(table, "seed", 0, u32::MAX) {
        return Some(Key::Seed);
    }
    match buffers_at(table) {
        Ok(_) => None,
        Err(_) => Some(Key::Buffers),
    }
}

/// The first refused place of a link of this AS, which has this number in its list, beside the links
/// before it.
#[tactic(auto, unfolding(crate::specs::Neighbours::link_of))]
fn location_of_link(
    version: Version,
    own: (u16, u64),
    given: &[Link],
    number: usize,
    member: &Value,
) -> Option<Location>
    ensures some { is_some result ≡ is_err (link_of version own (map link_id given.now) (view member.now)) }
    ensures location { result ≡ location_of_link version own given.now number (view member.now) }
{
    let Some(table) = member.as_table() else {
        return Some(Location::Member(Key::Link, number));
    };
    if let Err(_) = id_at(given, &[], table) {
        return Some(Location::MemberValue(Key::Link, number, Key::Id));
    }
    if let Err(_) = kind_at(table) {
        return Some(Location::MemberValue(Key::Link, number, Key::Kind));
    }
    if let Err(_) = address_at(table, "local") {
        return Some(Location::MemberValue(Key::Link, number, Key::Local));
    }
    if let Err(_) = address_at(table, "remote") {
        return Some(Location::MemberValue(Key::Link, number, Key::Remote));
    }
    if let Err(_) = bands_at(version, table, "bands") {
        return Some(Location::MemberValue(Key::Link, number, Key::Bands));
    }
    let neighbor = match neighbor_at(own, table) {
        Ok(neighbor) => neighbor,
        Err(_) => return Some(Location::MemberValue(Key::Link, number, Key::Neighbor)),
    };
    match bfd_at(neighbor, table) {
        Ok(_) => None,
        Err(_) => Some(Location::MemberValue(Key::Link, number, Key::Bfd)),
    }
}

/// The first refused place of a sibling, beside the links and the siblings before it.
#[tactic(auto, unfolding(crate::specs::Neighbours::sibling_of))]
fn location_of_sibling(
    links: &[Link],
    given: &[Sibling],
    number: usize,
    member: &Value,
) -> Option<Location>
    ensures some { is_some result ≡ is_err (sibling_of (map link_id links.now) given.now (view member.now)) }
    ensures location { result ≡ location_of_sibling links.now given.now number (view member.now) }
{
    let Some(table) = member.as_table() else {
        return Some(Location::Member(Key::Sibling, number));
    };
    if let Err(_) = id_at(links, given, table) {
        return Some(Location::MemberValue(Key::Sibling, number, Key::Id));
    }
    if let Err(_) = kind_at(table) {
        return Some(Location::MemberValue(Key::Sibling, number, Key::Kind));
    }
    match address_at(table, "at") {
        Ok(_) => None,
        Err(_) => Some(Location::MemberValue(Key::Sibling, number, Key::At)),
    }
}

/// The first refused place of a service, beside the services before it.
#[tactic(auto, unfolding(crate::specs::Neighbours::service_of))]
fn location_of_service(given: &[Service], number: usize, member: &Value) -> Option<Location>
    ensures some { is_some result ≡ is_err (service_of given.now (view member.now)) }
    ensures location { result ≡ location_of_service given.now number (view member.now) }
{
    let Some(table) = member.as_table() else {
        return Some(Location::Member(Key::Service, number));
    };
    if let Err(_) = service_number_at(given, table) {
        return Some(Location::MemberValue(Key::Service, number, Key::Number));
    }
    match address_at(table, "at") {
        Ok(_) => None,
        Err(_) => Some(Location::MemberValue(Key::Service, number, Key::At)),
    }
}

/// The first refused place of the links; the list itself where its length is.
fn location_in_links(
    alloc: Global,
    version: Version,
    own: (u16, u64),
    members: &Array,
) -> Result<Location, AllocError> {
    let mut links = Vec::new(alloc);
    if members.len() > MOST_LINKS {
        return Ok(Location::Value(Key::Link));
    }
    for (index, member) in members.iter().enumerate() {
        if let Some(location) = location_of_link(
            version,
            own,
            links.as_slice(),
            index + 1,
            member,
        ) {
            return Ok(location);
        }
        match read_link(version, own, links.as_slice(), member) {
            Ok(link) => links.push(link)?,
            Err(_) => unreachable!(),
        }
    }
    Ok(Location::Value(Key::Link))
}

/// The first refused place of the siblings; the list itself where its length is.
fn location_in_siblings(
    alloc: Global,
    links: &[Link],
    members: &Array,
) -> Result<Location, AllocError> {
    let mut siblings = Vec::new(alloc);
    if members.len() > MOST_SIBLINGS {
        return Ok(Location::Value(Key::Sibling));
    }
    for (index, member) in members.iter().enumerate() {
        if let Some(location) = location_of_sibling(links, siblings.as_slice(), index + 1, member) {
            return Ok(location);
        }
        match read_sibling(links, siblings.as_slice(), member) {
            Ok(sibling) => siblings.push(sibling)?,
            Err(_) => unreachable!(),
        }
    }
    Ok(Location::Value(Key::Sibling))
}

/// The first refused place of the services; the list itself where its length is.
fn location_in_services(alloc: Global, members: &Array) -> Result<Location, AllocError> {
    let mut services = Vec::new(alloc);
    if members.len() > MOST_SERVICES {
        return Ok(Location::Value(Key::Service));
    }
    for (index, member) in members.iter().enumerate() {
        if let Some(location) = location_of_service(services.as_slice(), index + 1, member) {
            return Ok(location);
        }
        match read_service(services.as_slice(), member) {
            Ok(service) => services.push(service)?,
            Err(_) => unreachable!(),
        }
    }
    Ok(Location::Value(Key::Service))
}

/// The first refused place of the list of links.
fn location_of_links(
    alloc: Global,
    version: Version,
    own: (u16, u64),
    table: &Table,
) -> Result<Location, AllocError> {
    match array_at(table, "link") {
        Ok(members) => location_in_links(alloc, version, own, members),
        Err(_) => Ok(Location::Value(Key::Link)),
    }
}

/// The first refused place of the list of siblings.
fn location_of_siblings(
    alloc: Global,
    links: &[Link],
    table: &Table,
) -> Result<Location, AllocError> {
    match array_at(table, "sibling") {
        Ok(members) => location_in_siblings(alloc, links, members),
        Err(_) => Ok(Location::Value(Key::Sibling)),
    }
}

/// The first refused place of the list of services.
fn location_of_services(alloc: Global, table: &Table) -> Result<Location, AllocError> {
    match array_at(table, "service") {
        Ok(members) => location_in_services(alloc, members),
        Err(_) => Ok(Location::Value(Key::Service)),
    }
}

/// The first refused place of the lists; it is among the services where links and siblings are sound.
fn location_around(
    alloc: Global,
    version: Version,
    own: (u16, u64),
    table: &Table,
) -> Result<Location, AllocError> {
    let links = match links_at(alloc, version, own, table) {
        Ok(links) => links,
        Err(ConfigFault::Memory) => return Err(AllocError),
        Err(_) => return location_of_links(alloc, version, own, table),
    };
    match siblings_at(alloc, links.as_slice(), table) {
        Ok(_) => location_of_services(alloc, table),
        Err(ConfigFault::Memory) => Err(AllocError),
        Err(_) => location_of_siblings(alloc, links.as_slice(), table),
    }
}

/// The first refused place of a table that is no configuration.
pub(crate) fn location_in(alloc: Global, table: &Table) -> Result<Location, AllocError> {
    let version = match version_at(table) {
        Ok(version) => version,
        Err(_) => return Ok(Location::Value(Key::Version)),
    };
    let own = match isd_as_at(table, "isd_as") {
        Ok(own) => own,
        Err(_) => return Ok(Location::Value(Key::IsdAs)),
    };
    if let Some(key) = key_of_local(table) {
        return Ok(Location::Value(key));
    }
    if let Some(key) = key_of_internal(version, table) {
        return Ok(Location::Value(key));
    }
    if let Some(key) = key_of_sizes(table) {
        return Ok(Location::Value(key));
    }
    if let Err(_) = dispatched_ports_at(table) {
        return Ok(Location::Value(Key::DispatchedPorts));
    }
    location_around(alloc, version, own, table)
}
