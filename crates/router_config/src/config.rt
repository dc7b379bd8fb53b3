//! A configuration, key by key.
ghost use Rattle.std.specs.Prelude.{◌≡◌, ◌≤◌, IfOk, IsTrue};
ghost use Rattle.toml.specs.View.{table_view};
ghost use Rattle.process_packet.specs.Neighbours.{is_range_if_there};
ghost use Rattle.router_config.specs.Config.{around_at, buffers_at, internal_at, key_at, local_at, sizes_at, values, values_at, values_of};
ghost use Rattle.router_config.specs.Fault.{Answers, on_ok};
ghost use Rattle.router_config.specs.Parts.{AreSizes, IsAround, IsInternal, IsLocal, around_values, internal_values, local_values, size_values};

use crate::entry::{
    Version, address_at, bands_at, in_range, integer_at, isd_as_at, number_at, text_at, version_at,
};
use crate::fault::ConfigFault;
use crate::lists::{links_at, services_at, siblings_at};
use crate::ports::dispatched_ports_at;
use cmac_core::Cmac;
use hex::FromHex;
use process_packet::{Bands, Config, Link, PortRange, Service, Sibling, Underlay};
use std::alloc::Global;
use toml::Table;

/// How many buffers a link has where no key tells it.
const USUAL_BUFFERS: u32 = 64;

/// The local AS.
#[derive(Clone, Copy)]
struct Local {
    isd: u16,
    autonomous_system: u64,
    key: [u8; 16],
}

/// The internal network.
#[derive(Clone, Copy)]
struct Internal {
    router: Underlay,
    bands: Bands,
    host_port: u16,
}

/// Sizes of the router.
#[derive(Clone, Copy)]
struct Sizes {
    processors: u8,
    capacity: u32,
    seed: u32,
    buffers: u32,
}

/// What is around the router.
#[derive(Drop)]
struct Around {
    links: Vec<Link>,
    siblings: Vec<Sibling>,
    services: Vec<Service>,
}

/// The key of the local AS.
#[tactic(auto, unfolding(crate::specs::Config::key_at))]
pub(crate) fn key_at(table: &Table) -> Result<[u8; 16], ConfigFault>
    ensures { result ≡ key_at (table_view table.now) }
{
    match text_at(table, "key") {
        Ok(text) => match <[u8; 16] as FromHex>::from_hex(text) {
            Ok(key) => Ok(key),
            Err(_) => Err(ConfigFault::Key),
        },
        Err(fault) => Err(fault),
    }
}

/// The local AS.
#[tactic(auto, unfolding(crate::specs::Config::local_at))]
fn local_at(table: &Table) -> Result<Local, ConfigFault>
    ensures value { on_ok local_values result ≡ local_at (table_view table.now) }
    ensures sound { IfOk result IsLocal }
{
    let (isd, autonomous_system) = isd_as_at(table, "isd_as")?;
    let key = key_at(table)?;
    Ok(Local {
        isd,
        autonomous_system,
        key,
    })
}

/// The internal network.
#[tactic(auto, unfolding(crate::specs::Config::internal_at))]
fn internal_at(version: Version, table: &Table) -> Result<Internal, ConfigFault>
    ensures value { on_ok internal_values result ≡ internal_at version (table_view table.now) }
    ensures sound { IfOk result IsInternal }
{
    let router = address_at(table, "internal")?;
    let bands = bands_at(version, table, "internal_bands")?;
    let host_port = number_at(table, "host_port", 1, 65535)? as u16;
    Ok(Internal {
        router,
        bands,
        host_port,
    })
}

/// How many buffers each link has.
#[tactic(auto, unfolding(crate::specs::Config::buffers_at))]
pub(crate) fn buffers_at(table: &Table) -> Result<u32, ConfigFault>
    ensures value { result ≡ buffers_at (table_view table.now) }
    ensures some { IfOk result (λ buffers. 2 ≤ buffers) }
    ensures few { IfOk result (λ buffers. buffers ≤ 65536) }
{
    match integer_at(table, "buffers") {
        Ok(number) => in_range(number, 2, 65536),
        Err(fault) => match fault {
            ConfigFault::Missing => Ok(USUAL_BUFFERS),
            _ => Err(fault),
        },
    }
}

/// Sizes of the router.
#[tactic(auto, unfolding(crate::specs::Config::sizes_at))]
fn sizes_at(table: &Table) -> Result<Sizes, ConfigFault>
    ensures value { on_ok size_values result ≡ sizes_at (table_view table.now) }
    ensures sound { IfOk result AreSizes }
{
    let processors = number_at(table, "processors", 1, 16)? as u8;
    let capacity = number_at(table, "capacity", 1, 65536)?;
    let seed = number_at(table, "seed", 0, u32::MAX)?;
    let buffers = buffers_at(table)?;
    Ok(Sizes {
        processors,
        capacity,
        seed,
        buffers,
    })
}

/// What is around a router of this AS.
fn around_at(
    alloc: Global,
    version: Version,
    own: (u16, u64),
    table: &Table,
) -> Result<Around, ConfigFault>
    ensures value { Answers around_values (around_at version own (table_view table.now)) result }
    ensures sound { IfOk result IsAround }
{
    let links = match links_at(alloc, version, own, table) {
        Ok(links) => links,
        Err(fault) => return Err(fault),
    };
    let siblings = match siblings_at(alloc, links.as_slice(), table) {
        Ok(siblings) => siblings,
        Err(fault) => return Err(fault),
    };
    let services = match services_at(alloc, table) {
        Ok(services) => services,
        Err(fault) => return Err(fault),
    };
    Ok(Around {
        links,
        siblings,
        services,
    })
}

/// The configuration of these parts.
fn config_of(
    local: Local,
    internal: Internal,
    sizes: Sizes,
    ports: Option<PortRange>,
    around: Around,
) -> Config
    requires near { IsLocal local }
    requires inside { IsInternal internal }
    requires sizes { AreSizes sizes }
    requires ports { IsTrue (is_range_if_there ports) }
    requires around { IsAround around }
    ensures near { (values result).near ≡ local_values local }
    ensures internal { (values result).internal ≡ internal_values internal }
    ensures sizes { (values result).sizes ≡ size_values sizes }
    ensures ports { (values result).dispatched_ports ≡ ports }
    ensures around { (values result).around ≡ around_values around }
{
    Config {
        isd: local.isd,
        autonomous_system: local.autonomous_system,
        key: Cmac::new(&local.key),
        internal: internal.router,
        internal_bands: internal.bands,
        host_port: internal.host_port,
        dispatched_ports: ports,
        processors: sizes.processors,
        capacity: sizes.capacity,
        seed: sizes.seed,
        buffers: sizes.buffers,
        links: around.links,
        siblings: around.siblings,
        services: around.services,
    }
}

/// The configuration that a table gives, or its first fault.
pub(crate) fn config_at(alloc: Global, table: &Table) -> Result<Config, ConfigFault>
    ensures { Answers values (values_at (table_view table.now)) result }
{
    let version = match version_at(table) {
        Ok(version) => version,
        Err(fault) => return Err(fault),
    };
    let local = match local_at(table) {
        Ok(local) => local,
        Err(fault) => return Err(fault),
    };
    let internal = match internal_at(version, table) {
        Ok(internal) => internal,
        Err(fault) => return Err(fault),
    };
    let sizes = match sizes_at(table) {
        Ok(sizes) => sizes,
        Err(fault) => return Err(fault),
    };
    let ports = match dispatched_ports_at(table) {
        Ok(ports) => ports,
        Err(fault) => return Err(fault),
    };
    let own = (local.isd, local.autonomous_system);
    let around = match around_at(alloc, version, own, table) {
        Ok(around) => around,
        Err(fault) => return Err(fault),
    };
    Ok(config_of(local, internal, sizes, ports, around))
}

/// The configuration of a border router that a TOML text tells, or the first fault of the text.
///
/// The keys are read in the order `version`, `isd_as`, `key`, `internal`, `internal_bands` (in
/// version 2), `host_port`, `processors`, `capacity`, `seed`, `buffers` (64 where there is none),
/// `dispatched_ports` (none where there is no such key), `link`, `sibling` and `service` (none where
/// there is no such list); other keys are left alone. A list is tested for its type and its length
/// before its members, which are read one after the other: of a link `id`, `kind`, `local`,
/// `remote`, in version 2 `bands`, `neighbor` (none where there is no such key) and `bfd` (`false`
/// where there is none); of a sibling `id`, `kind` and `at`; of a service `number` and `at`. A value
/// is tested for its type, then its form, then for 0, for a number that is given twice or the AS's
/// own number, then its range. The first fault is answered, and want of memory as
/// `ConfigFault::Memory` wherever it is met.
pub fn read_config(alloc: Global, text: &str) -> Result<Config, ConfigFault>
    ensures { Answers values (values_of text.now) result }
{
    match toml::table_from_str(alloc, text) {
        Ok(table) => config_at(alloc, &table),
        Err(error) if error.is_memory() => Err(ConfigFault::Memory),
        Err(_) => Err(ConfigFault::NotToml),
    }
}
