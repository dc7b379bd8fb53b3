//! The members of a configuration's lists: links, siblings' interfaces and services.
ghost use Rattle.std.specs.Prelude.{◌≡◌, ◌≤◌, ◌==◌, ◌&&◌, [], IfOk, IsTrue, false, map, option_map};
ghost use Rattle.std.specs.List.{list_any};
ghost use Rattle.toml.specs.View.{table_view, view};
ghost use Rattle.process_packet.specs.Neighbours.{is_link, is_service, is_sibling, link_id, service_number, sibling_id};
ghost use Rattle.router_config.specs.Fault.{on_ok};
ghost use Rattle.router_config.specs.Neighbours.{bfd_at, bfd_of, domain_numbers, id_at, id_of, link_of, link_values, neighbor_at, number_at, service_of, service_of_number, sibling_of, taken};

use crate::entry::{Version, address_at, bands_at, bool_at, integer_at, isd_as_at, kind_at};
use crate::fault::ConfigFault;
use process_packet::{Link, Service, Sibling};
use scion_header::Domain;
use toml::{Table, Value};

/// Whether a link has been given this number.
fn is_linked(links: &[Link], id: u16) -> bool
    ensures { result ≡ list_any (λ other. other == id) (map link_id links.now) }
{
    links.iter().map(|link| link.id).any(|other| other == id)
}

/// Whether a sibling's interface has been given this number.
fn is_owned(siblings: &[Sibling], id: u16) -> bool
    ensures { result ≡ list_any (λ other. other == id) (map sibling_id siblings.now) }
{
    siblings
        .iter()
        .map(|sibling| sibling.id)
        .any(|other| other == id)
}

/// Whether an interface has been given this number.
fn is_taken(links: &[Link], siblings: &[Sibling], id: u16) -> bool
    ensures { result ≡ list_any (λ other. other == id) (taken links.now siblings.now) }
{
    is_linked(links, id) || is_owned(siblings, id)
}

/// The number of an interface. At `Interface` it is 0, or a link or a sibling before it has it; at
/// `Limit` it is not in 1 to 65535.
fn read_id(links: &[Link], siblings: &[Sibling], number: i64) -> Result<u16, ConfigFault>
    ensures value { result ≡ id_of (taken links.now siblings.now) number }
    ensures external { IfOk result (λ id. 1 ≤ id) }
    ensures fresh { IfOk result (λ id. list_any (λ other. other == id) (taken links.now siblings.now) ≡ false) }
{
    if number == 0 {
        return Err(ConfigFault::Interface);
    }
    let Ok(id) = u16::try_from(number) else {
        return Err(ConfigFault::Limit);
    };
    if is_taken(links, siblings, id) {
        return Err(ConfigFault::Interface);
    }
    Ok(id)
}

/// Whether a service has been given this number.
fn is_served(given: &[Service], number: u16) -> bool
    ensures { result ≡ list_any (λ other. other == number) (map service_number given.now) }
{
    given
        .iter()
        .map(|service| service.number)
        .any(|other| other == number)
}

/// The number of a service. At `Limit` it is not in 0 to 32767; at `Interface`, which stands for a
/// service given twice too, a service before it has it.
fn read_service_number(given: &[Service], number: i64) -> Result<u16, ConfigFault>
    ensures value { result ≡ service_of_number (map service_number given.now) number }
    ensures small { IfOk result (λ found. found ≤ 32767) }
    ensures fresh { IfOk result (λ found. list_any (λ other. other == found) (map service_number given.now) ≡ false) }
{
    let Ok(found) = u16::try_from(number) else {
        return Err(ConfigFault::Limit);
    };
    if found > 32767 {
        return Err(ConfigFault::Limit);
    }
    if is_served(given, found) {
        return Err(ConfigFault::Interface);
    }
    Ok(found)
}

/// The number of the interface that a table tells, beside those that have been given.
pub(crate) fn id_at(links: &[Link], siblings: &[Sibling], table: &Table) -> Result<u16, ConfigFault>
    ensures value { result ≡ id_at (taken links.now siblings.now) (table_view table.now) }
    ensures external { IfOk result (λ id. 1 ≤ id) }
    ensures fresh { IfOk result (λ id. list_any (λ other. other == id) (taken links.now siblings.now) ≡ false) }
{
    match integer_at(table, "id") {
        Ok(number) => read_id(links, siblings, number),
        Err(fault) => Err(fault),
    }
}

/// The number of the service that a table tells, beside those that have been given.
pub(crate) fn number_at(given: &[Service], table: &Table) -> Result<u16, ConfigFault>
    ensures value { result ≡ number_at (map service_number given.now) (table_view table.now) }
    ensures small { IfOk result (λ found. found ≤ 32767) }
    ensures fresh { IfOk result (λ found. list_any (λ other. other == found) (map service_number given.now) ≡ false) }
{
    match integer_at(table, "number") {
        Ok(number) => read_service_number(given, number),
        Err(fault) => Err(fault),
    }
}

/// Whether both are the numbers of one AS.
fn is_same_as(one: (u16, u64), other: (u16, u64)) -> bool
    ensures { result ≡ (one.0 == other.0 && one.1 == other.1) }
{
    one.0 == other.0 && one.1 == other.1
}

/// The AS at the other end of a link of this AS, if a table names it. At `Interface` it is this AS.
pub(crate) fn neighbor_at(own: (u16, u64), table: &Table) -> Result<Option<Domain>, ConfigFault>
    ensures { on_ok (option_map domain_numbers) result ≡ neighbor_at own (table_view table.now) }
{
    match isd_as_at(table, "neighbor") {
        Ok(found) => {
            let (isd, autonomous_system) = found;
            let neighbor = Domain {
                isd,
                autonomous_system,
            };
            if is_same_as(found, own) {
                Err(ConfigFault::Interface)
            } else {
                Ok(Some(neighbor))
            }
        }
        Err(fault) => match fault {
            ConfigFault::Missing => Ok(None),
            _ => Err(fault),
        },
    }
}

/// Whether BFD is answered on a link with this AS at its other end, where that is asked for or not. At
/// `Missing` it is asked for, and no AS is named.
fn read_bfd(neighbor: Option<Domain>, asked: bool) -> Result<bool, ConfigFault>
    ensures { result ≡ bfd_of (option_map domain_numbers neighbor) asked }
{
    if !asked {
        return Ok(false);
    }
    match neighbor {
        Some(_) => Ok(true),
        None => Err(ConfigFault::Missing),
    }
}

/// Whether a table asks that BFD be answered on a link with this AS at its other end.
pub(crate) fn bfd_at(neighbor: Option<Domain>, table: &Table) -> Result<bool, ConfigFault>
    ensures { result ≡ bfd_at (option_map domain_numbers neighbor) (table_view table.now) }
{
    match bool_at(table, "bfd") {
        Ok(asked) => read_bfd(neighbor, asked),
        Err(fault) => match fault {
            ConfigFault::Missing => Ok(false),
            _ => Err(fault),
        },
    }
}

/// The link of this AS that a member tells, beside the links that have been given.
#[tactic(auto, unfolding(crate::specs::Neighbours::link_of))]
pub(crate) fn read_link(
    version: Version,
    own: (u16, u64),
    given: &[Link],
    member: &Value,
) -> Result<Link, ConfigFault>
    ensures value { on_ok link_values result ≡ link_of version own (map link_id given.now) (view member.now) }
    ensures whole { IfOk result (λ link. IsTrue (is_link link)) }
    ensures fresh { IfOk result (λ link. list_any (λ other. other == link.id) (taken given.now []) ≡ false) }
{
    let Some(table) = member.as_table() else {
        return Err(ConfigFault::WrongType);
    };
    let id = id_at(given, &[], table)?;
    let kind = kind_at(table)?;
    let local = address_at(table, "local")?;
    let remote = address_at(table, "remote")?;
    let bands = bands_at(version, table, "bands")?;
    let neighbor = neighbor_at(own, table)?;
    let bfd = bfd_at(neighbor, table)?;
    Ok(Link {
        id,
        kind,
        local,
        remote,
        bands,
        neighbor,
        bfd,
    })
}

/// The interface of a sibling that a member tells, beside what has been given.
#[tactic(auto, unfolding(crate::specs::Neighbours::sibling_of))]
pub(crate) fn read_sibling(
    links: &[Link],
    given: &[Sibling],
    member: &Value,
) -> Result<Sibling, ConfigFault>
    ensures value { result ≡ sibling_of (map link_id links.now) given.now (view member.now) }
    ensures whole { IfOk result (λ sibling. IsTrue (is_sibling sibling)) }
    ensures fresh { IfOk result (λ sibling. list_any (λ other. other == sibling.id) (taken links.now given.now) ≡ false) }
{
    let Some(table) = member.as_table() else {
        return Err(ConfigFault::WrongType);
    };
    let id = id_at(links, given, table)?;
    let kind = kind_at(table)?;
    let at = address_at(table, "at")?;
    Ok(Sibling { id, kind, at })
}

/// The service of a member, beside the services that have been given.
#[tactic(auto, unfolding(crate::specs::Neighbours::service_of))]
pub(crate) fn read_service(given: &[Service], member: &Value) -> Result<Service, ConfigFault>
    ensures value { result ≡ service_of given.now (view member.now) }
    ensures whole { IfOk result (λ service. IsTrue (is_service service)) }
    ensures fresh { IfOk result (λ service. list_any (λ other. other == service.number) (map service_number given.now) ≡ false) }
{
    let Some(table) = member.as_table() else {
        return Err(ConfigFault::WrongType);
    };
    let number = number_at(given, table)?;
    let at = address_at(table, "at")?;
    Ok(Service { number, at })
}
