//! Keys that nobody reads.

ghost use Rattle.std.specs.Prelude.{◌≡◌, ◌&&◌};
ghost use Rattle.config_warnings.specs.Keys.{is_of_link, is_of_service, is_of_sibling, is_of_top, is_read_at, is_version_2, reason_at};

use std::alloc::{AllocError, Global};
use std::fmt;
use toml::{Table, Value};

/// A table of a configuration: its own, or a member of a list, counted from 1.
#[derive(Clone, Copy)]
pub enum Place {
    Top,
    Link(usize),
    Sibling(usize),
    Service(usize),
}

/// Why a key isn't read where it stands.
#[derive(Clone, Copy)]
pub enum Reason {
    /// That table has no such key, nor has the configuration itself.
    Unknown,
    /// It is a key of the configuration itself, and stands in a member of a list.
    TooLow,
    /// It is read in version 2 of the format alone.
    TooEarly,
}

/// A key that isn't read where it stands. Its value is told where it is a number: a text may be the
/// forwarding key.
#[derive(Clone, Copy)]
pub struct Stray<'t> {
    pub place: Place,
    pub key: &'t str,
    pub number: Option<i64>,
    pub reason: Reason,
}

/// Whether it is a key of the configuration itself.
fn is_of_top(key: &str) -> bool
    ensures { result ≡ is_of_top key.now }
{
    match key {
        "version" | "isd_as" | "key" | "internal" | "host_port" | "processors" => true,
        "capacity" | "seed" | "buffers" | "link" | "sibling" | "service" => true,
        "internal_bands" | "dispatched_ports" => true,
        _ => false,
    }
}

/// Whether it is a key of a link.
fn is_of_link(key: &str) -> bool
    ensures { result ≡ is_of_link key.now }
{
    match key {
        "id" | "kind" | "local" | "remote" | "bands" | "neighbor" | "bfd" => true,
        _ => false,
    }
}

/// Whether it is a key of a sibling.
fn is_of_sibling(key: &str) -> bool
    ensures { result ≡ is_of_sibling key.now }
{
    match key {
        "id" | "kind" | "at" => true,
        _ => false,
    }
}

/// Whether it is a key of a service.
fn is_of_service(key: &str) -> bool
    ensures { result ≡ is_of_service key.now }
{
    match key {
        "number" | "at" => true,
        _ => false,
    }
}

/// Whether it is a key of the table at a place.
fn is_read_at(place: Place, key: &str) -> bool
    ensures { result ≡ is_read_at place key.now }
{
    match place {
        Place::Top => is_of_top(key),
        Place::Link(_) => is_of_link(key),
        Place::Sibling(_) => is_of_sibling(key),
        Place::Service(_) => is_of_service(key),
    }
}

/// Whether it is a key that the first version of the format doesn't have.
fn is_version_2(key: &str) -> bool
    ensures { result ≡ is_version_2 key.now }
{
    match key {
        "internal_bands" | "bands" => true,
        _ => false,
    }
}

/// Whether it is a key that this version of the format doesn't have yet, the first one or the second.
fn is_too_early(is_first: bool, key: &str) -> bool
    ensures { result ≡ (is_first && is_version_2 key.now) }
{
    is_version_2(key) && is_first
}

/// Why a key isn't read in the table at a place, if it isn't.
fn reason_at(is_first: bool, place: Place, key: &str) -> Option<Reason>
    ensures { result ≡ reason_at is_first place key.now }
{
    if !is_read_at(place, key) {
        return Some(if is_of_top(key) {
            Reason::TooLow
        } else {
            Reason::Unknown
        });
    }
    if is_too_early(is_first, key) {
        Some(Reason::TooEarly)
    } else {
        None
    }
}

/// Adds the keys of a table that aren't read.
fn add_of_table<'t>(
    list: &mut Vec<Stray<'t>>,
    is_first: bool,
    place: Place,
    table: &'t Table,
) -> Result<(), AllocError> {
    for (key, value) in table {
        let key = key.as_str();
        if let Some(reason) = reason_at(is_first, place, key) {
            list.push(Stray {
                place,
                key,
                number: value.as_integer(),
                reason,
            })?;
        }
    }
    Ok(())
}

/// Adds the keys that aren't read of each member of a list.
fn add_of_members<'t>(
    list: &mut Vec<Stray<'t>>,
    is_first: bool,
    table: &'t Table,
    name: &str,
) -> Result<(), AllocError> {
    let Some(Value::Array(members)) = table.get(name) else {
        return Ok(());
    };
    for (index, member) in members.iter().enumerate() {
        let number = index + 1;
        let place = match name {
            "link" => Place::Link(number),
            "sibling" => Place::Sibling(number),
            _ => Place::Service(number),
        };
        if let Some(member) = member.as_table() {
            add_of_table(list, is_first, place, member)?;
        }
    }
    Ok(())
}

/// The keys of a configuration's table that aren't read: its own, and those of its links, its siblings and
/// its services.
pub fn strays_in<'t>(alloc: Global, table: &'t Table) -> Result<Vec<Stray<'t>>, AllocError> {
    let is_first = match table.get("version") {
        Some(Value::Integer(1)) => true,
        _ => false,
    };
    let mut list = Vec::new(alloc);
    add_of_table(&mut list, is_first, Place::Top, table)?;
    add_of_members(&mut list, is_first, table, "link")?;
    add_of_members(&mut list, is_first, table, "sibling")?;
    add_of_members(&mut list, is_first, table, "service")?;
    Ok(list)
}

impl fmt::Display for Place {
    fn fmt<W: fmt::Write>(&self, f: &mut fmt::Formatter<W>) -> fmt::Result {
        match self {
            Place::Top => f.write_str("the configuration"),
            Place::Link(number) => write!(f, "link {number}"),
            Place::Sibling(number) => write!(f, "sibling {number}"),
            Place::Service(number) => write!(f, "service {number}"),
        }
    }
}

impl fmt::Display for Stray<'_> {
    fn fmt<W: fmt::Write>(&self, f: &mut fmt::Formatter<W>) -> fmt::Result {
        let Stray {
            place,
            key,
            number,
            reason,
        } = self;
        match number {
            Some(number) => write!(f, "`{key} = {number}` ")?,
            None => write!(f, "`{key}` ")?,
        }
        match reason {
            Reason::Unknown => write!(f, "of {place} is not known, and not read"),
            Reason::TooEarly => write!(f, "of {place} is read in version 2 alone"),
            Reason::TooLow => write!(
                f,
                "belongs to the table above it, {place}, and is not read there: write it above the first list"
            ),
        }
    }
}
