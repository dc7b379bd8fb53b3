//! The value at a key of a table: it is tested for its type, then its form, then its range.
ghost use Rattle.std.specs.Prelude.{◌≡◌, ◌<◌, ◌≤◌, ◌^◌, IfOk, IsTrue, codes};
ghost use Rattle.toml.specs.Data.{as_array, as_bool, as_integer, as_str};
ghost use Rattle.toml.specs.View.{array_view, table_view};
ghost use Rattle.process_packet.specs.Neighbours.{has_port};
ghost use Rattle.router_config.specs.Entry.{address_at, bands_at, in_range, isd_as_at, kind_at, kind_of, number_at, value_at, version_at};
ghost use Rattle.router_config.specs.Fault.{on_ok};

use crate::fault::ConfigFault;
use crate::isd_as::read_isd_as;
use process_packet::{Bands, Underlay};
use segment_switch::LinkKind;
use text_values::read_underlay;
use toml::Table;
use toml::value::Array;

/// The version of a configuration's format: the second one tells the bands of each link.
#[derive(Clone, Copy)]
pub(crate) enum Version {
    First,
    Second,
}

/// The text at a key.
pub(crate) fn text_at<'t>(table: &'t Table, key: &str) -> Result<&'t str, ConfigFault>
    ensures { on_ok (λ text. text.now) result ≡ value_at as_str key.now (table_view table.now) }
{
    match table.get(key) {
        Some(value) => match value.as_str() {
            Some(found) => Ok(found),
            None => Err(ConfigFault::WrongType),
        },
        None => Err(ConfigFault::Missing),
    }
}

/// The integer at a key.
pub(crate) fn integer_at(table: &Table, key: &str) -> Result<i64, ConfigFault>
    ensures { result ≡ value_at as_integer key.now (table_view table.now) }
{
    match table.get(key) {
        Some(value) => value.as_integer().ok_or(ConfigFault::WrongType),
        None => Err(ConfigFault::Missing),
    }
}

/// The boolean at a key.
pub(crate) fn bool_at(table: &Table, key: &str) -> Result<bool, ConfigFault>
    ensures { result ≡ value_at as_bool key.now (table_view table.now) }
{
    match table.get(key) {
        Some(value) => value.as_bool().ok_or(ConfigFault::WrongType),
        None => Err(ConfigFault::Missing),
    }
}

/// The array at a key.
pub(crate) fn array_at<'t>(table: &'t Table, key: &str) -> Result<&'t Array, ConfigFault>
    ensures { on_ok (λ array. array_view array.now) result ≡ value_at as_array key.now (table_view table.now) }
{
    match table.get(key) {
        Some(value) => match value.as_array() {
            Some(found) => Ok(found),
            None => Err(ConfigFault::WrongType),
        },
        None => Err(ConfigFault::Missing),
    }
}

/// A number from the least to the most.
pub(crate) fn in_range(number: i64, least: u32, most: u32) -> Result<u32, ConfigFault>
    ensures value { result ≡ in_range least most number }
    ensures large { IfOk result (λ found. least ≤ found) }
    ensures small { IfOk result (λ found. found ≤ most) }
{
    match u32::try_from(number) {
        Ok(found) => {
            if least <= found && found <= most {
                Ok(found)
            } else {
                Err(ConfigFault::Limit)
            }
        }
        Err(_) => Err(ConfigFault::Limit),
    }
}

/// The number at a key, from the least to the most.
#[tactic(auto, unfolding(crate::specs::Entry::number_at))]
pub(crate) fn number_at(table: &Table, key: &str, least: u32, most: u32) -> Result<u32, ConfigFault>
    ensures value { result ≡ number_at least most key.now (table_view table.now) }
    ensures large { IfOk result (λ found. least ≤ found) }
    ensures small { IfOk result (λ found. found ≤ most) }
{
    match integer_at(table, key) {
        Ok(number) => in_range(number, least, most),
        Err(fault) => Err(fault),
    }
}

/// The address at a key.
#[tactic(auto, unfolding(crate::specs::Entry::address_at))]
pub(crate) fn address_at(table: &Table, key: &str) -> Result<Underlay, ConfigFault>
    ensures value { result ≡ address_at key.now (table_view table.now) }
    ensures port { IfOk result (λ underlay. IsTrue (has_port underlay)) }
{
    match text_at(table, key) {
        Ok(text) => match read_underlay(text) {
            Some(underlay) => Ok(underlay),
            None => Err(ConfigFault::Address),
        },
        Err(fault) => Err(fault),
    }
}

/// The ISD number and the AS number at a key.
#[tactic(auto, unfolding(crate::specs::Entry::isd_as_at))]
pub(crate) fn isd_as_at(table: &Table, key: &str) -> Result<(u16, u64), ConfigFault>
    ensures value { result ≡ isd_as_at key.now (table_view table.now) }
    ensures isd_is_there { IfOk result (λ numbers. 1 ≤ numbers.0) }
    ensures autonomous_system_is_there { IfOk result (λ numbers. 1 ≤ numbers.1) }
    ensures fits { IfOk result (λ numbers. numbers.1 < 2 ^ 48) }
{
    match text_at(table, key) {
        Ok(text) => match read_isd_as(text) {
            Some(numbers) => Ok(numbers),
            None => Err(ConfigFault::IsdAs),
        },
        Err(fault) => Err(fault),
    }
}

/// What a word says of the AS at the other end of a link.
fn read_kind(word: &str) -> Option<LinkKind>
    ensures { result ≡ kind_of word.now }
{
    match word {
        "core" => Some(LinkKind::Core),
        "parent" => Some(LinkKind::Parent),
        "child" => Some(LinkKind::Child),
        _ => None,
    }
}

/// What the AS at the other end of a link is to this one.
#[tactic(auto, unfolding(crate::specs::Entry::kind_at))]
pub(crate) fn kind_at(table: &Table) -> Result<LinkKind, ConfigFault>
    ensures { result ≡ kind_at (table_view table.now) }
{
    match text_at(table, "kind") {
        Ok(word) => match read_kind(word) {
            Some(kind) => Ok(kind),
            None => Err(ConfigFault::WrongType),
        },
        Err(fault) => Err(fault),
    }
}

/// The version of the format.
#[tactic(auto, unfolding(crate::specs::Entry::version_at))]
pub(crate) fn version_at(table: &Table) -> Result<Version, ConfigFault>
    ensures { result ≡ version_at (table_view table.now) }
{
    match number_at(table, "version", 1, 2) {
        Ok(number) => Ok(if number == 1 {
            Version::First
        } else {
            Version::Second
        }),
        Err(fault) => Err(fault),
    }
}

/// How many bands a key tells; in the first version there is no such key, and one band.
#[tactic(auto, unfolding(crate::specs::Entry::bands_at))]
pub(crate) fn bands_at(version: Version, table: &Table, key: &str) -> Result<Bands, ConfigFault>
    ensures { result ≡ bands_at version key.now (table_view table.now) }
{
    match version {
        Version::First => Ok(Bands::One),
        Version::Second => match number_at(table, key, 1, 2) {
            Ok(number) => Ok(if number == 1 { Bands::One } else { Bands::Two }),
            Err(fault) => Err(fault),
        },
    }
}
