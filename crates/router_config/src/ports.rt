//! The ports at which applications on end hosts listen themselves.
ghost use Rattle.std.specs.Prelude.{◌≡◌, IfOk, IsTrue};
ghost use Rattle.toml.specs.View.{array_view, table_view, view};
ghost use Rattle.process_packet.specs.Neighbours.{is_range, is_range_if_there};
ghost use Rattle.router_config.specs.Ports.{dispatched_ports_at, ports_from, ports_of, range_of};

use crate::entry::{array_at, in_range};
use crate::fault::ConfigFault;
use process_packet::PortRange;
use toml::value::Array;
use toml::{Table, Value};

/// The ports from one to another. At `Limit` one of them is not in 1 to 65535, or the last is below the
/// first.
fn read_range(from: i64, to: i64) -> Result<PortRange, ConfigFault>
    ensures value { result ≡ range_of from to }
    ensures whole { IfOk result (λ range. IsTrue (is_range range)) }
{
    let first = in_range(from, 1, 65535)?;
    let last = in_range(to, first, 65535)?;
    Ok(PortRange {
        first: first as u16,
        last: last as u16,
    })
}

/// The range of ports from the one that a value tells to that of another. At `WrongType` one of them is no
/// integer.
fn read_ends(first: &Value, last: &Value) -> Result<Option<PortRange>, ConfigFault>
    ensures value { result ≡ ports_from (view first.now) (view last.now) }
    ensures whole { IfOk result (λ ports. IsTrue (is_range_if_there ports)) }
{
    let Some(from) = first.as_integer() else {
        return Err(ConfigFault::WrongType);
    };
    let Some(to) = last.as_integer() else {
        return Err(ConfigFault::WrongType);
    };
    match read_range(from, to) {
        Ok(range) => Ok(Some(range)),
        Err(fault) => Err(fault),
    }
}

/// The range of ports that an array tells by its first and its last one, where it has just these.
fn read_ports(members: &Array) -> Result<Option<PortRange>, ConfigFault>
    ensures value { result ≡ ports_of (array_view members.now) }
    ensures whole { IfOk result (λ ports. IsTrue (is_range_if_there ports)) }
{
    let values = members.as_slice();
    if values.len() != 2 {
        return Err(ConfigFault::WrongType);
    }
    read_ends(&values[0], &values[1])
}

/// The ports at which applications on end hosts listen themselves, if a table tells any.
pub(crate) fn dispatched_ports_at(table: &Table) -> Result<Option<PortRange>, ConfigFault>
    ensures value { result ≡ dispatched_ports_at (table_view table.now) }
    ensures whole { IfOk result (λ ports. IsTrue (is_range_if_there ports)) }
{
    match array_at(table, "dispatched_ports") {
        Ok(members) => read_ports(members),
        Err(fault) => match fault {
            ConfigFault::Missing => Ok(None),
            _ => Err(fault),
        },
    }
}
