//! The port at which an end host of this AS listens for a packet.

ghost use Rattle.std.specs.Prelude.{◌≡◌, None, drop, slice_index};
ghost use Rattle.host_ports.specs.Port.{destination_port};
ghost use Rattle.scion_packet.specs.Header.{header_end, header_fault_as, header_of};
ghost use Rattle.process_packet.specs.HostPort.{has_in_range, host_port_of, port_or};
ghost use Rattle.process_packet.specs.Network.{network};

use crate::config::Config;
use crate::port_range::PortRange;
use host_ports::destination_port;
use scion_header::next_header;

/// Whether the port is one of the range.
fn has_in_range(range: PortRange, port: u16) -> bool
    ensures { result ≡ has_in_range range port }
{
    range.first <= port && port <= range.last
}

/// The application's port, by the protocol that the header names for these bytes, if it is in the range; else the
/// dispatcher's.
// Kept apart, so that the decision is as short as it can be where there is no range.
#[inline(never)]
fn port_or(range: PortRange, dispatcher: u16, next_header: u8, payload: &[u8]) -> u16
    ensures { result ≡ port_or range dispatcher (destination_port next_header payload.now) }
{
    match destination_port(next_header, payload) {
        Some(port) => {
            if has_in_range(range, port) {
                port
            } else {
                dispatcher
            }
        }
        None => dispatcher,
    }
}

/// The port at which a host listens for the bytes after a header that names this protocol for them.
#[inline(always)]
#[tactic(auto, unfolding(crate::specs::HostPort::host_port_of))]
pub(crate) fn listening_port(config: &Config, next_header: u8, payload: &[u8]) -> u16
    ensures { result ≡ host_port_of (network config.now) next_header payload.now }
{
    match config.dispatched_ports {
        Some(range) => port_or(range, config.host_port, next_header, payload),
        None => config.host_port,
    }
}

/// The port at which an IPv4 or IPv6 host of this AS listens for a datagram without a fault of its header, whatever the
/// type of its path: the one that belongs to its upper layer (`host_ports::destination_port`), if the configuration
/// has that among the ports at which applications listen themselves; else that of the dispatcher.
///
/// It takes no memory.
pub fn host_port_of(config: &Config, bytes: &[u8]) -> u16
    requires sound { header_fault_as (slice_index bytes.now 8) bytes.now ≡ None }
    ensures { result ≡ host_port_of (network config.now) (header_of bytes.now).next_header (drop (header_end bytes.now) bytes.now) }
{
    let end = 4 * usize::from(bytes[5]);
    listening_port(config, next_header(bytes), &bytes[end..])
}
