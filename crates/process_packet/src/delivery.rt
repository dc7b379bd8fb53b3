//! The row by which a packet is delivered in this AS.

ghost use Rattle.std.specs.Prelude.{◌≡◌, ◌&&◌, Some, None, MatchOption, MatchResult, ◌≤◌, length};
ghost use Rattle.scion_packet.specs.Header.{header_of, front_end};
ghost use Rattle.scion_packet.specs.Packet.{Packet};
ghost use Rattle.process_packet.specs.HostPort.{delivered_at};
ghost use Rattle.process_packet.specs.Network.{is_local, network};
ghost use Rattle.process_packet.specs.Rows as row;
ghost use Rattle.process_packet.specs.Rows.{delivered, unreachable};
ghost use Rattle.process_packet.specs.PacketView.{Shows, refused};
ghost use Rattle.process_packet.specs.PacketState.{PacketState, is_external, packet};

use crate::config::Config;
use crate::decision::Problem;
use crate::host_port::listening_port;
use crate::packet_view::PacketView;
use crate::refusal::{Refusal, parameter_problem};
use crate::scmp::{DESTINATION_UNREACHABLE, NO_ROUTE, UNKNOWN_ADDRESS_FORMAT};
use crate::underlay::{Ip, Underlay};
use field_rows::u16_at;
use scion_header::{Host, destination_address, next_header};

/// Where the destination of a datagram is reached in this AS: an IP host at the port where it listens for what comes
/// after the header, a service at its own address. There is nowhere for a service that the AS doesn't have, and for
/// other kinds of hosts.
#[inline(always)]
pub(crate) fn host_at(config: &Config, bytes: &[u8], payload: &[u8]) -> Option<Underlay>
    requires addresses { front_end bytes.now ≤ length bytes.now }
    ensures { result ≡ delivered_at (network config.now) (header_of bytes.now) payload.now }
{
    let destination = destination_address(bytes);
    match (destination.kind, destination.host) {
        (0, Host::Four(address)) => Some(Underlay {
            ip: Ip::V4(address),
            port: listening_port(config, next_header(bytes), payload),
        }),
        (0, Host::Sixteen(address)) => Some(Underlay {
            ip: Ip::V6(address),
            port: listening_port(config, next_header(bytes), payload),
        }),
        (1, Host::Four(service)) => config.service_at(u16_at(&service, 0)),
        _ => None,
    }
}

/// What the sender is told of a destination that can't be reached.
fn unreachable(bytes: &[u8]) -> Refusal
    requires addresses { front_end bytes.now ≤ length bytes.now }
    ensures { refused result ≡ unreachable (header_of bytes.now).destination }
{
    let destination = destination_address(bytes);
    match (destination.kind, destination.host) {
        (1, Host::Four(_)) => Refusal::Answer(Problem {
            kind: DESTINATION_UNREACHABLE,
            code: NO_ROUTE,
            pointer: 0,
        }),
        _ => parameter_problem(UNKNOWN_ADDRESS_FORMAT, 9),
    }
}

/// Where a packet is delivered, which is always somewhere, or what its sender is told.
fn deliver(config: &Config, bytes: &[u8], payload: &[u8]) -> Result<Option<Underlay>, Refusal>
    requires addresses { front_end bytes.now ≤ length bytes.now }
    ensures { (s : PacketState) (p : Packet) → network config.now ≡ s.network → header_of bytes.now ≡ s.header → p.header ≡ s.header
        → payload.now ≡ p.payload → MatchResult result (λ o. MatchOption o ⊥ (λ to. delivered s.network p ≡ row.Sent 0 (Some to) p)) (λ r. delivered s.network p ≡ refused r) }
{
    let at = host_at(config, bytes, payload);
    if at.is_none() {
        return Err(unreachable(bytes));
    }
    Ok(at)
}

impl PacketView {
    /// Whether it came from outside for this AS.
    fn is_for_here(&self, config: &Config, bytes: &[u8]) -> bool
        requires addresses { front_end bytes.now ≤ length bytes.now }
        ensures { (s : PacketState) → Shows self.now s → network config.now ≡ s.network → header_of bytes.now ≡ s.header
            → result ≡ (is_external s && is_local s.network s.header.destination) }
    {
        self.is_external() && config.is_destination_local(bytes)
    }

    /// It is for this AS: where it is delivered; none for a packet that goes on.
    pub(crate) fn delivery(
        &self,
        config: &Config,
        bytes: &[u8],
        payload: &[u8],
    ) -> Result<Option<Underlay>, Refusal>
        requires addresses { front_end bytes.now ≤ length bytes.now }
        ensures { (s : PacketState) → Shows self.now s → network config.now ≡ s.network → header_of bytes.now ≡ s.header → payload.now ≡ s.payload
            → MatchResult result (λ o. MatchOption o (row.delivery s ≡ row.GoesOn s) (λ to. row.delivery s ≡ row.Ends (row.Sent 0 (Some to) (packet s))))
            (λ r. row.delivery s ≡ row.Ends (refused r)) }
    {
        if !self.is_for_here(config, bytes) {
            return Ok(None);
        }
        deliver(config, bytes, payload)
    }
}
