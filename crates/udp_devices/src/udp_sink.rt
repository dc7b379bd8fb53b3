//! Where what leaves by a link goes.

ghost use Rattle.std.specs.Prelude.{◌≡◌, ◌+◌, ◌-◌, ◌^◌, ◌<◌, ℕ, List, Option, None, is_ok, false, if◌then◌else◌};
ghost use Rattle.worker_laws.specs.Forwards.{AddsTo};
ghost use Rattle.worker_parts.specs.Told.{telling};
ghost use Rattle.udp_devices.specs.Devices.{Sending};
ghost use Rattle.udp_devices.specs.Ends.{IsAddressOf, destination};

use crate::address::socket_address;
use crate::ends::{Ends, destination};
use crate::readiness::wait_for_room;
use process_packet::Underlay;
use router_rules::Outgoing;
use std::io::{Error, ErrorKind};
use std::marker::Model;
use std::net::{SocketAddr, UdpSocket};
use worker_parts::{Sink, SinkFault};

/// Sends by a socket that isn't connected. Contracts see the ends of its link, and how often it failed.
pub struct UdpSink {
    socket: UdpSocket,
    ends: Ends,
    // Where a datagram goes that names no address; none where it goes nowhere. It's the same for each.
    unnamed: Option<SocketAddr>,
    failed: u64,
}

impl Model for UdpSink {
    ghost use Rattle.std.specs.Prelude.{None};
    ghost use Rattle.udp_devices.specs.Devices.{Sending};
    ghost use Rattle.udp_devices.specs.Ends.{IsAddressOf, destination};

    ghost Value = { Sending };

    ghost view = { λ s. record { ends = s.ends; failed = s.failed } };

    ghost invariant = { λ s. IsAddressOf s.unnamed (destination s.ends None) };
}

impl Drop for UdpSink {
    fn drop(self) {
        let UdpSink {
            socket: _,
            ends: _,
            unnamed: _,
            failed: _,
        } = self;
    }
}

/// Where a datagram goes, as the system's address.
fn address_of(ends: &Ends, to: Option<Underlay>) -> Option<SocketAddr>
    ensures { IsAddressOf result (destination ends.now to) }
{
    let to = destination(ends, to)?;
    Some(socket_address(to))
}

/// Whether the system took the whole datagram. Where it has no room, this waits for room once, and tries again.
fn sends(socket: &UdpSocket, bytes: &[u8], address: SocketAddr) -> bool {
    match socket.send_to(bytes, address) {
        Ok(count) => count == bytes.len(),
        Err(error) => sends_after(socket, bytes, address, error),
    }
}

/// The same after an error.
#[cold]
#[inline(never)]
fn sends_after(socket: &UdpSocket, bytes: &[u8], address: SocketAddr, error: Error) -> bool {
    if error.kind() != ErrorKind::WouldBlock || !wait_for_room(socket) {
        return false;
    }
    match socket.send_to(bytes, address) {
        Ok(count) => count == bytes.len(),
        Err(_) => false,
    }
}

impl UdpSink {
    /// A sink over the socket of the link with these ends.
    pub(crate) fn of(socket: UdpSocket, ends: Ends) -> UdpSink
        ensures { result ≡ record { ends = ends; failed = 0 } }
    {
        UdpSink {
            socket,
            ends,
            unnamed: address_of(&ends, None),
            failed: 0,
        }
    }

    /// Where a datagram goes, as the system's address.
    fn address(&self, to: Option<Underlay>) -> Option<SocketAddr>
        ensures { IsAddressOf result (destination self.now.ends to) }
    {
        match to {
            Some(to) => address_of(&self.ends, Some(to)),
            None => self.unnamed,
        }
    }

    /// Whether the datagram has a destination, and the system took it.
    fn is_sent(&self, to: Option<Underlay>, bytes: &[u8]) -> bool
        ensures { destination self.now.ends to ≡ None → result ≡ false }
    {
        match self.address(to) {
            Some(address) => sends(&self.socket, bytes, address),
            None => false,
        }
    }
}

impl Sink for UdpSink {
    ghost use Rattle.std.specs.Prelude.{◌≡◌};
    ghost use Rattle.std.proofs.Common.{refl, ◌∙◌};

    ghost told = { λ s. None };

    ghost failed = { λ s. s.failed };

    ghost same = { λ a b. b.ends ≡ a.ends };

    ghost same_self = { λ x. refl };

    ghost same_then = { λ x y z p q. q ∙ p };

    fn send(&mut self, out: &Outgoing, bytes: &[u8]) -> Result<(), SinkFault>
        requires { self.old.failed < 2 ^ 64 - 1 }
        ensures failed { self.new.failed ≡ self.old.failed + (if is_ok result then 0 else 1) }
        ensures told { AddsTo None (telling out.now bytes.now (is_ok result)) None }
        ensures device { self.new.ends ≡ self.old.ends }
        ensures nowhere { destination self.old.ends out.now.to ≡ None → is_ok result ≡ false }
    {
        if self.is_sent(out.to, bytes) {
            return Ok(());
        }
        self.failed += 1;
        Err(SinkFault)
    }

    fn failures(&self) -> u64 {
        self.failed
    }
}
