//! Binding the sockets of a router's links.

ghost use Rattle.std.specs.Prelude.{◌≡◌, ◌<◌, ℕ, IfOk, IfErr, map};
ghost use Rattle.std.specs.List.{range_with_len};
ghost use Rattle.router_rules.specs.Links.{interface_at, link_count};
ghost use Rattle.udp_devices.specs.Binding.{IsOfRouter, sink_at, source_at};
ghost use Rattle.udp_devices.specs.declared.binding.BindFault.TheVariants.{Memory};

use crate::address::socket_address;
use crate::ends::{Ends, ends_of};
use crate::readiness::{limit_waits, widen};
use crate::udp_sink::UdpSink;
use crate::udp_source::UdpSource;
use process_packet::Config;
use router_rules::{interface_at, link_count};
use std::alloc::{AllocFailed, Global};
use std::io;
use std::net::{Net, UdpSocket};
use std::time::Clock;
use thiserror::Error;

/// Why the sockets of a router can't be had.
#[derive(Clone, Copy, Debug, PartialEq, Eq, Error)]
pub enum BindFault {
    /// The socket of the link with this interface; 0 is the internal network.
    #[error("socket {0}")]
    Socket(u16),
    /// No memory was left for the lists.
    #[error("memory")]
    Memory,
}

impl<T: Drop> From<AllocFailed<T>> for BindFault {
    ghost from_gives = { λ _ e. e ≡ Memory };

    fn from(_error: AllocFailed<T>) -> BindFault {
        BindFault::Memory
    }
}

/// A source and a sink for each link, in ascending order of the interfaces.
#[derive(Drop)]
pub struct Devices<R: Clock + Drop> {
    pub sources: Vec<UdpSource<R>>,
    pub sinks: Vec<UdpSink>,
}

/// A socket at an address that doesn't wait and isn't connected, twice, with a large receive buffer.
fn open<R: Net>(rt: &R, ends: &Ends) -> io::Result<(UdpSocket, UdpSocket)> {
    let socket = UdpSocket::bind(rt, socket_address(ends.local))?;
    socket.set_nonblocking(true)?;
    limit_waits(&socket)?;
    widen(&socket);
    let other = socket.try_clone()?;
    Ok((socket, other))
}

/// The devices of a link with these ends, on one socket.
pub fn open_link<R: Net + Clock + Copy + Drop>(
    rt: &R,
    ends: Ends,
) -> io::Result<(UdpSource<R>, UdpSink)>
    ensures { IfOk result (λ both. (both.0 ≡ record { local = ends.local; failed = 0 }) × (both.1 ≡ record { ends = ends; failed = 0 })) }
{
    let (reads, sends) = open(rt, &ends)?;
    Ok((
        UdpSource::of(*rt, reads, ends.local),
        UdpSink::of(sends, ends),
    ))
}

/// Binds a socket at the internal address, and then one at each link's own address, in ascending order of
/// the interfaces. The fault names the first that can't be had.
pub fn bind_links<R: Net + Clock + Copy + Drop>(
    rt: &R,
    alloc: Global,
    config: &Config,
) -> Result<Devices<R>, BindFault>
    ensures sources { IfOk result (λ d. d.sources.items ≡ map (source_at config.now) (range_with_len 0 (link_count config.now))) }
    ensures sinks { IfOk result (λ d. d.sinks.items ≡ map (sink_at config.now) (range_with_len 0 (link_count config.now))) }
    ensures fault { IfErr result (IsOfRouter config.now) }
{
    let count = link_count(config);
    let mut sources = Vec::new(alloc);
    let mut sinks = Vec::new(alloc);
    for index in 0..count {
        let interface = interface_at(config, index);
        let Ok((source, sink)) = open_link(rt, ends_of(config, interface)) else {
            return Err(BindFault::Socket(interface));
        };
        sources.push(source)?;
        sinks.push(sink)?;
    }
    Ok(Devices { sources, sinks })
}
