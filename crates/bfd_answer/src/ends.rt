//! The header of an answer: from this end of the link to the other one.

ghost use Rattle.std.specs.Prelude.{◌≡◌, ◌≤◌, ◌+◌, length};
ghost use Rattle.scion_packet.specs.Header.{front_len, host_len};
ghost use Rattle.scion_header.specs.Address.{host_address};
ghost use Rattle.scion_header.specs.Header.{header_fields};
ghost use Rattle.scion_header.specs.Host.{host_bytes, length_code};
ghost use Rattle.process_packet.specs.Network.{network};
ghost use Rattle.bfd_answer.specs.Answer.{answer_header, far_end, ip_bytes, near_end};

use bfd_control::CONTROL_PACKET_LEN;
use process_packet::{BFD, BFD_ANSWER_FLOW, Config, Ip, Link};
use scion_header::{Address, Domain, Header, Host};

/// The traffic class of answers: expedited forwarding.
const TRAFFIC_CLASS: u8 = 0xb8;

/// How many bytes a path of one hop has (draft-dekater-scion-dataplane, "One-Hop Path Type").
pub(crate) const ONE_HOP_LEN: usize = 32;

fn host_of(ip: Ip) -> Host
    ensures bytes { host_bytes result ≡ ip_bytes ip }
    ensures len { length (host_bytes result) ≡ host_len (length_code result) }
    ensures small { length (host_bytes result) ≤ 16 }
{
    match ip {
        Ip::V4(bytes) => Host::Four(bytes),
        Ip::V6(bytes) => Host::Sixteen(bytes),
    }
}

/// The neighbour's router at the other end of the link.
fn far_end(link: &Link, there: Domain) -> Address
    ensures address { host_address result ≡ far_end link.now there }
    ensures small { length (host_bytes result.host) ≤ 16 }
{
    Address {
        isd: there.isd,
        autonomous_system: there.autonomous_system,
        kind: 0,
        host: host_of(link.remote.ip),
    }
}

/// This router at its end of the link.
fn near_end(config: &Config, link: &Link) -> Address
    ensures address { host_address result ≡ near_end (network config.now) link.now }
    ensures small { length (host_bytes result.host) ≤ 16 }
{
    Address {
        isd: config.isd,
        autonomous_system: config.autonomous_system,
        kind: 0,
        host: host_of(link.local.ip),
    }
}

/// The header of an answer over the link; its path type is that of a path of one hop.
pub(crate) fn header_over(config: &Config, link: &Link, there: Domain) -> Header
    ensures header { record (header_fields result) { path_type = 2 } ≡ answer_header (network config.now) link.now there }
    ensures short { front_len (header_fields result) ≤ 60 }
{
    let destination = far_end(link, there);
    let source = near_end(config, link);
    let len = 28 + destination.host.as_slice().len() + source.host.as_slice().len() + ONE_HOP_LEN;
    Header {
        traffic_class: TRAFFIC_CLASS,
        flow_id: BFD_ANSWER_FLOW,
        next_header: BFD,
        header_length: (len / 4) as u8,
        payload_length: CONTROL_PACKET_LEN as u16,
        reserved: 0,
        destination,
        source,
    }
}
