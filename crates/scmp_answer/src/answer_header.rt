//! The header of an answer.

ghost use Rattle.std.specs.Prelude.{◌≡◌, ◌+◌, ◌*◌, ◌<◌, ◌≤◌, ◌/◌, length};
ghost use Rattle.scion_packet.specs.Header.{host_len};
ghost use Rattle.scion_header.specs.Address.{host_address};
ghost use Rattle.scion_header.specs.Header.{header_fields};
ghost use Rattle.scion_header.specs.Host.{host_bytes, length_code};
ghost use Rattle.scmp_answer.specs.Reply.{answer_header, ip_bytes, local_address};

use process_packet::{Config, Ip};
use scion_header::{Address, Header, Host};

/// The next header of SCMP messages.
const SCMP: u8 = 202;

fn host_of(ip: Ip) -> Host
    ensures bytes { host_bytes result ≡ ip_bytes ip }
    ensures len { length (host_bytes result) ≡ host_len (length_code result) }
{
    match ip {
        Ip::V4(bytes) => Host::Four(bytes),
        Ip::V6(bytes) => Host::Sixteen(bytes),
    }
}

/// How many bytes the host of an address has.
pub(crate) fn host_len(address: &Address) -> usize
    ensures len { result ≡ length (host_bytes address.now.host) }
    ensures fours { result ≡ 4 * (result / 4) }
    ensures small { result ≤ 16 }
{
    4 * (usize::from(address.host.length_code()) + 1)
}

/// The address of this router within its AS.
pub(crate) fn local_address(config: &Config) -> Address
    ensures { host_address result ≡ local_address config.now }
{
    let (isd, autonomous_system) = (config.isd, config.autonomous_system);
    Address {
        isd,
        autonomous_system,
        kind: 0,
        host: host_of(config.internal.ip),
    }
}

/// The header of an answer to a packet, by the length of the answer's header and of its message.
pub(crate) fn answer_header(
    here: Address,
    arriving: &Header,
    header_len: usize,
    message_len: usize,
) -> Header
    requires whole { 28 + length (host_bytes arriving.now.source.host) + length (host_bytes here.host) ≤ 4 * (header_len / 4) }
    requires header { header_len < 1024 }
    requires message { message_len < 65536 }
    ensures { header_fields result ≡ answer_header (host_address here) (header_fields arriving.now) header_len message_len }
{
    Header {
        traffic_class: arriving.traffic_class,
        flow_id: arriving.flow_id,
        next_header: SCMP,
        header_length: (header_len / 4) as u8,
        payload_length: message_len as u16,
        reserved: 0,
        destination: arriving.source,
        source: here,
    }
}
