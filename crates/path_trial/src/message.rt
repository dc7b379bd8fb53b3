//! Payloads, and the answers of routers.

use byteorder::{BigEndian, ByteOrder};

/// The protocols after the header.
pub const UDP: u8 = 17;

pub const SCMP: u8 = 202;

/// A traceroute request with a sequence number, from port 31000, at which the hosts listen. Routers don't look at its
/// checksum.
pub fn request(sequence: u8) -> [u8; 24] {
    [
        130, 0, 0, 0, 0x79, 0x18, 0, sequence, 0, 0, 0, 0, 0, 0, 0, 0, 0, 0, 0, 0, 0, 0, 0, 0,
    ]
}

/// What a router tells of itself. The number of its AS is in groups of 16 bits.
#[derive(Clone, Copy)]
pub struct Reply {
    pub isd: u16,
    pub autonomous_system: [u16; 3],
    pub interface: u64,
}

/// The reply that a datagram carries, if it carries one: an SCMP message of type 131 after the header.
pub fn reply_of(datagram: &[u8]) -> Option<Reply> {
    let words = *datagram.get(5)?;
    let message = datagram.get(4 * usize::from(words)..)?;
    if datagram[4] != SCMP || message.len() < 24 || message[0] != 131 {
        return None;
    }
    Some(Reply {
        isd: BigEndian::read_u16(&message[8..]),
        autonomous_system: [
            BigEndian::read_u16(&message[10..]),
            BigEndian::read_u16(&message[12..]),
            BigEndian::read_u16(&message[14..]),
        ],
        interface: BigEndian::read_u64(&message[16..]),
    })
}
