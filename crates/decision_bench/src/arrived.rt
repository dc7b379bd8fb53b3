//! A datagram as the timing program hands it over.

use process_packet::{Ip, Underlay};

/// Where a datagram lies among the bytes, how it arrived, and its five bytes that a decision may
/// change, with their places in the datagram.
#[repr(C)]
#[derive(Clone, Copy)]
pub struct Arrived {
    /// Where it begins among the bytes.
    pub begin: usize,
    /// Where it ends, exclusive.
    pub end: usize,
    /// When it arrived, in seconds of Unix time.
    pub moment: u64,
    /// The IPv4 address of the underlay's source.
    pub address: u32,
    /// Its port.
    pub port: u16,
    /// The link by which it came; 0 is the internal network.
    pub link: u16,
    /// The places of the five bytes in the datagram.
    pub places: [u16; 5],
    /// What they were when it arrived.
    pub values: [u8; 5],
}

impl Arrived {
    pub(crate) fn source(&self) -> Underlay {
        Underlay {
            ip: Ip::V4(self.address.to_be_bytes()),
            port: self.port,
        }
    }

    /// Sets the five bytes to what they were.
    pub(crate) fn restore(&self, datagram: &mut [u8]) {
        for k in 0..5 {
            if let Some(byte) = datagram.get_mut(usize::from(self.places[k])) {
                *byte = self.values[k];
            }
        }
    }
}
