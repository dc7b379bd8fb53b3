//! A host's address within its AS.

ghost use Rattle.std.specs.Prelude.{◌≡◌, ◌+◌, ◌<◌, ◌≤◌, length};
ghost use Rattle.field_rows.specs.Place.{text_at};
ghost use Rattle.scion_packet.specs.Header.{host_len};
ghost use Rattle.scion_header.specs.Host.{host_bytes, length_code};

use field_rows::array_at;

/// The address of a host within its autonomous system, by its length in bytes: an IPv4 address has
/// four, an IPv6 address sixteen.
#[derive(Clone, Copy, PartialEq, Eq)]
pub enum Host {
    /// An IPv4 address or a service, by the address's kind.
    Four([u8; 4]),
    /// Of no kind that the standard names.
    Eight([u8; 8]),
    /// Of no kind that the standard names.
    Twelve([u8; 12]),
    /// An IPv6 address, by the address's kind.
    Sixteen([u8; 16]),
}

impl Host {
    /// The bytes of the address.
    pub fn as_slice(&self) -> &[u8]
        ensures text { result.now ≡ host_bytes self.now }
        ensures len { length result.now ≡ host_len (length_code self.now) }
    {
        match self {
            Host::Four(bytes) => bytes,
            Host::Eight(bytes) => bytes,
            Host::Twelve(bytes) => bytes,
            Host::Sixteen(bytes) => bytes,
        }
    }

    /// The length as the header has it (DL, SL): one less than the number of four-byte words.
    pub fn length_code(&self) -> u8
        ensures code { result ≡ length_code self.now }
        ensures small { result < 4 }
    {
        match self {
            Host::Four(_) => 0,
            Host::Eight(_) => 1,
            Host::Twelve(_) => 2,
            Host::Sixteen(_) => 3,
        }
    }
}

/// The host of this length code whose bytes begin at `at`.
pub(crate) fn host_at(bytes: &[u8], at: usize, code: u8) -> Host
    requires code { code < 4 }
    requires room { at + host_len code ≤ length bytes.now }
    ensures text { host_bytes result ≡ text_at bytes.now at (host_len code) }
    ensures code { length_code result ≡ code }
    ensures len { length (host_bytes result) ≡ host_len code }
{
    match code {
        0 => Host::Four(array_at(bytes, at)),
        1 => Host::Eight(array_at(bytes, at)),
        2 => Host::Twelve(array_at(bytes, at)),
        _ => Host::Sixteen(array_at(bytes, at)),
    }
}
