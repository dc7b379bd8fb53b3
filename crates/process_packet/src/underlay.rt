//! The underlay: the UDP addresses between which datagrams travel.

/// An IP address, version 4 or 6.
#[derive(Clone, Copy, PartialEq, Eq)]
pub enum Ip {
    /// Its bytes in network order.
    V4([u8; 4]),
    /// The same.
    V6([u8; 16]),
}

/// An IP address and a UDP port.
#[derive(Clone, Copy, PartialEq, Eq)]
pub struct Underlay {
    pub ip: Ip,
    pub port: u16,
}

impl Ip {
    ghost use Rattle.std.specs.Prelude.{◌≡◌};
    ghost use Rattle.process_packet.specs.Underlay.{same_ip};

    /// Whether both are the same address, of the same version.
    #[inline(always)]
    pub(crate) fn is_same(&self, other: &Ip) -> bool
        ensures { result ≡ same_ip self.now other.now }
    {
        match (self, other) {
            (Ip::V4(mine), Ip::V4(theirs)) => mine == theirs,
            (Ip::V6(mine), Ip::V6(theirs)) => mine == theirs,
            _ => false,
        }
    }
}

impl Underlay {
    ghost use Rattle.std.specs.Prelude.{◌≡◌};
    ghost use Rattle.process_packet.specs.Underlay.{same_underlay};

    /// Whether both are the same address and port.
    pub(crate) fn is_same(&self, other: &Underlay) -> bool
        ensures { result ≡ same_underlay self.now other.now }
    {
        self.port == other.port && self.ip.is_same(&other.ip)
    }
}
