//! Why a text is refused as a configuration.

use thiserror::Error;

/// The first fault of a text that is not a configuration, in the order in which `read_config` reads its keys.
#[derive(Clone, Copy, Debug, PartialEq, Eq, Error)]
pub enum ConfigFault {
    /// The text is not TOML, or has an integer wider than 64 bits.
    #[error("the text is not TOML")]
    NotToml,
    /// A key that has to be there is not.
    #[error("a key is missing")]
    Missing,
    /// A value has another type than its key asks for, or is a word that the key does not know.
    #[error("a value has the wrong type, or is not one of the known words")]
    WrongType,
    /// A text is not an ISD-AS number, as `1-ff00:0:110` or `1-64512` is; neither part may be 0.
    #[error("the ISD-AS is not valid")]
    IsdAs,
    /// The forwarding key is not 32 hex digits.
    #[error("the key is not 32 hex digits")]
    Key,
    /// A text is not an IP address with a port from 1 to 65535.
    #[error("an address is not valid")]
    Address,
    /// An interface is 0; or one is given twice, among links and siblings, or a service is; or a
    /// link's neighbour is the AS itself.
    #[error("an interface is 0, an interface or a service is given twice, or a neighbour is this AS")]
    Interface,
    /// A number is out of its range, or a list is longer than its limit, or empty where it may not be.
    #[error("a number or a list is outside its limits")]
    Limit,
    /// There was no memory left, at whatever key.
    #[error("no memory was left")]
    Memory,
}

impl ConfigFault {
    ghost use Rattle.std.specs.Prelude.{◌≡◌};
    ghost use Rattle.router_config.specs.Fault.{number_of};

    /// The number by which the fault is printed, 1 to 9.
    pub fn number(&self) -> u8
        ensures { result ≡ number_of self.now }
    {
        match self {
            ConfigFault::NotToml => 1,
            ConfigFault::Missing => 2,
            ConfigFault::WrongType => 3,
            ConfigFault::IsdAs => 4,
            ConfigFault::Key => 5,
            ConfigFault::Address => 6,
            ConfigFault::Interface => 7,
            ConfigFault::Limit => 8,
            ConfigFault::Memory => 9,
        }
    }
}
