//! What all workers of a router share.

ghost use Rattle.router_rules.specs.Ports.{IsPortsOf};

use crate::ports::Ports;
use process_packet::Config;

/// A configuration and its links, as all workers of a router share them.
pub struct Shared {
    pub config: Config,
    pub ports: Ports,
    pub ghost of: { IsPortsOf config ports },
}

impl Drop for Shared {
    fn drop(self) {
        let Shared {
            config: _,
            ports: _,
        } = self;
    }
}

impl Shared {
    ghost use Rattle.std.specs.Prelude.{◌≡◌};

    /// The configuration with its links, which are looked up once. It takes no memory.
    pub fn new(config: Config) -> Shared
        ensures { result.config ≡ config }
    {
        let ports = Ports::of(&config);
        Shared { config, ports }
    }
}
