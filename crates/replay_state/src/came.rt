//! A datagram as it arrived.

ghost use Rattle.std.specs.Prelude.{◌≡◌, IfOk};
ghost use Rattle.replay_state.specs.Arrivals.{arrived_in};
ghost use Rattle.replay_state.specs.Items.{arrival_in};

use crate::bytes::Bytes;
use process_packet::{Arrival, Underlay};
use std::alloc::AllocError;

/// A datagram that arrived.
#[derive(Drop)]
pub struct Came {
    /// The number of the link by which it came.
    pub link: u16,
    /// Its number among the datagrams of that link, from 1 on.
    pub number: u64,
    /// The interface of the link; 0 is the internal network.
    pub interface: u16,
    /// The underlay's source of it.
    pub source: Underlay,
    /// When it came, in seconds of Unix time.
    pub now: u64,
    pub bytes: Bytes,
}

impl Came {
    /// What arrived on the link of a number.
    pub fn on(link: u16, arrival: Arrival) -> Came
        ensures { arrival_in result ≡ arrived_in link arrival }
    {
        Came {
            link,
            number: arrival.number,
            interface: arrival.link,
            source: arrival.source,
            now: arrival.now,
            bytes: Bytes::new(arrival.bytes),
        }
    }

    /// The same arrival with other bytes.
    pub fn with(&self, bytes: Bytes) -> Came
        ensures { result ≡ record self.entry.now { bytes = bytes } }
    {
        Came {
            link: self.link,
            number: self.number,
            interface: self.interface,
            source: self.source,
            now: self.now,
            bytes,
        }
    }

    /// A copy, its bytes too. `Err` where no memory is left.
    pub fn try_clone(&self) -> Result<Came, AllocError>
        ensures { IfOk result (λ came. came ≡ self.entry.now) }
    {
        Ok(self.with(self.bytes.try_clone()?))
    }
}
