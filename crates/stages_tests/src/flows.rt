//! Devices whose packets are timed: datagrams of many flows, and a sum of what leaves.

ghost use Rattle.std.specs.Prelude.{◌≡◌, ◌+◌, ◌-◌, ◌^◌, ◌<◌, None, false, is_ok, if◌then◌else◌, length};
ghost use Rattle.worker_laws.specs.Forwards.{AddsTo};
ghost use Rattle.worker_parts.specs.Heard.{failures_of, fits, heard};
ghost use Rattle.worker_parts.specs.Told.{telling};

use crate::datagrams::give;
use router_rules::Outgoing;
use sample_packets::{FIRST, PATH_AT};
use worker_parts::{NextLen, Sink, SinkFault, Source};

/// How many flows there are.
const FLOWS: usize = 64;

/// Where the segment's identifier is.
const SEGMENT_AT: usize = PATH_AT + 6;

/// Gives the first datagram, of one flow after the other. Each is copied whole, as the system copies one
/// that it received: of a constant the compiler would write the parts.
#[derive(Drop)]
pub struct Flows {
    datagrams: [[u8; 92]; FLOWS],
    flow: usize,
}

impl Flows {
    pub fn new() -> Flows {
        let mut datagrams = [FIRST; FLOWS];
        for flow in 0..FLOWS {
            datagrams[flow][3] = flow as u8;
        }
        Flows { datagrams, flow: 0 }
    }
}

impl Source for Flows {
    ghost told = { λ s. None };

    ghost failed = { λ s. 0 };

    ghost same = { λ a b. Unit {0} };

    ghost same_self = { λ x. tt };

    ghost same_then = { λ x y z p q. tt };

    ghost waits = { λ s said. said ≡ false };

    fn next_into(&mut self, buffer: &mut [u8]) -> NextLen {
        let datagram = &self.datagrams[self.flow % FLOWS];
        self.flow = self.flow.wrapping_add(1);
        give(datagram, buffer)
    }

    fn wait(&mut self) -> bool {
        false
    }

    fn failures(&self) -> u64 {
        0
    }
}

/// Adds up the numbers, flows, cursors and segment identifiers of what it is handed.
#[derive(Drop)]
pub struct Sums {
    sum: u64,
}

impl Sums {
    pub fn new() -> Sums {
        Sums { sum: 0 }
    }

    pub fn sum(&self) -> u64 {
        self.sum
    }
}

impl Sink for Sums {
    ghost told = { λ s. None };

    ghost failed = { λ s. 0 };

    ghost same = { λ a b. Unit {0} };

    ghost same_self = { λ x. tt };

    ghost same_then = { λ x y z p q. tt };

    fn send(&mut self, out: &Outgoing, bytes: &[u8]) -> Result<(), SinkFault> {
        let mut sum = self.sum.wrapping_add(out.number);
        for at in [3, PATH_AT, SEGMENT_AT, SEGMENT_AT + 1] {
            if let Some(byte) = bytes.get(at) {
                sum = sum.wrapping_add(u64::from(*byte));
            }
        }
        self.sum = sum;
        Ok(())
    }

    fn failures(&self) -> u64 {
        0
    }
}
