//! A decision as the timing program reads it.

ghost use Rattle.std.specs.Prelude.{◌≡◌, ◌≤◌};
ghost use Rattle.decision_bench.specs.Told.{kind_of, what_of};

use process_packet::{Decision, Ip, Underlay};

/// A decision in numbers.
#[repr(C)]
#[derive(Clone, Copy)]
pub struct Told {
    /// 1 and 2 are sent, 2 with an address; 3 is answered; 4 is dropped; 0 is no decision.
    pub kind: u64,
    /// The leaving link; of an answer its type and code; of a drop its cause's number.
    pub what: u64,
    /// The port; of an answer the pointer.
    pub place: u64,
    /// The upper half of the IP address; 0 for IPv4.
    pub high: u64,
    /// Its lower half.
    pub low: u64,
}

impl Told {
    pub(crate) fn nothing() -> Told
        ensures { result.kind ≡ 0 }
    {
        Told {
            kind: 0,
            what: 0,
            place: 0,
            high: 0,
            low: 0,
        }
    }

    /// The decision in numbers.
    pub(crate) fn of(decision: Decision) -> Told
        ensures kind { result.kind ≡ kind_of decision }
        ensures what { result.what ≡ what_of decision }
        ensures small { result.kind ≤ 4 }
    {
        match decision {
            Decision::Send { link, to: None } => Told {
                kind: 1,
                what: u64::from(link),
                ..Told::nothing()
            },
            Decision::Send { link, to: Some(to) } => Told::sent(link, to),
            Decision::Answer(problem) => Told {
                kind: 3,
                what: u64::from(problem.kind) * 256 + u64::from(problem.code),
                place: u64::from(problem.pointer),
                high: 0,
                low: 0,
            },
            Decision::Drop(cause) => Told {
                kind: 4,
                what: u64::from(cause.number()),
                place: 0,
                high: 0,
                low: 0,
            },
        }
    }

    fn sent(link: u16, to: Underlay) -> Told
        ensures kind { result.kind ≡ 2 }
        ensures what { result.what ≡ link }
    {
        let (high, low) = match to.ip {
            Ip::V4(ip) => (0, u64::from(u32::from_be_bytes(ip))),
            Ip::V6(ip) => {
                let number = u128::from_be_bytes(ip);
                (
                    (number >> 64) as u64,
                    (number & 0xffff_ffff_ffff_ffff) as u64,
                )
            }
        };
        Told {
            kind: 2,
            what: u64::from(link),
            place: u64::from(to.port),
            high,
            low,
        }
    }

    /// All in one number.
    pub(crate) fn sum(&self) -> u64 {
        self.kind
            .wrapping_add(self.what)
            .wrapping_add(self.place)
            .wrapping_add(self.high)
            .wrapping_add(self.low)
    }
}
