//! Datagrams that sources give.

ghost use Rattle.std.specs.Prelude.{◌≡◌, IfOk, length, map, replicate, take};
ghost use Rattle.worker_order.specs.Heard.{Gave};
ghost use Rattle.sample_packets.specs.declared.datagram.TheConstants.{FIRST, IN_TIME};
ghost use Rattle.stages_tests.specs.declared.neighbour.TheConstants.{NEAR};
ghost use Rattle.worker_parts.specs.Heard.{failures_of, fits, heard};
ghost use Rattle.worker_parts.specs.ListSource.{heard_of};
ghost use Rattle.worker_parts.specs.Buffer.{buffer_len};

use crate::neighbour::NEAR;
use process_packet::Underlay;
use sample_packets::{FIRST, IN_TIME};
use std::alloc::{AllocError, Global};
use worker_parts::{Next, NextLen};

/// A datagram from an underlay address, at a moment.
pub fn datagram(alloc: Global, bytes: &[u8], from: Underlay, now: u64) -> Result<Next, AllocError>
    ensures { IfOk result (λ n. heard_of n ≡ Gave from now (take buffer_len bytes.now)) }
{
    let bytes = Vec::from_slice(alloc, bytes)?;
    Ok(Next::Datagram { bytes, from, now })
}

/// The first datagram, so often.
pub fn firsts(alloc: Global, count: usize) -> Result<Vec<Next>, AllocError>
    ensures { IfOk result (λ v. map heard_of v.items ≡ replicate count (Gave NEAR IN_TIME FIRST)) }
{
    let mut answers = Vec::new(alloc);
    for _ in 0..count {
        answers.push(datagram(alloc, &FIRST, NEAR, IN_TIME)?)?;
    }
    Ok(answers)
}

/// Writes a datagram to the front of a buffer.
pub fn give(datagram: &[u8; 92], buffer: &mut [u8]) -> NextLen
    requires { length buffer.old ≡ buffer_len }
    ensures same { length buffer.new ≡ length buffer.old }
    ensures gave { heard buffer.new result ≡ Gave NEAR IN_TIME datagram.now }
    ensures failed { failures_of result ≡ 0 }
    ensures fits { fits result }
{
    let (front, _) = buffer.split_at_mut(92);
    front.copy_from_slice(datagram);
    NextLen::Datagram {
        len: 92,
        from: NEAR,
        now: IN_TIME,
    }
}
