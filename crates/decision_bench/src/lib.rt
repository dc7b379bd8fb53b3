//! The decision in a loop, for a program that times it, and the ciphers below it.
#![tactic(auto)]

mod arrived;
mod border;
mod ciphers;
#[cfg(test)]
mod tests;
mod told;

ghost use Rattle.std.specs.Prelude.{◌≡◌, ◌≤◌, length};

use crate::arrived::Arrived;
use crate::border::border;
use crate::told::Told;
use process_packet::{Config, route_in_place};
use std::alloc::Global;

/// One decision, and the datagram as it came again: what the decision tells, in one number.
fn turn(config: &Config, arrived: &Arrived, bytes: &mut [u8]) -> u64 {
    let Some(datagram) = bytes.get_mut(arrived.begin..arrived.end) else {
        return 0;
    };
    let decision = route_in_place(
        config,
        arrived.link,
        arrived.source(),
        arrived.moment,
        datagram,
    );
    arrived.restore(datagram);
    Told::of(decision).sum()
}

/// Decides each datagram `rounds` times, and gives a sum over all decisions. The bytes are then as
/// they were, where `arrived` says so. Without memory it is 0.
#[unsafe(no_mangle)]
pub extern "C" fn decision_bench_rounds(
    alloc: Global,
    rounds: u64,
    arrivals: &[Arrived],
    bytes: &mut [u8],
) -> u64
    ensures { length bytes.new ≡ length bytes.old }
{
    let Ok(config) = border(alloc) else {
        return 0;
    };
    let mut sum = 0u64;
    for _ in 0..rounds {
        for arrived in arrivals {
            sum = sum.wrapping_add(turn(&config, arrived, bytes));
        }
    }
    sum
}

/// Decides one datagram, whose bytes are then those that leave, and tells it. Without memory the kind
/// is 0.
#[unsafe(no_mangle)]
pub extern "C" fn decision_bench_once(alloc: Global, arrived: &Arrived, datagram: &mut [u8]) -> Told
    ensures { result.kind ≤ 4 }
{
    let Ok(config) = border(alloc) else {
        return Told::nothing();
    };
    Told::of(route_in_place(
        &config,
        arrived.link,
        arrived.source(),
        arrived.moment,
        datagram,
    ))
}
