//! Tests of the workers by turns, over a sample router, of their parts, and of the rules that they follow, and
//! their times; and what tests of the running router share with them. Nothing here runs in the router.
#![tactic(auto)]

mod counts;
#[cfg(test)]
mod datagrams;
#[cfg(test)]
mod devices;
#[cfg(test)]
mod ends;
#[cfg(test)]
mod flows;
#[cfg(test)]
mod letters;
mod neighbour;
mod new_ends;
#[cfg(test)]
mod open_gate;
#[cfg(test)]
mod rules;
#[cfg(test)]
mod run;
#[cfg(test)]
mod sample_router;
#[cfg(test)]
mod seats;
#[cfg(test)]
mod start;
#[cfg(test)]
mod timing;
#[cfg(test)]
mod turns;

pub use counts::{
    CLOSED, FULL_LINK, FULL_PROCESSOR, FULL_SLOW_PATH, NO_BUFFER, NOTHING, SEND_FAILED, totals,
};
pub use neighbour::NEAR;
pub use new_ends::{ends_of, next_producer};
