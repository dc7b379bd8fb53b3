//! Tests of the running router over memory and over sockets, and of what its threads, the ends of its pipes and its
//! sockets' devices do. Nothing here runs in the router.
#![tactic(auto)]

#[cfg(test)]
mod closing;
#[cfg(test)]
mod cues;
#[cfg(test)]
mod gate;
#[cfg(test)]
mod gates;
#[cfg(test)]
mod loopback;
#[cfg(test)]
mod many;
#[cfg(test)]
mod memory;
#[cfg(test)]
mod no_hosts;
#[cfg(test)]
mod opening;
#[cfg(test)]
mod play;
#[cfg(test)]
mod pool;
mod reports;
#[cfg(test)]
mod routers;
#[cfg(test)]
mod setup;
#[cfg(test)]
mod sink;
#[cfg(test)]
mod slow;
#[cfg(test)]
mod sockets;
#[cfg(test)]
mod source;
#[cfg(test)]
mod threads;

pub use reports::sent_by;
