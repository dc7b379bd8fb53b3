//! The parts of the router's workers: items that own their buffer, the ends of pipes, the devices at
//! the edge, devices over lists for tests, and what a thread asks of a worker.
#![tactic(auto)]

mod booleans;
mod buffer;
mod egress_packet;
mod event;
mod gate;
mod giving_back;
mod inlet;
mod list_sink;
mod list_source;
mod outlet;
mod outlets;
mod packet;
mod read_buffer;
mod request;
mod results;
mod signal;
mod sink;
mod source;
mod stage;
mod turn;

pub use booleans::{are_both, is_either};
pub use buffer::{BUFFER_LEN, Buffer};
pub use egress_packet::EgressPacket;
pub use event::{Event, Wakeup};
pub use gate::Gate;
pub use giving_back::give_back;
pub use inlet::Inlet;
pub use list_sink::{ListSink, Sent};
pub use list_source::{ListSource, Next};
pub use outlet::Outlet;
pub use outlets::{end_all, end_at, offer_at};
pub use packet::Packet;
pub use packet_ledger::RunBrand;
pub use read_buffer::ReadBuffer;
pub use request::{SlowPathRequest, Withheld};
pub use results::{all_three, both};
pub use signal::Signal;
pub use sink::{Sink, SinkFault};
pub use source::{NextLen, Source};
pub use stage::{Stage, Turns};
pub use turn::Turn;
