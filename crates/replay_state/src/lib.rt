//! The parts of the pipeline as a machine: what is in pipes and hands, all that is kept of a run, and
//! what the pipeline asks of the router of one packet.
#![tactic(auto)]

mod bytes;
mod came;
mod cause;
mod fate;
mod hands;
mod item;
mod looks;
mod packet;
mod pipe;
mod pipes;
mod rules;
mod sent;

pub use bytes::Bytes;
pub use came::Came;
pub use cause::{Cause, reason};
pub use fate::{Fate, Fates};
pub use hands::{Hand, Hands};
pub use item::{Item, Out, Parcel, is_named, is_packet};
pub use looks::Looks;
pub use packet::{Packet, Request};
pub use pipe::{Entry, Pipe, Refusal};
pub use pipes::Pipes;
pub use rules::{Outcome, decide, home, reply};
pub use sent::Sent;
