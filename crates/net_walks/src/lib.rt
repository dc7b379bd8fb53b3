//! The walk of a packet through a net of border routers, stop by stop, and the way of answers back.
#![tactic(auto)]

mod carrying;
mod laws;
mod stop;
mod walking;

pub use laws::{
    answers_come_back, answers_stand_too, beacons_cross, lawful_starts_are_walked,
    replies_to_beacons_set_out, requests_are_walked, routers_answer_from_home,
};
pub use stop::Stop;
pub use walking::walk;
