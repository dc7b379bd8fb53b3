//! Path authorisation against an attacker: the laws of any datagram, whoever made it, on its way through a net of border
//! routers. Nothing here runs.
#![tactic(auto)]

mod laws;

pub use laws::{
    answers_go_back, deliveries_are_authorised, links_are_few, one_hops_cross_one_link,
    premise_is_met, segments_are_beaconed, walks_are_valley_free, walks_go_as_beaconed,
};
