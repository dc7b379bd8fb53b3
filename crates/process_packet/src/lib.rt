//! The decision of a SCION border router: what is done with a datagram that arrived, and with which
//! bytes it leaves.
#![tactic(auto)]

mod arrival;
mod arriving;
mod authority;
mod cause;
mod config;
mod decide;
mod decision;
mod delivery;
mod departure;
mod dispatch;
mod exit;
mod host_port;
mod laws;
mod leaving;
mod link_control;
mod lookup;
mod neighbours;
mod one_hop;
mod one_hop_departure;
mod one_hop_view;
mod packet_view;
mod parsed_headers;
mod path_hop;
mod port_range;
mod refusal;
mod request;
mod routed;
mod scmp;
mod totals;
mod underlay;

pub use arrival::{Arrival, NoMemory, Routed};
pub use cause::{CAUSES, Cause};
pub use config::Config;
pub use decision::{Decision, Problem};
pub use dispatch::{is_one_hop, route_in_place};
pub use host_port::host_port_of;
pub use laws::{
    answers_are_sound, authorised_is_sent, control_is_answered, decided_by_kind,
    delivers_to_its_host, hosts_are_reached, hosts_listen_so, next_place_is_next,
    no_hop_is_spliced_in, nothing_else_changes, one_hops_are_refused_so, one_hops_differ_in_place,
    one_hops_enter, one_hops_keep_the_rest, one_hops_leave, only_authorised, only_lawful_ways,
    pointers_are_right, problems_are_lawful, refused_are_told, sent_by_three_ways,
    ways_are_valley_free, what_leaves_is_lawful, words_say_fields,
};
pub use link_control::{BFD, BFD_ANSWER_FLOW};
pub use neighbours::{Bands, Link, Service, Sibling};
pub use parsed_headers::LONGEST_DATAGRAM;
pub use port_range::PortRange;
pub use refusal::header_cause;
pub use request::trace_request;
pub use routed::route;
pub use scmp::{DESTINATION_UNREACHABLE, PARAMETER_PROBLEM, TRACEROUTE_REPLY};
pub use totals::Totals;
pub use underlay::{Ip, Underlay};
