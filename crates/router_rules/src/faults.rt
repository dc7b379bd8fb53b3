//! What a receiver refuses.

ghost use Rattle.std.specs.Prelude.{◌≡◌, ◌≤◌, None, IfNone, length};
ghost use Rattle.router_rules.specs.Rules.{inspected};
ghost use Rattle.scion_packet.specs.Header.{front_end};

use process_packet::{Cause, Config, LONGEST_DATAGRAM, header_cause, is_one_hop};
use scion_header::check_header_as;

/// The path types of SCION paths and of paths of one hop.
const SCION_PATH: u8 = 1;

const ONE_HOP_PATH: u8 = 2;

/// The fault for which a receiver drops a datagram that came by a link, if it does: its length, or its header's.
pub fn inspect(config: &Config, link: u16, bytes: &[u8]) -> Option<Cause>
    ensures fault { result ≡ inspected config.now link bytes.now }
    ensures addresses { IfNone result (front_end bytes.now ≤ length bytes.now) }
{
    if bytes.len() > LONGEST_DATAGRAM {
        return Some(Cause::TooLong);
    }
    let path_type = if is_one_hop(config, link, bytes) {
        ONE_HOP_PATH
    } else {
        SCION_PATH
    };
    match check_header_as(path_type, bytes) {
        Ok(_) => None,
        Err(fault) => Some(header_cause(fault)),
    }
}
