//! The line of a replay that tells of a datagram: `arrive <link> <from or -> <now> <hex>`.
ghost use Rattle.std.specs.Prelude.{◌≡◌, IfOk, IfSome, option_map, true};
ghost use Rattle.process_packet.specs.Network.{has_link, network};
ghost use Rattle.cli_replay.specs.ArriveLine.{arrival_of, datagram_of_line, head_of, if_arrive, incoming_datagram, source_of};

use crate::names::read_link;
use cli_io::{ArrivalContext, read_hex, text_of, usual_source};
use process_packet::{Config, Underlay};
use std::alloc::{AllocError, Global};
use text_values::pieces::{read_number, split_once};
use text_values::read_underlay;

/// The last second since 1970 at which a datagram may arrive.
const LAST_SECOND: u64 = 1099511627775;

/// A datagram that arrives.
#[derive(Drop)]
pub struct Incoming {
    pub arrival_context: ArrivalContext,
    pub bytes: Vec<u8>,
}

/// The source that a word names: an address, or the usual one for `-`.
fn read_source(config: &Config, link: u16, text: &str) -> Option<Underlay>
    ensures { result ≡ source_of config.now link text.now }
{
    match text {
        "-" => usual_source(config, link),
        _ => read_underlay(text),
    }
}

/// What follows the word `arrive` and a blank.
fn after_arrive<'a>(word: &str, rest: &'a str) -> Option<&'a str>
    ensures { option_map (λ text. text.now) result ≡ if_arrive (word.now, rest.now) }
{
    match word {
        "arrive" => Some(rest),
        _ => None,
    }
}

/// How a datagram arrives, and the digits of its bytes.
#[tactic(auto, unfolding(crate::specs::ArriveLine::head_of))]
fn read_head<'a>(config: &Config, text: &'a str) -> Option<(ArrivalContext, &'a str)>
    ensures value { option_map (λ parts. (parts.0, parts.1.now)) result ≡ head_of config.now text.now }
    ensures there { IfSome result (λ parts. has_link (network config.now) parts.0.link ≡ true) }
{
    let (word, rest) = split_once(text, ' ')?;
    let rest = after_arrive(word, rest)?;
    let (link, rest) = split_once(rest, ' ')?;
    let (from, rest) = split_once(rest, ' ')?;
    let (moment, hex) = split_once(rest, ' ')?;
    let link = read_link(config, link)?;
    let source = read_source(config, link, from)?;
    let moment = read_number(moment, LAST_SECOND)?;
    Some((
        ArrivalContext {
            link,
            source,
            moment,
        },
        hex,
    ))
}

/// The datagram that a text tells of.
#[tactic(auto, unfolding(crate::specs::ArriveLine::arrival_of))]
fn read_arrival_of(
    alloc: Global,
    config: &Config,
    text: &str,
) -> Result<Option<Incoming>, AllocError>
    ensures value { IfOk result (λ found. option_map incoming_datagram found ≡ arrival_of config.now text.now) }
    ensures there { IfOk result (λ found. IfSome found (λ x. has_link (network config.now) x.arrival_context.link ≡ true)) }
{
    let Some((arrival_context, hex)) = read_head(config, text) else {
        return Ok(None);
    };
    let mut bytes = Vec::new(alloc);
    if read_hex(hex.as_bytes(), &mut bytes)? {
        Ok(Some(Incoming {
            arrival_context,
            bytes,
        }))
    } else {
        Ok(None)
    }
}

/// The datagram that a line of a replay tells of, if it is such a line.
///
/// The source `-` is the usual one of the link. The moment is a second since 1970 up to 1099511627775.
/// The bytes are pairs of hex digits of either case, and may be none; the line then ends in a blank.
#[tactic(auto, unfolding(crate::specs::ArriveLine::datagram_of_line))]
pub fn read_arrival(
    alloc: Global,
    config: &Config,
    line: &[u8],
) -> Result<Option<Incoming>, AllocError>
    ensures value { IfOk result (λ found. option_map incoming_datagram found ≡ datagram_of_line config.now line.now) }
    ensures there { IfOk result (λ found. IfSome found (λ x. has_link (network config.now) x.arrival_context.link ≡ true)) }
{
    match text_of(line) {
        Some(text) => read_arrival_of(alloc, config, text),
        None => Ok(None),
    }
}
