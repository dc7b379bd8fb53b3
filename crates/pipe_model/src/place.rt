//! Where a packet is: the first of the places at which it is.

ghost use Rattle.std.specs.List.{flat_map};
ghost use Rattle.std.specs.Prelude.{◌≡◌, ◌≤◌, Some, option_map, slice_index_or};
ghost use Rattle.order_laws.specs.Item.{is_one};
ghost use Rattle.replay_laws.specs.Place.{place_at, in_fates, in_hands, in_pipes, in_sent, places};
ghost use Rattle.replay_laws.specs.World.{Empty};
ghost use Rattle.router_rules.specs.Links.{link_count};
ghost use Rattle.router_rules.specs.Rules.{rules};
ghost use Rattle.replay_state.specs.Items.{hand_in};
ghost use Rattle.replay_state.specs.Sent.{first};
ghost use Rattle.pipe_model.specs.Finding.{has_in_hand, is_among};
ghost use Rattle.pipe_model.specs.Shown.{named_in, stands_in};

use process_packet::{Cause, Config};
use replay_places::slow_seat;
use replay_state::{Entry, Fates, Hand, Hands, Pipe, Sent, is_named, reason};
use replay_steps::State;
use router_rules::{Worker, interface_at, link_count};

/// Where a packet, its problem or its answer is. A pipe is named by its consumer.
#[derive(Clone, Copy, PartialEq, Eq)]
pub enum Place {
    Hand(Worker),
    Pipe(Worker),
    /// The pipe of the high band of a link.
    HighPipe(u16),
    Sent,
    Answered,
    Dropped(Cause),
}

/// The worker of a seat.
pub fn worker_at(config: &Config, seat: usize) -> Worker
    ensures { result ≡ named_in config.now (Rattle.replay_laws.specs.Place.worker_at (rules config.now) seat) }
{
    let links = link_count(config);
    let slow = slow_seat(config);
    if seat < links {
        Worker::Receiver(interface_at(config, seat))
    } else if seat < slow {
        Worker::Processor((seat - links) as u8)
    } else if slow < seat {
        Worker::Forwarder(interface_at(config, seat - (slow + 1)))
    } else {
        Worker::Slow
    }
}

/// Where a link's packet is that is in one of the pipes of the links, which are counted from 0, two
/// of each link.
fn link_place(config: &Config, pipe: usize) -> Place
    ensures { result ≡ stands_in config.now (Rattle.replay_laws.specs.Place.link_place pipe) }
{
    let interface = interface_at(config, pipe / 2);
    if pipe % 2 == 0 {
        Place::Pipe(Worker::Forwarder(interface))
    } else {
        Place::HighPipe(interface)
    }
}

/// Where a packet is that is in a pipe.
pub fn place_at(config: &Config, pipe: usize) -> Place
    requires { link_count config.now ≤ pipe }
    ensures { result ≡ stands_in config.now (place_at (rules config.now) pipe) }
{
    let links = link_count(config);
    let slow = slow_seat(config);
    if pipe < slow {
        Place::Pipe(Worker::Processor((pipe - links) as u8))
    } else if slow < pipe {
        link_place(config, pipe - (slow + 1))
    } else {
        Place::Pipe(Worker::Slow)
    }
}

/// Whether this hand has the packet.
fn is_held(hand: &Hand, link: u16, number: u64) -> bool
    ensures { result ≡ has_in_hand (is_one link number) (hand_in (Some hand.now)) }
{
    match hand {
        Hand::Got(item) | Hand::Owes(item) => is_named(item, link, number),
    }
}

/// Whether the packet is in the hand of this seat.
fn is_in_hand(hands: &Hands, seat: usize, link: u16, number: u64) -> bool
    ensures { result ≡ has_in_hand (is_one link number) (slice_index_or hands.now seat Empty) }
{
    match hands.get(seat) {
        None => false,
        Some(hand) => is_held(hand, link, number),
    }
}

/// Its place, where it is in a hand.
pub fn find_in_hands(config: &Config, hands: &Hands, link: u16, number: u64) -> Option<Place>
    ensures { result ≡ option_map (stands_in config.now) (first (in_hands (rules config.now) (is_one link number) 0 hands.now)) }
{
    for seat in 0..hands.len() {
        if is_in_hand(hands, seat, link, number) {
            return Some(Place::Hand(worker_at(config, seat)));
        }
    }
    None
}

/// Whether it is among these entries.
fn is_among(entries: &[Entry], link: u16, number: u64) -> bool
    ensures { result ≡ is_among (is_one link number) entries.now }
{
    entries
        .iter()
        .any(|entry| is_named(entry.item(), link, number))
}

/// Its place, where one of these pipes holds it: all but the links' lists of arrivals.
pub fn find_in_pipes(config: &Config, pipes: &[Pipe], link: u16, number: u64) -> Option<Place>
    ensures { result ≡ option_map (stands_in config.now) (first (in_pipes (rules config.now) (is_one link number) (link_count config.now) pipes.now)) }
{
    let links = link_count(config);
    for (i, pipe) in pipes.iter().enumerate() {
        if is_among(pipe.held(), link, number) {
            return Some(place_at(config, links + i));
        }
    }
    None
}

/// Its place, where it or its answer was sent.
pub fn find_in_sent(config: &Config, sent: &Sent, link: u16, number: u64) -> Option<Place>
    ensures { result ≡ option_map (stands_in config.now) (first (flat_map (in_sent (is_one link number)) sent.now)) }
{
    match sent.find(link, number) {
        None => None,
        Some(false) => Some(Place::Sent),
        Some(true) => Some(Place::Answered),
    }
}

/// Its place, where it was dropped.
pub fn find_in_fates(config: &Config, fates: &Fates, link: u16, number: u64) -> Option<Place>
    ensures { result ≡ option_map (stands_in config.now) (first (in_fates (is_one link number) fates.now)) }
{
    for fate in fates.as_slice() {
        if fate.link() == link && fate.number() == number {
            return Some(Place::Dropped(reason(fate.cause())));
        }
    }
    None
}

/// The place of the packet with this number on an arriving link; `None` where it isn't received.
pub fn find(config: &Config, state: &State, link: u16, number: u64) -> Option<Place>
    ensures { result ≡ option_map (stands_in config.now) (first (places (rules config.now) link number state.now)) }
{
    if let Some(place) = find_in_hands(config, &state.hands, link, number) {
        return Some(place);
    }
    let pipes = state.pipes.after(link_count(config));
    if let Some(place) = find_in_pipes(config, pipes, link, number) {
        return Some(place);
    }
    if let Some(place) = find_in_sent(config, &state.sent, link, number) {
        return Some(place);
    }
    find_in_fates(config, &state.fates, link, number)
}
