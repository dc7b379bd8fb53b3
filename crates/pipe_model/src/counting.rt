//! How many packets are in hands and in pipes, and how many were received, sent, answered and dropped.

ghost use Rattle.std.specs.Prelude.{◌≡◌, ◌≤◌, ◌*◌, ◌^◌, Some, length, map, not, slice_index_or};
ghost use Rattle.order_laws.specs.Counts.{count, total};
ghost use Rattle.replay_laws.specs.Pipe.{held};
ghost use Rattle.replay_laws.specs.Totals.{packets_in_hand};
ghost use Rattle.replay_laws.specs.World.{Empty};
ghost use Rattle.replay_state.specs.Items.{hand_in, item_in};
ghost use Rattle.pipe_model.specs.Shown.{is_number, numbers, totals_of};

use process_packet::{CAUSES, Config, Totals};
use replay_state::{Bytes, Entry, Fates, Hand, Hands, Pipe, Sent, is_packet, reason};
use replay_steps::State;
use router_rules::{Outgoing, link_count};

/// 1 with a packet in this hand, else 0.
fn packets_in_hand(hand: &Hand) -> usize
    ensures { result ≡ packets_in_hand (hand_in (Some hand.now)) }
{
    match hand {
        Hand::Got(item) | Hand::Owes(item) => usize::from(is_packet(item)),
    }
}

/// 1 with a packet in the hand of this seat, else 0.
fn packets_at(hands: &Hands, seat: usize) -> usize
    ensures count { result ≡ packets_in_hand (slice_index_or hands.now seat Empty) }
    ensures few { result ≤ 1 }
{
    match hands.get(seat) {
        None => 0,
        Some(hand) => packets_in_hand(hand),
    }
}

/// How many packets are in hands.
pub fn in_hands(hands: &Hands) -> usize
    ensures { result ≡ total packets_in_hand hands.now }
{
    let mut packets = 0;
    for seat in 0..hands.len() {
        packets += packets_at(hands, seat);
    }
    packets
}

/// How many of these entries are packets.
fn packets(entries: &[Entry]) -> usize
    ensures { result ≡ count (λ e. Rattle.replay_laws.specs.Totals.is_packet e.item) entries.now }
{
    entries
        .iter()
        .filter(|entry| is_packet(entry.item()))
        .count()
}

/// How many packets this pipe holds.
fn held_packets(pipe: &Pipe) -> usize
    ensures { result ≡ count Rattle.replay_laws.specs.Totals.is_packet (held pipe.now) }
{
    packets(pipe.held())
}

/// How many packets these pipes hold.
pub fn in_pipes(pipes: &[Pipe]) -> u128
    ensures few { result ≤ length pipes.now * 2 ^ 64 }
    ensures count { result ≡ total (λ p. count Rattle.replay_laws.specs.Totals.is_packet (held p)) pipes.now }
{
    let mut packets = 0;
    for pipe in pipes {
        packets += held_packets(pipe) as u128;
    }
    packets
}

/// How many packets were taken of these pipes.
fn taken_of(pipes: &[Pipe]) -> u128
    ensures { result ≡ total (λ p. p.taken) pipes.now }
{
    let mut packets = 0;
    for pipe in pipes {
        packets += pipe.taken() as u128;
    }
    packets
}

/// How many of these are packets, and no answers.
fn packets_among(entries: &[(Outgoing, Bytes)]) -> usize
    ensures { result ≡ count (λ e. not e.0.answer) entries.now }
{
    entries.iter().filter(|entry| !entry.0.answer).count()
}

/// How many of these are answers.
fn answers_among(entries: &[(Outgoing, Bytes)]) -> usize
    ensures { result ≡ count (λ e. e.0.answer) entries.now }
{
    entries.iter().filter(|entry| entry.0.answer).count()
}

/// How many packets were sent, answers left aside.
fn packets_sent(sent: &Sent) -> u128
    ensures { result ≡ total (count (λ o. not o.answer)) sent.now }
{
    let mut packets = 0;
    for link in 0..sent.len() {
        packets += packets_among(sent.on(link)) as u128;
    }
    packets
}

/// How many answers were sent.
fn answers_sent(sent: &Sent) -> u128
    ensures { result ≡ total (count (λ o. o.answer)) sent.now }
{
    let mut answers = 0;
    for link in 0..sent.len() {
        answers += answers_among(sent.on(link)) as u128;
    }
    answers
}

/// How many were dropped for the cause with this number.
fn dropped_for(fates: &Fates, number: u8) -> usize
    ensures { result ≡ count (λ f. is_number number f.cause) fates.now }
{
    fates
        .as_slice()
        .iter()
        .filter(|fate| reason(fate.cause()).number() == number)
        .count()
}

/// How many were dropped for each cause, in the order of the causes' numbers.
fn dropped(fates: &Fates) -> [u128; CAUSES]
    ensures { result ≡ map (λ n. count (λ f. is_number n f.cause) fates.now) numbers }
{
    [
        dropped_for(fates, 1) as u128,
        dropped_for(fates, 2) as u128,
        dropped_for(fates, 3) as u128,
        dropped_for(fates, 4) as u128,
        dropped_for(fates, 5) as u128,
        dropped_for(fates, 6) as u128,
        dropped_for(fates, 7) as u128,
        dropped_for(fates, 8) as u128,
        dropped_for(fates, 9) as u128,
        dropped_for(fates, 10) as u128,
        dropped_for(fates, 11) as u128,
        dropped_for(fates, 12) as u128,
        dropped_for(fates, 13) as u128,
        dropped_for(fates, 14) as u128,
        dropped_for(fates, 15) as u128,
        dropped_for(fates, 16) as u128,
        dropped_for(fates, 17) as u128,
        dropped_for(fates, 18) as u128,
        dropped_for(fates, 19) as u128,
        dropped_for(fates, 20) as u128,
        dropped_for(fates, 21) as u128,
    ]
}

/// How many packets were received, and what became of them.
pub fn counts(config: &Config, state: &State) -> Totals
    ensures { result ≡ totals_of (record { config = config.now; world = state.now }) }
{
    Totals {
        received: taken_of(state.pipes.up_to(link_count(config))),
        sent: packets_sent(&state.sent),
        answered: answers_sent(&state.sent),
        dropped: dropped(&state.fates),
    }
}
