//! A packet on a path of one hop as the rows of its decision see it, and these rows.

ghost use Rattle.std.specs.Prelude.{◌≡◌, ℕ, List, ◌≤◌, ◌||◌, ◌&&◌, [], ◌∷◌, None, IfOk, MatchResult, length};
ghost use Rattle.field_rows.specs.Place.{IsBytes};
ghost use Rattle.hop_check.specs.Mac.{mac6};
ghost use Rattle.path_fields.specs.Fields.{hop_field, info_field};
ghost use Rattle.scion_packet.specs.Header.{front_end, header_end, header_fault_as, one_hop_path};
ghost use Rattle.process_packet.specs.Network.{Network, network};
ghost use Rattle.process_packet.specs.OneHopRows as row;
ghost use Rattle.process_packet.specs.OneHopRows.{are_ends_lawful, begins_here, controlled};
ghost use Rattle.process_packet.specs.OneHopState.{OneHopState, hop_from, is_ahead, is_external, one_hop_arrives};
ghost use Rattle.process_packet.specs.OneHopTable.{tried};
ghost use Rattle.process_packet.specs.OneHopView.{AreOneHopEnds, ShowsOneHop, TellsOneHop, TellsOneHopDeparture, one_hop_refused};
ghost use Rattle.process_packet.specs.declared.underlay.Underlay.{Underlay as AnUnderlay};

use crate::cause::Cause;
use crate::config::Config;
use crate::delivery::host_at;
use crate::dispatch::ONE_HOP_PATH;
use crate::link_control::{BFD, is_answered};
use crate::one_hop_departure::OneHopDeparture;
use crate::parsed_headers::LONGEST_DATAGRAM;
use crate::refusal::{Refusal, control_answer, header_cause, path_cause};
use crate::underlay::Underlay;
use hop_check::{chain, expired, hop_mac, verify};
use path_fields::{Hop, Info, check_one_hop, one_hop_first, one_hop_info};
use scion_header::{HeaderEnds, check_header_as, flow_id, next_header, payload_length};

/// The most seconds by which the timestamp of a segment may be ahead of the moment.
const MOST_AHEAD: u128 = 300;

/// It has more bytes than a datagram may have.
pub(crate) fn too_long(bytes: &[u8]) -> Result<(), Refusal>
    ensures { (s : OneHopState) → bytes.now ≡ s.bytes → TellsOneHop (row.too_long s) result }
{
    if bytes.len() > LONGEST_DATAGRAM {
        return Err(Refusal::Drop(Cause::TooLong));
    }
    Ok(())
}

/// Its header has a fault; else where the addresses and the header end.
pub(crate) fn faulty_header(bytes: &[u8]) -> Result<HeaderEnds, Refusal>
    ensures addresses { IfOk result (λ ends. ends.addresses ≡ front_end bytes.now) }
    ensures header { IfOk result (λ ends. ends.header ≡ header_end bytes.now) }
    ensures covers { IfOk result (λ ends. ends.addresses ≤ ends.header) }
    ensures whole { IfOk result (λ ends. ends.header ≤ length bytes.now) }
    ensures sound { MatchResult result (λ _. header_fault_as one_hop_path bytes.now ≡ None) (λ _. Unit {0}) }
    ensures are { IsBytes bytes.now }
    ensures says { (s : OneHopState) → bytes.now ≡ s.bytes → TellsOneHop (row.faulty_header s) result }
{
    match check_header_as(ONE_HOP_PATH, bytes) {
        Ok(ends) => Ok(ends),
        Err(fault) => Err(Refusal::Drop(header_cause(fault))),
    }
}

/// Its path, after a sound header, has a fault.
pub(crate) fn faulty_path(ends: HeaderEnds, bytes: &[u8]) -> Result<HeaderEnds, Refusal>
    requires addresses { ends.addresses ≡ front_end bytes.now }
    requires header { ends.header ≡ header_end bytes.now }
    requires covers { ends.addresses ≤ ends.header }
    requires whole { ends.header ≤ length bytes.now }
    requires sound { header_fault_as one_hop_path bytes.now ≡ None }
    requires are { IsBytes bytes.now }
    ensures ends { IfOk result (λ ends. AreOneHopEnds ends bytes.now) }
    ensures says { (s : OneHopState) → bytes.now ≡ s.bytes → TellsOneHop (row.faulty_path s) result }
{
    match check_one_hop(&bytes[ends.addresses..ends.header]) {
        Ok(()) => Ok(ends),
        Err(fault) => Err(Refusal::Drop(path_cause(fault))),
    }
}

/// The second hop field, which this AS makes for a packet that comes in: the last one of its segment, from the link by
/// which the packet came, good for as long as the first (draft-dekater-scion-dataplane, "One-Hop Path Type").
fn second_hop(config: &Config, info: &Info, link: u16, expiry: u8) -> Hop
    ensures { hop_field result ≡ hop_from link expiry (mac6 config.now.key info.now.segment_id (info_field info.now) (hop_from link expiry [])) }
{
    let mut hop = Hop {
        reserved_flags: 0,
        ingress_alert: false,
        egress_alert: false,
        expiry,
        construction_ingress: link,
        construction_egress: 0,
        mac: [0; 6],
    };
    let mac = hop_mac(&config.key, info, &hop);
    hop.mac = mac;
    hop
}

/// What the rows look at of a packet on a path of one hop: how it came, and its path. What a row needs of the header
/// it reads in place.
#[derive(Clone, Copy)]
pub(crate) struct OneHopView {
    /// The link by which it came; 0 is the internal network.
    pub link: u16,
    /// When it came, in seconds of Unix time. Not `now`, which has a meaning of its own in contracts.
    pub moment: u64,
    /// How many bytes come after the header.
    pub payload: usize,
    /// The segment's info field.
    pub info: Info,
    /// The hop field that the AS of its source made.
    pub first: Hop,
}

impl OneHopView {
    /// The packet of a datagram as its rows see it.
    pub(crate) fn arrives(ends: HeaderEnds, bytes: &[u8], link: u16, now: u64) -> OneHopView
        requires ends { AreOneHopEnds ends bytes.now }
        ensures { (n : Network) (source : AnUnderlay) → ShowsOneHop result bytes.now (one_hop_arrives n link source now bytes.now) }
    {
        let path = &bytes[ends.addresses..ends.header];
        OneHopView {
            link,
            moment: now,
            payload: bytes.len() - ends.header,
            info: one_hop_info(path),
            first: one_hop_first(path),
        }
    }

    /// Whether it came from another AS, not by the internal network.
    fn is_external(&self) -> bool
        ensures { (bytes : List ℕ) (s : OneHopState) → ShowsOneHop self.now bytes s → result ≡ is_external s }
    {
        self.link != 0
    }

    /// It has more or fewer bytes than its header says.
    pub(crate) fn wrong_payload_length(&self, bytes: &[u8]) -> Result<(), Refusal>
        requires addresses { front_end bytes.now ≤ length bytes.now }
        ensures { (s : OneHopState) → ShowsOneHop self.now bytes.now s → TellsOneHop (row.wrong_payload_length s) result }
    {
        if usize::from(payload_length(bytes)) != self.payload {
            return Err(Refusal::Drop(Cause::Header));
        }
        Ok(())
    }

    /// It came from outside by another router than the one at the other end of the link.
    pub(crate) fn wrong_underlay_source(
        &self,
        config: &Config,
        source: &Underlay,
    ) -> Result<(), Refusal>
        ensures { (bytes : List ℕ) (s : OneHopState) → ShowsOneHop self.now bytes s → network config.now ≡ s.network → source.now ≡ s.source
            → TellsOneHop (row.wrong_underlay_source s) result }
    {
        if self.is_external() && !config.is_remote(self.link, source) {
            return Err(Refusal::Drop(Cause::UnderlaySource));
        }
        Ok(())
    }

    /// Whether both ends are those of its link, as far as the side by which it came tells.
    fn are_ends_lawful(&self, config: &Config, bytes: &[u8]) -> bool
        requires addresses { front_end bytes.now ≤ length bytes.now }
        ensures { (s : OneHopState) → ShowsOneHop self.now bytes.now s → network config.now ≡ s.network → result ≡ are_ends_lawful s }
    {
        if self.is_external() {
            config.is_destination_local(bytes) && config.is_source_neighbor(self.link, bytes)
        } else {
            config.is_source_local(bytes)
        }
    }

    /// It came from outside for another AS, or from another one than the AS at the link's other end; or from inside
    /// with a source in another AS.
    pub(crate) fn wrong_ends(&self, config: &Config, bytes: &[u8]) -> Result<(), Refusal>
        requires addresses { front_end bytes.now ≤ length bytes.now }
        ensures { (s : OneHopState) → ShowsOneHop self.now bytes.now s → network config.now ≡ s.network → TellsOneHop (row.wrong_ends s) result }
    {
        if !self.are_ends_lawful(config, bytes) {
            return Err(Refusal::Drop(Cause::OneHopEnds));
        }
        Ok(())
    }

    /// What becomes of a control packet of BFD: it is answered, or has no host here.
    fn controlled(&self, config: &Config, bytes: &[u8], payload: &[u8]) -> Refusal
        requires addresses { front_end bytes.now ≤ length bytes.now }
        ensures { (s : OneHopState) → ShowsOneHop self.now bytes.now s → network config.now ≡ s.network → payload.now ≡ s.packet.payload
            → one_hop_refused result ≡ controlled s }
    {
        if is_answered(config, self.link, flow_id(bytes), payload) {
            control_answer(self.link)
        } else {
            Refusal::Drop(Cause::OneHopHost)
        }
    }

    /// It came from outside, and is of BFD, the link's own protocol.
    pub(crate) fn link_control(
        &self,
        config: &Config,
        bytes: &[u8],
        payload: &[u8],
    ) -> Result<(), Refusal>
        requires addresses { front_end bytes.now ≤ length bytes.now }
        ensures { (s : OneHopState) → ShowsOneHop self.now bytes.now s → network config.now ≡ s.network → payload.now ≡ s.packet.payload
            → TellsOneHop (row.link_control s) result }
    {
        if self.is_external() && next_header(bytes) == BFD {
            return Err(self.controlled(config, bytes, payload));
        }
        Ok(())
    }

    /// Whether its first hop field begins a segment, and leads over a link of this router over which one-hop paths
    /// are carried.
    fn begins_here(&self, config: &Config) -> bool
        ensures { (bytes : List ℕ) (s : OneHopState) → ShowsOneHop self.now bytes s → network config.now ≡ s.network → result ≡ begins_here s }
    {
        config.neighbor(self.first.construction_egress).is_some()
            && self.first.construction_ingress == 0
    }

    /// It came from inside, and doesn't begin here.
    pub(crate) fn wrong_exit(&self, config: &Config) -> Result<(), Refusal>
        ensures { (bytes : List ℕ) (s : OneHopState) → ShowsOneHop self.now bytes s → network config.now ≡ s.network → TellsOneHop (row.wrong_exit s) result }
    {
        if !self.is_external() && !self.begins_here(config) {
            return Err(Refusal::Drop(Cause::OneHopField));
        }
        Ok(())
    }

    /// It came from inside, and isn't for the AS at the other end of the link by which it leaves.
    pub(crate) fn wrong_far_end(&self, config: &Config, bytes: &[u8]) -> Result<(), Refusal>
        requires addresses { front_end bytes.now ≤ length bytes.now }
        ensures { (s : OneHopState) → ShowsOneHop self.now bytes.now s → network config.now ≡ s.network → TellsOneHop (row.wrong_far_end s) result }
    {
        if !self.is_external()
            && !config.is_destination_neighbor(self.first.construction_egress, bytes)
        {
            return Err(Refusal::Drop(Cause::OneHopEnds));
        }
        Ok(())
    }

    /// Whether its timestamp is too far ahead of the moment.
    fn is_ahead(&self) -> bool
        ensures { (bytes : List ℕ) (s : OneHopState) → ShowsOneHop self.now bytes s → result ≡ is_ahead s }
    {
        // Wide enough for any moment.
        u128::from(self.info.timestamp) > u128::from(self.moment) + MOST_AHEAD
    }

    /// Its time is over, or hasn't come.
    pub(crate) fn wrong_time(&self) -> Result<(), Refusal>
        ensures { (bytes : List ℕ) (s : OneHopState) → ShowsOneHop self.now bytes s → TellsOneHop (row.wrong_time s) result }
    {
        if expired(&self.info, &self.first, self.moment) || self.is_ahead() {
            return Err(Refusal::Drop(Cause::OneHopField));
        }
        Ok(())
    }

    /// It came from inside without the MAC that the AS's key gives for its first hop field.
    pub(crate) fn wrong_mac(&self, config: &Config) -> Result<(), Refusal>
        ensures { (bytes : List ℕ) (s : OneHopState) → ShowsOneHop self.now bytes s → network config.now ≡ s.network → TellsOneHop (row.wrong_mac s) result }
    {
        if !self.is_external() && !verify(&config.key, &self.info, &self.first) {
            return Err(Refusal::Drop(Cause::OneHopField));
        }
        Ok(())
    }

    /// How it leaves: from inside by its link, with the identifier chained; from outside to its host or service, if
    /// that is there, with the second hop field made.
    pub(crate) fn leave(
        &self,
        config: &Config,
        bytes: &[u8],
        payload: &[u8],
    ) -> Result<OneHopDeparture, Refusal>
        requires addresses { front_end bytes.now ≤ length bytes.now }
        ensures { (s : OneHopState) → ShowsOneHop self.now bytes.now s → network config.now ≡ s.network → payload.now ≡ s.packet.payload
            → TellsOneHopDeparture (tried s (row.leave ∷ row.complete ∷ [])) s.packet result }
    {
        if !self.is_external() {
            return Ok(OneHopDeparture::Leaves {
                link: self.first.construction_egress,
                segment_id: chain(self.info.segment_id, &self.first.mac),
            });
        }
        match host_at(config, bytes, payload) {
            Some(to) => Ok(OneHopDeparture::Enters {
                to,
                second: second_hop(config, &self.info, self.link, self.first.expiry),
            }),
            None => Err(Refusal::Drop(Cause::OneHopHost)),
        }
    }
}
