//! The decision table for packets on a SCION path: its rows in the order in which they are tried, where the first that ends the decision
//! decides. The rows are beside it, phase by phase: `parsed_headers`, `arriving`, `authority`, `delivery`, `leaving`.

ghost use Rattle.std.specs.Prelude.{◌≡◌, [], ◌∷◌, None, IfOk, length, ◌≤◌};
ghost use Rattle.scion_packet.specs.Header.{header_of, front_end};
ghost use Rattle.scion_packet.specs.Packet.{Packet, packet_of};
ghost use Rattle.scion_packet.specs.Path.{path_of};
ghost use Rattle.process_packet.specs.Decide.{ends_as, scion_decide, scion_moved};
ghost use Rattle.process_packet.specs.Departure.{Keeps, TellsVerdict};
ghost use Rattle.process_packet.specs.ParsedHeaders.{AreHeadersOf};
ghost use Rattle.process_packet.specs.Network.{network};
ghost use Rattle.process_packet.specs.Rows as row;
ghost use Rattle.process_packet.specs.PacketView.{IsAlike, TellsRow, Shows};
ghost use Rattle.process_packet.specs.PathHop.{IsMetaOf, LiesOn};
ghost use Rattle.process_packet.specs.PacketState.{PacketState, arrives};

use crate::config::Config;
use crate::decision::Decision;
use crate::departure::Departure;
use crate::packet_view::PacketView;
use crate::parsed_headers::ParsedHeaders;
use crate::refusal::Refusal;
use crate::underlay::Underlay;
use path_fields::Meta;

impl ParsedHeaders {
    /// The rows that look at the datagram as bytes: its length, its header and its path.
    fn read(bytes: &[u8]) -> Result<ParsedHeaders, Refusal>
        ensures headers { IfOk result (λ f. AreHeadersOf f bytes.now) }
        ensures says { (s : PacketState) → bytes.now ≡ s.bytes
            → TellsRow (row.then_rows (row.GoesOn s) (row.too_long ∷ row.faulty_header ∷ row.faulty_path ∷ [])) s result }
    {
        ParsedHeaders::too_long(bytes)?;
        let ends = ParsedHeaders::faulty_header(bytes)?;
        ParsedHeaders::faulty_path(ends, bytes)
    }
}

impl PacketView {
    /// The rows that look at how the packet came: expiry, ingress, payload length, underlay source, source
    /// and destination.
    fn check_arrival(
        &self,
        config: &Config,
        source: &Underlay,
        bytes: &[u8],
        path: &[u8],
        meta: &Meta,
    ) -> Result<(), Refusal>
        requires addresses { front_end bytes.now ≤ length bytes.now }
        requires meta { IsMetaOf meta.now path.now }
        requires current { LiesOn self.now.current (path_of path.now).segments }
        ensures { (s : PacketState) → Shows self.now s → network config.now ≡ s.network → source.now ≡ s.source → header_of bytes.now ≡ s.header
            → s.path.segments ≡ (path_of path.now).segments
            → TellsRow (row.then_rows (row.GoesOn s) (row.expired ∷ row.wrong_ingress ∷ row.wrong_payload_length
            ∷ row.wrong_underlay_source ∷ row.wrong_source ∷ row.wrong_destination ∷ [])) s result }
    {
        self.expired()?;
        self.wrong_ingress()?;
        self.wrong_payload_length(bytes)?;
        self.wrong_underlay_source(config, source, path, meta)?;
        self.wrong_source(config, bytes)?;
        self.wrong_destination(config, bytes)
    }

    /// The rows that look at what the hop field is authorised for, once its segment identifier is turned
    /// back.
    fn check_authority(&self, config: &Config, bytes: &[u8], payload: &[u8]) -> Result<(), Refusal>
        requires addresses { front_end bytes.now ≤ length bytes.now }
        ensures { (s : PacketState) → Shows self.now s → network config.now ≡ s.network → header_of bytes.now ≡ s.header → payload.now ≡ s.payload
            → TellsRow (row.then_rows (row.GoesOn s) (row.wrong_mac ∷ row.ingress_request ∷ [])) s result }
    {
        self.wrong_mac(config)?;
        self.ingress_request(bytes, payload)
    }

    /// The last rows: the packet is delivered to its host if it is for this AS; otherwise it may change its
    /// segment, and its egress and its pair of links are checked, before it leaves. The view moves to the
    /// next segment on the way, also where a later row refuses the packet.
    fn deliver_or_forward(
        &mut self,
        config: &Config,
        bytes: &[u8],
        path: &[u8],
        meta: &Meta,
        payload: &[u8],
    ) -> Result<Departure, Refusal>
        requires addresses { front_end bytes.now ≤ length bytes.now }
        requires meta { IsMetaOf meta.now path.now }
        requires current { LiesOn self.old.current (path_of path.now).segments }
        requires count { self.old.segments ≡ length (path_of path.now).segments }
        ensures { (s : PacketState) (p : Packet) → Shows self.old s → network config.now ≡ s.network → header_of bytes.now ≡ s.header → payload.now ≡ s.payload → Keeps self.old s p
            → IsAlike s.path.place.segment (path_of path.now).segments s.path.segments
            → TellsVerdict (ends_as s (row.delivery ∷ row.switch ∷ row.unknown_egress ∷ row.wrong_pair ∷ row.egress_request ∷ row.leave ∷ [])) p result }
    {
        if let Some(to) = self.delivery(config, bytes, payload)? {
            return Ok(self.unchanged(0, Some(to)));
        }
        self.switch(config, path, meta)?;
        let exit = self.unknown_egress(config)?;
        self.wrong_pair(config, &exit)?;
        self.egress_request(&exit, bytes, payload)?;
        self.leave(&exit)
    }
}

/// How a datagram with sound headers departs.
fn depart(
    config: &Config,
    link: u16,
    source: &Underlay,
    now: u64,
    headers: &ParsedHeaders,
    bytes: &[u8],
) -> Result<Departure, Refusal>
    requires headers { AreHeadersOf headers.now bytes.now }
    ensures { TellsVerdict (ends_as (arrives (network config.now) link source.now now bytes.now)
        (row.expired ∷ row.wrong_ingress ∷ row.wrong_payload_length ∷ row.wrong_underlay_source ∷ row.wrong_source ∷ row.wrong_destination
        ∷ row.turn_back_segment_id ∷ row.wrong_mac ∷ row.ingress_request
        ∷ row.delivery ∷ row.switch ∷ row.unknown_egress ∷ row.wrong_pair ∷ row.egress_request ∷ row.leave ∷ []))
        (packet_of bytes.now) result }
{
    let path = &bytes[headers.path_begin..headers.path_end];
    let payload = &bytes[headers.path_end..];
    let mut view = PacketView::arrives(headers, bytes, link, now);
    view.check_arrival(config, source, bytes, path, &headers.meta)?;
    view.turn_back_segment_id();
    view.check_authority(config, bytes, payload)?;
    view.deliver_or_forward(config, bytes, path, &headers.meta, payload)
}

/// What is done with a datagram on a SCION path, by the table: the bytes of one that is sent are changed to
/// those that leave, at most the cursor and two segment identifiers, five bytes. Else they stay as they are.
///
/// The cost grows neither with the path nor with the payload.
#[inline(always)]
pub(crate) fn scion_in_place(
    config: &Config,
    link: u16,
    source: &Underlay,
    now: u64,
    bytes: &mut [u8],
) -> Decision
    ensures decision { result ≡ scion_decide (network config.now) link source.now now bytes.old }
    ensures bytes { bytes.new ≡ scion_moved (network config.now) link source.now now bytes.old }
{
    let headers = match ParsedHeaders::read(bytes) {
        Ok(headers) => headers,
        Err(refusal) => return refusal.decision(),
    };
    match depart(config, link, source, now, &headers, bytes) {
        Ok(departure) => {
            departure.write(&mut bytes[headers.path_begin..headers.path_end]);
            Decision::Send {
                link: departure.link,
                to: departure.to,
            }
        }
        Err(refusal) => refusal.decision(),
    }
}
