//! The decision table for packets on a path of one hop: its rows in the order in which they are tried, where the
//! first that ends the decision decides. The rows are in `one_hop_view`.

ghost use Rattle.std.specs.Prelude.{◌≡◌, ◌≤◌, [], ◌∷◌, IfOk, length};
ghost use Rattle.scion_packet.specs.Header.{front_end};
ghost use Rattle.scion_packet.specs.OneHop.{one_hop_packet_of};
ghost use Rattle.process_packet.specs.Network.{network};
ghost use Rattle.process_packet.specs.OneHopRows as row;
ghost use Rattle.process_packet.specs.OneHopState.{OneHopState, one_hop_arrives};
ghost use Rattle.process_packet.specs.OneHopTable.{one_hop_decision_of, one_hop_moved_by, one_hop_verdict, tried};
ghost use Rattle.process_packet.specs.OneHopView.{AreOneHopEnds, ShowsOneHop, TellsOneHop, TellsOneHopDeparture};

use crate::config::Config;
use crate::decision::Decision;
use crate::one_hop_departure::OneHopDeparture;
use crate::one_hop_view::{OneHopView, faulty_header, faulty_path, too_long};
use crate::refusal::Refusal;
use crate::underlay::Underlay;
use scion_header::HeaderEnds;

/// The rows that look at the datagram as bytes: its length, its header and its path.
fn read(bytes: &[u8]) -> Result<HeaderEnds, Refusal>
    ensures ends { IfOk result (λ ends. AreOneHopEnds ends bytes.now) }
    ensures says { (s : OneHopState) → bytes.now ≡ s.bytes
        → TellsOneHop (tried s (row.too_long ∷ row.faulty_header ∷ row.faulty_path ∷ [])) result }
{
    too_long(bytes)?;
    let ends = faulty_header(bytes)?;
    faulty_path(ends, bytes)
}

impl OneHopView {
    /// The rows that look at how the packet came: payload length, underlay source, both ends, and the link's own
    /// protocol.
    fn check_arrival(
        &self,
        config: &Config,
        source: &Underlay,
        bytes: &[u8],
        payload: &[u8],
    ) -> Result<(), Refusal>
        requires addresses { front_end bytes.now ≤ length bytes.now }
        ensures { (s : OneHopState) → ShowsOneHop self.now bytes.now s → network config.now ≡ s.network → source.now ≡ s.source → payload.now ≡ s.packet.payload
            → TellsOneHop (tried s (row.wrong_payload_length ∷ row.wrong_underlay_source ∷ row.wrong_ends ∷ row.link_control ∷ [])) result }
    {
        self.wrong_payload_length(bytes)?;
        self.wrong_underlay_source(config, source)?;
        self.wrong_ends(config, bytes)?;
        self.link_control(config, bytes, payload)
    }

    /// The rows that look at the first hop field: its interfaces, the AS to which they lead, its time and its MAC.
    fn check_first_hop(&self, config: &Config, bytes: &[u8]) -> Result<(), Refusal>
        requires addresses { front_end bytes.now ≤ length bytes.now }
        ensures { (s : OneHopState) → ShowsOneHop self.now bytes.now s → network config.now ≡ s.network
            → TellsOneHop (tried s (row.wrong_exit ∷ row.wrong_far_end ∷ row.wrong_time ∷ row.wrong_mac ∷ [])) result }
    {
        self.wrong_exit(config)?;
        self.wrong_far_end(config, bytes)?;
        self.wrong_time()?;
        self.wrong_mac(config)
    }
}

/// How a datagram without a fault departs.
fn depart(
    config: &Config,
    link: u16,
    source: &Underlay,
    now: u64,
    ends: HeaderEnds,
    bytes: &[u8],
) -> Result<OneHopDeparture, Refusal>
    requires ends { AreOneHopEnds ends bytes.now }
    ensures { TellsOneHopDeparture (tried (one_hop_arrives (network config.now) link source.now now bytes.now)
        (row.wrong_payload_length ∷ row.wrong_underlay_source ∷ row.wrong_ends ∷ row.link_control
        ∷ row.wrong_exit ∷ row.wrong_far_end ∷ row.wrong_time ∷ row.wrong_mac
        ∷ row.leave ∷ row.complete ∷ []))
        (one_hop_packet_of bytes.now) result }
{
    let payload = &bytes[ends.header..];
    let view = OneHopView::arrives(ends, bytes, link, now);
    view.check_arrival(config, source, bytes, payload)?;
    view.check_first_hop(config, bytes)?;
    view.leave(config, bytes, payload)
}

/// What is done with a datagram on a path of one hop, by its table: the bytes of one that is sent are changed to
/// those that leave, the segment's identifier or the second hop field. Else they stay as they are.
pub(crate) fn one_hop_in_place(
    config: &Config,
    link: u16,
    source: &Underlay,
    now: u64,
    bytes: &mut [u8],
) -> Decision
    ensures decision { result ≡ one_hop_decision_of (one_hop_verdict (network config.now) link source.now now bytes.old) }
    ensures bytes { bytes.new ≡ one_hop_moved_by (one_hop_verdict (network config.now) link source.now now bytes.old) bytes.old }
{
    let ends = match read(bytes) {
        Ok(ends) => ends,
        Err(refusal) => return refusal.decision(),
    };
    match depart(config, link, source, now, ends, bytes) {
        Ok(departure) => {
            departure.write(&mut bytes[ends.addresses..ends.header]);
            departure.decision()
        }
        Err(refusal) => refusal.decision(),
    }
}
