//! The rows that look at what the hop field is authorised for.

ghost use Rattle.std.specs.Prelude.{◌≡◌, ◌&&◌, not, None, List, ◌≤◌, length};
ghost use Rattle.scion_packet.specs.Header.{header_of, front_end};
ghost use Rattle.scion_packet.specs.Path.{Segment};
ghost use Rattle.process_packet.specs.Network.{network};
ghost use Rattle.process_packet.specs.Rows as row;
ghost use Rattle.process_packet.specs.PacketView.{TellsRow, Shows, with_id};
ghost use Rattle.process_packet.specs.PacketState.{PacketState, is_along, is_external, turned_back};

use crate::config::Config;
use crate::packet_view::PacketView;
use crate::refusal::{Refusal, parameter_problem, traceroute_reply};
use crate::request::carries_request;
use crate::scmp::INVALID_HOP_FIELD_MAC;
use hop_check::{chain, verify};

impl PacketView {
    /// Whether it came from outside against the direction of construction.
    fn came_against_construction(&self) -> bool
        ensures { (s : PacketState) → Shows self.now s → result ≡ (is_external s && not (is_along s)) }
    {
        self.is_external() && !self.current.info.along
    }

    /// From outside against the direction of construction, the segment's identifier is turned back to
    /// that of the current hop.
    pub(crate) fn turn_back_segment_id(&mut self)
        ensures shows { (s : PacketState) → Shows self.old s → Shows self.new (turned_back s) }
        ensures turned { (s : PacketState) → Shows self.old s → self.old.turned ≡ None → self.old.entered ≡ s.path.place.segment
            → (turned_back s).path.segments ≡ with_id self.new.turned self.new.entered s.path.segments }
        ensures place { (self.new.current.segment ≡ self.old.current.segment) × (self.new.current.position ≡ self.old.current.position)
            × (self.new.current.hops ≡ self.old.current.hops) × (self.new.current.number ≡ self.old.current.number) }
        ensures entered { self.new.entered ≡ self.old.entered }
        ensures segments { self.new.segments ≡ self.old.segments }
    {
        if self.came_against_construction() {
            let segment_id = chain(self.current.info.segment_id, &self.current.hop.mac);
            self.current.info.segment_id = segment_id;
            self.turned = Some(segment_id);
        }
    }

    /// It doesn't carry the MAC that the AS's key gives for it.
    #[inline(always)]
    pub(crate) fn wrong_mac(&self, config: &Config) -> Result<(), Refusal>
        ensures { (s : PacketState) → Shows self.now s → network config.now ≡ s.network → TellsRow (row.wrong_mac s) s result }
    {
        if !verify(&config.key, &self.current.info, &self.current.hop) {
            return Err(parameter_problem(INVALID_HOP_FIELD_MAC, self.hop_pointer()));
        }
        Ok(())
    }

    /// It asks the router at its ingress interface, which is this one.
    pub(crate) fn ingress_request(&self, bytes: &[u8], payload: &[u8]) -> Result<(), Refusal>
        requires addresses { front_end bytes.now ≤ length bytes.now }
        ensures { (s : PacketState) → Shows self.now s → header_of bytes.now ≡ s.header → payload.now ≡ s.payload → TellsRow (row.ingress_request s) s result }
    {
        if self.is_external() && self.ingress_alert() && carries_request(bytes, payload) {
            return Err(traceroute_reply(self.ingress()));
        }
        Ok(())
    }
}
