//! The rows that look at how a packet came.

ghost use Rattle.std.specs.Prelude.{◌≡◌, false, None, length, ◌≤◌};
ghost use Rattle.scion_packet.specs.Header.{header_of, front_end};
ghost use Rattle.scion_packet.specs.Packet.{packet_of, path_bytes};
ghost use Rattle.scion_packet.specs.Path.{path_of};
ghost use Rattle.process_packet.specs.Departure.{Keeps};
ghost use Rattle.process_packet.specs.ParsedHeaders.{AreHeadersOf};
ghost use Rattle.process_packet.specs.Network.{Network, network};
ghost use Rattle.process_packet.specs.Rows as row;
ghost use Rattle.process_packet.specs.Rows.{came_lawfully, is_destination_lawful, is_source_lawful};
ghost use Rattle.process_packet.specs.PacketView.{TellsRow, Shows};
ghost use Rattle.process_packet.specs.PathHop.{IsMetaOf, LiesOn};
ghost use Rattle.process_packet.specs.PacketState.{PacketState, arrives, entry, is_first_of_path};

use crate::cause::Cause;
use crate::config::Config;
use crate::packet_view::PacketView;
use crate::parsed_headers::ParsedHeaders;
use crate::path_hop::PathHop;
use crate::refusal::{Refusal, parameter_problem};
use crate::scmp::{
    INVALID_DESTINATION_ADDRESS, INVALID_PACKET_SIZE, INVALID_SOURCE_ADDRESS, PATH_EXPIRED,
    UNKNOWN_CONS_EGRESS, UNKNOWN_CONS_INGRESS,
};
use crate::underlay::Underlay;
use path_fields::Meta;
use scion_header::payload_length;

impl PacketView {
    /// The packet of a datagram as its rows see it at first.
    pub(crate) fn arrives(headers: &ParsedHeaders, bytes: &[u8], link: u16, now: u64) -> PacketView
        requires headers { AreHeadersOf headers.now bytes.now }
        ensures shows { (n : Network) (source : Underlay) → Shows result (arrives n link source now bytes.now) }
        ensures keeps { (n : Network) (source : Underlay) → Keeps result (arrives n link source now bytes.now) (packet_of bytes.now) }
        ensures current { LiesOn result.current (path_of (path_bytes bytes.now)).segments }
        ensures count { result.segments ≡ length (path_of (path_bytes bytes.now)).segments }
        ensures turned { result.turned ≡ None }
        ensures entered { result.entered ≡ result.current.segment }
    {
        let path = &bytes[headers.path_begin..headers.path_end];
        let segment = usize::from(headers.meta.current_info);
        PacketView {
            link,
            moment: now,
            path_begin: headers.path_begin,
            payload: bytes.len() - headers.path_end,
            segments: headers.meta.segment_count(),
            current: PathHop::read(
                path,
                &headers.meta,
                segment,
                usize::from(headers.meta.current_hop),
            ),
            switched: false,
            entered: segment,
            turned: None,
        }
    }

    /// Its time is over.
    pub(crate) fn expired(&self) -> Result<(), Refusal>
        ensures { (s : PacketState) → Shows self.now s → TellsRow (row.expired s) s result }
    {
        if hop_check::expired(&self.current.info, &self.current.hop, self.moment) {
            return Err(parameter_problem(PATH_EXPIRED, self.hop_pointer()));
        }
        Ok(())
    }

    /// It came by another link than its hop field says.
    pub(crate) fn wrong_ingress(&self) -> Result<(), Refusal>
        ensures { (s : PacketState) → Shows self.now s → TellsRow (row.wrong_ingress s) s result }
    {
        if self.is_external() && self.ingress() != self.link {
            let code = if self.current.info.along {
                UNKNOWN_CONS_INGRESS
            } else {
                UNKNOWN_CONS_EGRESS
            };
            return Err(parameter_problem(code, self.hop_pointer()));
        }
        Ok(())
    }

    /// It has more or fewer bytes than its header says.
    pub(crate) fn wrong_payload_length(&self, bytes: &[u8]) -> Result<(), Refusal>
        requires addresses { front_end bytes.now ≤ length bytes.now }
        ensures { (s : PacketState) → Shows self.now s → header_of bytes.now ≡ s.header → TellsRow (row.wrong_payload_length s) s result }
    {
        if usize::from(payload_length(bytes)) != self.payload {
            return Err(parameter_problem(INVALID_PACKET_SIZE, 0));
        }
        Ok(())
    }

    /// The interface by which the packet, which didn't begin its path here, entered the AS: at a later
    /// segment's first hop that is the ingress of the last hop of the segment before.
    fn entry(&self, path: &[u8], meta: &Meta) -> u16
        requires meta { IsMetaOf meta.now path.now }
        requires current { LiesOn self.now.current (path_of path.now).segments }
        ensures { (s : PacketState) → Shows self.now s → s.path.segments ≡ (path_of path.now).segments
            → is_first_of_path s.path.place ≡ false → result ≡ entry s }
    {
        if self.current.position != 0 || self.current.segment == 0 {
            return self.ingress();
        }
        let before = PathHop::read(
            path,
            meta,
            self.current.segment - 1,
            self.current.number - 1,
        );
        before.ingress()
    }

    /// Whether the datagram came from a router from which such a packet may come.
    fn came_lawfully(&self, config: &Config, source: &Underlay, path: &[u8], meta: &Meta) -> bool
        requires meta { IsMetaOf meta.now path.now }
        requires current { LiesOn self.now.current (path_of path.now).segments }
        ensures { (s : PacketState) → Shows self.now s → network config.now ≡ s.network → source.now ≡ s.source
            → s.path.segments ≡ (path_of path.now).segments → result ≡ came_lawfully s }
    {
        if self.is_external() {
            return config.is_remote(self.link, source);
        }
        self.is_first_of_path() || config.is_owner(self.entry(path, meta), source)
    }

    /// It came from a router from which such a packet may not come.
    pub(crate) fn wrong_underlay_source(
        &self,
        config: &Config,
        source: &Underlay,
        path: &[u8],
        meta: &Meta,
    ) -> Result<(), Refusal>
        requires meta { IsMetaOf meta.now path.now }
        requires current { LiesOn self.now.current (path_of path.now).segments }
        ensures { (s : PacketState) → Shows self.now s → network config.now ≡ s.network → source.now ≡ s.source
            → s.path.segments ≡ (path_of path.now).segments → TellsRow (row.wrong_underlay_source s) s result }
    {
        if !self.came_lawfully(config, source, path, meta) {
            return Err(Refusal::Drop(Cause::UnderlaySource));
        }
        Ok(())
    }

    fn is_source_lawful(&self, config: &Config, bytes: &[u8]) -> bool
        requires addresses { front_end bytes.now ≤ length bytes.now }
        ensures { (s : PacketState) → Shows self.now s → network config.now ≡ s.network → header_of bytes.now ≡ s.header → result ≡ is_source_lawful s }
    {
        if self.is_external() {
            !config.is_source_local(bytes)
        } else {
            !self.is_first_of_path() || config.is_source_local(bytes)
        }
    }

    /// It came from outside with a source in this AS, or began its path inside with one outside.
    pub(crate) fn wrong_source(&self, config: &Config, bytes: &[u8]) -> Result<(), Refusal>
        requires addresses { front_end bytes.now ≤ length bytes.now }
        ensures { (s : PacketState) → Shows self.now s → network config.now ≡ s.network → header_of bytes.now ≡ s.header → TellsRow (row.wrong_source s) s result }
    {
        if !self.is_source_lawful(config, bytes) {
            return Err(parameter_problem(INVALID_SOURCE_ADDRESS, 20));
        }
        Ok(())
    }

    #[inline(always)]
    fn is_destination_lawful(&self, config: &Config, bytes: &[u8]) -> bool
        requires addresses { front_end bytes.now ≤ length bytes.now }
        ensures { (s : PacketState) → Shows self.now s → network config.now ≡ s.network → header_of bytes.now ≡ s.header → result ≡ is_destination_lawful s }
    {
        let local = config.is_destination_local(bytes);
        if self.is_external() && self.is_last_of_path() {
            local
        } else {
            !local
        }
    }

    /// Its destination is in this AS, and its path goes on; or the other way round.
    #[inline(always)]
    pub(crate) fn wrong_destination(&self, config: &Config, bytes: &[u8]) -> Result<(), Refusal>
        requires addresses { front_end bytes.now ≤ length bytes.now }
        ensures { (s : PacketState) → Shows self.now s → network config.now ≡ s.network → header_of bytes.now ≡ s.header → TellsRow (row.wrong_destination s) s result }
    {
        if !self.is_destination_lawful(config, bytes) {
            return Err(parameter_problem(INVALID_DESTINATION_ADDRESS, 12));
        }
        Ok(())
    }
}
