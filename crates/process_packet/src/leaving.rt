//! The rows by which a packet leaves.

ghost use Rattle.std.specs.Prelude.{◌≡◌, ◌+◌, ◌<◌, ◌==◌, ◌&&◌, not, nat_lt, false, [], ◌∷◌, Some, None, is_some, IfOk, length, if◌then◌else◌, ◌≤◌};
ghost use Rattle.scion_packet.specs.Header.{header_of, front_end};
ghost use Rattle.scion_packet.specs.Packet.{Packet};
ghost use Rattle.scion_packet.specs.Path.{path_of};
ghost use Rattle.process_packet.specs.Decide.{verdict_of};
ghost use Rattle.process_packet.specs.Departure.{Departs, IsNumberOf, IsOnPath, Keeps, TellsVerdict};
ghost use Rattle.process_packet.specs.Exit.{exit_of};
ghost use Rattle.process_packet.specs.Network.{network, own_link};
ghost use Rattle.process_packet.specs.Rows as row;
ghost use Rattle.process_packet.specs.Rows.{is_pair_lawful};
ghost use Rattle.process_packet.specs.PacketView.{IsAlike, TellsRow, Shows};
ghost use Rattle.process_packet.specs.PathHop.{IsMetaOf, LiesOn};
ghost use Rattle.process_packet.specs.PacketState.{PacketState, chained, chained_id, changed_over, egress, egress_alert, is_along, next_place, packet, past_switch};

use crate::cause::Cause;
use crate::config::Config;
use crate::departure::Departure;
use crate::exit::Exit;
use crate::packet_view::PacketView;
use crate::path_hop::PathHop;
use crate::refusal::{Refusal, parameter_problem, traceroute_reply};
use crate::request::carries_request;
use crate::scmp::{
    INVALID_PATH, INVALID_SEGMENT_CHANGE, UNKNOWN_CONS_EGRESS, UNKNOWN_CONS_INGRESS,
};
use crate::underlay::Underlay;
use hop_check::chain;
use path_fields::Meta;
use segment_switch::pair_ok;

impl PacketView {
    /// Moves on to the first hop of the next segment.
    fn change_over(&mut self, path: &[u8], meta: &Meta)
        requires meta { IsMetaOf meta.now path.now }
        requires current { LiesOn self.old.current (path_of path.now).segments }
        requires count { self.old.segments ≡ length (path_of path.now).segments }
        requires last { self.old.current.position + 1 ≡ self.old.current.hops }
        requires followed { self.old.current.segment + 1 < self.old.segments }
        ensures shows { (s : PacketState) → Shows self.old s → IsAlike s.path.place.segment (path_of path.now).segments s.path.segments
            → Shows self.new (changed_over s) }
        ensures current { LiesOn self.new.current (path_of path.now).segments }
        ensures count { self.new.segments ≡ self.old.segments }
        ensures turned { self.new.turned ≡ self.old.turned }
        ensures entered { self.new.entered ≡ self.old.entered }
    {
        self.current = PathHop::read(
            path,
            meta,
            self.current.segment + 1,
            self.current.number + 1,
        );
        self.switched = true;
    }

    /// The rows that look at the first hop of a segment that the packet changed to.
    fn check_first_hop(&self, config: &Config) -> Result<(), Refusal>
        ensures { (s : PacketState) → Shows self.now s → network config.now ≡ s.network
            → TellsRow (row.then_rows (row.GoesOn s) (row.expired ∷ row.wrong_mac ∷ [])) s result }
    {
        self.expired()?;
        self.wrong_mac(config)
    }

    /// At a segment's last hop, where another segment follows, the packet changes to its first hop, which
    /// must be within its time and carry its MAC as the one before. On `Err` the view has changed all the
    /// same.
    pub(crate) fn switch(
        &mut self,
        config: &Config,
        path: &[u8],
        meta: &Meta,
    ) -> Result<(), Refusal>
        requires meta { IsMetaOf meta.now path.now }
        requires current { LiesOn self.old.current (path_of path.now).segments }
        requires count { self.old.segments ≡ length (path_of path.now).segments }
        ensures says { (s : PacketState) → Shows self.old s → network config.now ≡ s.network
            → IsAlike s.path.place.segment (path_of path.now).segments s.path.segments → TellsRow (row.switch s) (past_switch s) result }
        ensures shows { (s : PacketState) → Shows self.old s → IsAlike s.path.place.segment (path_of path.now).segments s.path.segments
            → Shows self.new (past_switch s) }
        ensures current { LiesOn self.new.current (path_of path.now).segments }
        ensures count { self.new.segments ≡ self.old.segments }
        ensures turned { self.new.turned ≡ self.old.turned }
        ensures entered { self.new.entered ≡ self.old.entered }
    {
        if self.is_last_of_segment() && self.is_followed() {
            self.change_over(path, meta);
            return self.check_first_hop(config);
        }
        Ok(())
    }

    /// Refused if no router of this AS has its egress interface; otherwise the exit by it.
    pub(crate) fn unknown_egress(&self, config: &Config) -> Result<Exit, Refusal>
        ensures says { (s : PacketState) → Shows self.now s → network config.now ≡ s.network → TellsRow (row.unknown_egress s) s result }
        ensures exit { IfOk result (λ e. (s : PacketState) → Shows self.now s → network config.now ≡ s.network
            → Some e ≡ exit_of s.network (egress s)) }
    {
        match config.exit(self.egress()) {
            Some(exit) => Ok(exit),
            None => {
                let code = if self.current.info.along {
                    UNKNOWN_CONS_EGRESS
                } else {
                    UNKNOWN_CONS_INGRESS
                };
                Err(parameter_problem(code, self.hop_pointer()))
            }
        }
    }

    /// Whether the links by which it came and leaves may follow one another.
    fn is_pair_lawful(&self, config: &Config, exit: &Exit) -> bool
        ensures { (s : PacketState) → Shows self.now s → network config.now ≡ s.network
            → Some exit.now ≡ exit_of s.network (egress s) → result ≡ is_pair_lawful s }
    {
        let from = if self.is_external() {
            config.link_kind(self.link)
        } else {
            None
        };
        pair_ok(from, exit.kind(), self.switched).is_ok()
    }

    /// It may not leave by this link, from where it came.
    pub(crate) fn wrong_pair(&self, config: &Config, exit: &Exit) -> Result<(), Refusal>
        ensures { (s : PacketState) → Shows self.now s → network config.now ≡ s.network
            → Some exit.now ≡ exit_of s.network (egress s) → TellsRow (row.wrong_pair s) s result }
    {
        if self.is_pair_lawful(config, exit) {
            return Ok(());
        }
        if self.switched {
            Err(parameter_problem(INVALID_SEGMENT_CHANGE, self.info_pointer()))
        } else {
            Err(parameter_problem(INVALID_PATH, self.hop_pointer()))
        }
    }

    /// Whether the router at the egress interface is this one, and asked to answer.
    fn asks_here(&self, exit: &Exit) -> bool
        ensures { (s : PacketState) → Shows self.now s → Some exit.now ≡ exit_of s.network (egress s)
            → result ≡ (is_some (own_link s.network (egress s)) && egress_alert s) }
    {
        exit.is_own() && self.egress_alert()
    }

    /// It asks the router at its egress interface, which is this one.
    #[inline(always)]
    pub(crate) fn egress_request(
        &self,
        exit: &Exit,
        bytes: &[u8],
        payload: &[u8],
    ) -> Result<(), Refusal>
        requires addresses { front_end bytes.now ≤ length bytes.now }
        ensures { (s : PacketState) → Shows self.now s → header_of bytes.now ≡ s.header → Some exit.now ≡ exit_of s.network (egress s) → payload.now ≡ s.payload
            → TellsRow (row.egress_request s) s result }
    {
        if self.asks_here(exit) && carries_request(bytes, payload) {
            return Err(traceroute_reply(self.egress()));
        }
        Ok(())
    }

    /// How it leaves as it now stands: no cursor moves on, and no identifier is chained. The identifier may
    /// have been turned back where it arrived, and the cursor moved to the next segment.
    pub(crate) fn unchanged(&self, link: u16, to: Option<Underlay>) -> Departure
        requires on { IsOnPath self.now }
        ensures { (s : PacketState) (p : Packet) → Shows self.now s → Keeps self.now s p → Departs result (row.Sent link to (packet s)) p }
    {
        Departure {
            link,
            to,
            entered: self.entered,
            turned: self.turned,
            left: self.current.segment,
            chained: None,
            segment: self.current.segment,
            number: self.current.number,
        }
    }

    /// The segment and the number of the next hop, where there is one.
    fn next_hop(&self) -> (usize, usize)
        requires on { IsOnPath self.now }
        requires more { (self.now.current.position + 1 == self.now.current.hops && not (nat_lt (self.now.current.segment + 1) self.now.segments)) ≡ false }
        ensures segment_fits { result.0 < 3 }
        ensures number_fits { result.1 < 64 }
        ensures next { (s : PacketState) → Shows self.now s → IsNumberOf result.0 result.1 s.path.segments (next_place s.path.segments s.path.place) }
    {
        if self.is_last_of_segment() {
            (self.current.segment + 1, self.current.number + 1)
        } else {
            (self.current.segment, self.current.number + 1)
        }
    }

    /// The segment's identifier for the next hop, in the direction of construction.
    fn chained_id(&self) -> Option<u16>
        ensures { (s : PacketState) → Shows self.now s → result ≡ (if is_along s then Some (chained_id s) else None) }
    {
        if self.current.info.along {
            Some(chain(self.current.info.segment_id, &self.current.hop.mac))
        } else {
            None
        }
    }

    /// How it leaves by a link of this router: with the cursor at the next hop, and in the direction of
    /// construction with SegID chained. A path that ends here has no next hop.
    #[inline(always)]
    fn sent_out(&self) -> Result<Departure, Refusal>
        requires on { IsOnPath self.now }
        ensures { (s : PacketState) (p : Packet) → Shows self.now s → Keeps self.now s p
            → TellsVerdict (row.sent_out (if is_along s then chained s else s) (egress s)) p result }
    {
        if self.is_last_of_path() {
            return Err(Refusal::Drop(Cause::PathEnd));
        }
        let (segment, number) = self.next_hop();
        Ok(Departure {
            link: self.egress(),
            to: None,
            entered: self.entered,
            turned: self.turned,
            left: self.current.segment,
            chained: self.chained_id(),
            segment,
            number,
        })
    }

    /// How it leaves the AS by this exit: by the link, or as it stands to the sibling that has the interface.
    #[inline(always)]
    pub(crate) fn leave(&self, exit: &Exit) -> Result<Departure, Refusal>
        requires on { IsOnPath self.now }
        ensures { (s : PacketState) (p : Packet) → Shows self.now s → Keeps self.now s p → Some exit.now ≡ exit_of s.network (egress s)
            → TellsVerdict (verdict_of (row.leave s)) p result }
    {
        match exit {
            Exit::Own(_) => self.sent_out(),
            Exit::OfSibling(_, at) => Ok(self.unchanged(0, Some(*at))),
        }
    }
}
