//! A datagram before its decision: its headers are parsed, and faulty ones end the decision.

use crate::cause::Cause;
use crate::refusal::{Refusal, header_cause, path_cause};
use path_fields::{Meta, check_path};
use scion_header::{HeaderEnds, check_header};

/// The most bytes that a datagram may have; a longer one is dropped.
pub const LONGEST_DATAGRAM: usize = 9216;

/// What is kept of a datagram's headers, which have no fault: where its path lies, and the path meta header.
#[derive(Clone, Copy)]
pub(crate) struct ParsedHeaders {
    /// Where the path begins, in bytes from the datagram's start: after the address header.
    pub path_begin: usize,
    /// Where the path and the whole header end: the payload begins there.
    pub path_end: usize,
    pub meta: Meta,
}

impl ParsedHeaders {
    ghost use Rattle.std.specs.Prelude.{◌≡◌, ◌≤◌, None, IfOk, MatchResult, length};
    ghost use Rattle.field_rows.specs.Place.{IsBytes};
    ghost use Rattle.scion_packet.specs.Header.{front_end, header_end, header_fault};
    ghost use Rattle.process_packet.specs.ParsedHeaders.{AreHeadersOf};
    ghost use Rattle.process_packet.specs.Rows as row;
    ghost use Rattle.process_packet.specs.PacketView.{TellsRow};
    ghost use Rattle.process_packet.specs.PacketState.{PacketState};

    /// It has more bytes than a datagram may have.
    pub(crate) fn too_long(bytes: &[u8]) -> Result<(), Refusal>
        ensures { (s : PacketState) → bytes.now ≡ s.bytes → TellsRow (row.too_long s) s result }
    {
        if bytes.len() > LONGEST_DATAGRAM {
            return Err(Refusal::Drop(Cause::TooLong));
        }
        Ok(())
    }

    /// Its header has a fault; else where the addresses and the header end.
    pub(crate) fn faulty_header(bytes: &[u8]) -> Result<HeaderEnds, Refusal>
        ensures addresses { IfOk result (λ ends. ends.addresses ≡ front_end bytes.now) }
        ensures header { IfOk result (λ ends. ends.header ≡ header_end bytes.now) }
        ensures covers { IfOk result (λ ends. ends.addresses ≤ ends.header) }
        ensures whole { IfOk result (λ ends. ends.header ≤ length bytes.now) }
        ensures sound { MatchResult result (λ _. header_fault bytes.now ≡ None) (λ _. Unit {0}) }
        ensures are { IsBytes bytes.now }
        ensures says { (s : PacketState) → bytes.now ≡ s.bytes → TellsRow (row.faulty_header s) s result }
    {
        match check_header(bytes) {
            Ok(ends) => Ok(ends),
            Err(fault) => Err(Refusal::Drop(header_cause(fault))),
        }
    }

    /// Its path, after a sound header, has a fault; else where it lies.
    pub(crate) fn faulty_path(ends: HeaderEnds, bytes: &[u8]) -> Result<ParsedHeaders, Refusal>
        requires addresses { ends.addresses ≡ front_end bytes.now }
        requires header { ends.header ≡ header_end bytes.now }
        requires covers { ends.addresses ≤ ends.header }
        requires whole { ends.header ≤ length bytes.now }
        requires sound { header_fault bytes.now ≡ None }
        requires are { IsBytes bytes.now }
        ensures headers { IfOk result (λ f. AreHeadersOf f bytes.now) }
        ensures says { (s : PacketState) → bytes.now ≡ s.bytes → TellsRow (row.faulty_path s) s result }
    {
        match check_path(&bytes[ends.addresses..ends.header]) {
            Ok(meta) => Ok(ParsedHeaders {
                path_begin: ends.addresses,
                path_end: ends.header,
                meta,
            }),
            Err(fault) => Err(Refusal::Drop(path_cause(fault))),
        }
    }
}
