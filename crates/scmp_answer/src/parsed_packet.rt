//! The packet that is answered.

ghost use Rattle.std.specs.Prelude.{◌≡◌, ◌≤◌, None, length};
ghost use Rattle.field_rows.specs.Place.{IsBytes};
ghost use Rattle.path_fields.specs.Path.{fields_of};
ghost use Rattle.scion_header.specs.Header.{header_fields};
ghost use Rattle.scion_packet.specs.Header.{header_end, header_fault, header_of};
ghost use Rattle.scion_packet.specs.Packet.{first_fault, packet_of, path_bytes};
ghost use Rattle.scion_packet.specs.Path.{path_fault};

use path_fields::{Path, read_path};
use scion_header::{Header, read_header};

/// The header and the path of a datagram, and where its payload begins.
#[derive(Drop)]
pub(crate) struct ParsedPacket {
    pub header: Header,
    pub path: Path,
    pub payload: usize,
}

impl ParsedPacket {
    /// Reads what follows a sound header.
    fn after_header(header: Header, bytes: &[u8]) -> ParsedPacket
        requires header { header_fields header ≡ header_of bytes.now }
        requires sound { header_fault bytes.now ≡ None }
        requires path { path_fault (path_bytes bytes.now) ≡ None }
        requires are { IsBytes bytes.now }
        ensures header { header_fields result.header ≡ (packet_of bytes.now).header }
        ensures path { fields_of result.path ≡ (packet_of bytes.now).path }
        ensures payload { result.payload ≡ header_end bytes.now }
        ensures inside { result.payload ≤ length bytes.now }
    {
        let begin = header.front_len();
        let payload = 4 * usize::from(header.header_length);
        let Ok(path) = read_path(&bytes[begin..payload]) else {
            unreachable!()
        };
        ParsedPacket {
            header,
            path,
            payload,
        }
    }

    /// Reads a datagram without a fault.
    pub(crate) fn read(bytes: &[u8]) -> ParsedPacket
        requires { first_fault bytes.now ≡ None }
        ensures header { header_fields result.header ≡ (packet_of bytes.now).header }
        ensures path { fields_of result.path ≡ (packet_of bytes.now).path }
        ensures payload { result.payload ≡ header_end bytes.now }
        ensures inside { result.payload ≤ length bytes.now }
        ensures are { IsBytes bytes.now }
    {
        let Ok(header) = read_header(bytes) else {
            unreachable!()
        };
        ParsedPacket::after_header(header, bytes)
    }
}
