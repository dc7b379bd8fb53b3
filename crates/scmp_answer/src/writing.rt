//! The bytes of an answer.

ghost use Rattle.std.specs.Prelude.{◌≡◌, ◌+◌, ◌-◌, ◌*◌, ◌/◌, ◌%◌, ◌≤◌, ◌++◌, length, take};
ghost use Rattle.byteorder.specs.Endian.{big_bytes};
ghost use Rattle.field_rows.specs.Place.{IsBytes, Puts, text_at};
ghost use Rattle.field_rows.specs.Row.{rows};
ghost use Rattle.path_fields.specs.Path.{fields_of};
ghost use Rattle.process_packet.specs.Request.{request};
ghost use Rattle.scion_header.specs.Address.{host_address};
ghost use Rattle.scion_header.specs.Header.{header_fields};
ghost use Rattle.scion_packet.specs.Header.{front_len, header_text};
ghost use Rattle.scion_packet.specs.Lengths.{path_len};
ghost use Rattle.scion_packet.specs.Path.{IsPath, path_text};
ghost use Rattle.scmp_answer.specs.Checksum.{checksum, pseudo_table};
ghost use Rattle.scmp_answer.specs.Message.{fixed_len, numbers_of, table_of};

use crate::checksum::checksum;
use crate::message::{fixed_len, write_fixed};
use field_rows::{put, put_u16};
use path_fields::{Path, path_is_lawful, write_path};
use process_packet::Problem;
use scion_header::{Address, Header, write_header};

/// How many bytes a path has.
pub(crate) fn path_len(path: &Path) -> usize
    ensures len { result ≡ path_len path.now.lengths }
    ensures text { result ≡ length (path_text (fields_of path.now)) }
    ensures whole { result ≡ 4 * (result / 4) }
    ensures small { result ≤ 796 }
    ensures lawful { IsPath (fields_of path.now) }
{
    path_is_lawful();
    4 + 8 * path.infos.len() + 12 * path.hops.len()
}

/// Writes a header and its path at the front.
pub(crate) fn write_front(header: &Header, way: &Path, out: &mut [u8])
    requires { front_len (header_fields header.now) + length (path_text (fields_of way.now)) ≤ length out.old }
    ensures { Puts out.old out.new 0 (header_text (header_fields header.now) ++ path_text (fields_of way.now)) }
{
    let Ok(front) = write_header(header, out) else {
        unreachable!()
    };
    let end = front + path_len(way);
    let Ok(_) = write_path(way, &mut out[front..end]) else {
        unreachable!()
    };
}

/// Writes a message with checksum 0.
pub(crate) fn write_message(
    here: &Address,
    arriving: &Header,
    payload: &[u8],
    problem: &Problem,
    quote: &[u8],
    out: &mut [u8],
    at: usize,
)
    requires { at + fixed_len problem.now + length quote.now ≤ length out.old }
    ensures text { Puts out.old out.new at
        (rows (table_of (host_address here.now) (numbers_of (request arriving.now.next_header payload.now)) problem.now 0) ++ quote.now) }
    ensures are { IsBytes out.new }
{
    write_fixed(here, arriving, payload, problem, out, at);
    put(out, at + fixed_len(problem), quote);
}

/// Writes the checksum of the message of `len` bytes that is at `at`, after a header whose
/// addresses end at `front`.
pub(crate) fn seal(out: &mut [u8], front: usize, at: usize, len: usize)
    requires begin { 12 ≤ front }
    requires even { front % 2 ≡ 0 }
    requires order { front ≤ at }
    requires some { 4 ≤ len }
    requires room { at + len ≤ length out.old }
    requires short { length out.old ≤ 1232 }
    ensures text { Puts out.old out.new (at + 2)
        (big_bytes 2 (checksum (text_at out.old 12 (front - 12) ++ (rows (pseudo_table len) ++ text_at out.old at len)))) }
    ensures are { IsBytes out.new }
{
    let sum = checksum(&out[12..front], &out[at..at + len]);
    put_u16(out, at + 2, sum);
}
