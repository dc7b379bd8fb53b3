//! How a header is written.

ghost use Rattle.std.specs.Prelude.{◌≡◌, ◌+◌, ◌*◌, ◌<◌, ◌≤◌, ◌↔◌, length, IsErr, IfOk, OnOk, OnErr};
ghost use Rattle.field_rows.specs.Row.{rows};
ghost use Rattle.field_rows.specs.Place.{Puts};
ghost use Rattle.scion_packet.specs.Header.{common_table, domain_table, front_len, header_text};
ghost use Rattle.scion_header.specs.Address.{host_address};
ghost use Rattle.scion_header.specs.Header.{header_fields};
ghost use Rattle.scion_header.specs.Host.{length_code};

use crate::address::Address;
use crate::fault::NoRoom;
use crate::header::Header;
use crate::reading::SCION_PATH;
use field_rows::{put, put_u8, put_u16, put_u32, put_u48};

/// The four bits of byte 9 for an address: its kind, then its length code.
fn kind_bits(address: &Address) -> u8
    ensures { result ≡ 4 * address.now.kind + length_code address.now.host }
{
    address.kind * 4 + address.host.length_code()
}

fn write_common(path_type: u8, header: &Header, out: &mut [u8])
    requires { 12 ≤ length out.old }
    ensures { Puts out.old out.new 0 (rows (common_table (record (header_fields header.now) { path_type = path_type }))) }
{
    let first = u32::from(header.traffic_class) << 20 | header.flow_id;
    let kinds = kind_bits(&header.destination) * 16 + kind_bits(&header.source);
    put_u32(out, 0, first);
    put_u8(out, 4, header.next_header);
    put_u8(out, 5, header.header_length);
    put_u16(out, 6, header.payload_length);
    put_u8(out, 8, path_type);
    put_u8(out, 9, kinds);
    put_u16(out, 10, header.reserved);
}

fn write_domain(address: &Address, out: &mut [u8], at: usize)
    requires { at + 8 ≤ length out.old }
    ensures { Puts out.old out.new at (rows (domain_table (host_address address.now))) }
{
    put_u16(out, at, address.isd);
    put_u48(out, at + 2, address.autonomous_system);
}

/// Writes the common header and the address header at the front, for a path of this type (PathType), and says how
/// many bytes they are; what lies after them is as it was. Where there is no room for both `NoRoom` is answered,
/// and nothing is written.
pub fn write_header_as(path_type: u8, header: &Header, out: &mut [u8]) -> Result<usize, NoRoom>
    ensures written { OnOk result (Puts out.old out.new 0 (header_text (record (header_fields header.now) { path_type = path_type }))) }
    ensures len { IfOk result (λ n. n ≡ front_len (header_fields header.now)) }
    ensures no_room { IsErr result ↔ (length out.old < front_len (header_fields header.now)) }
    ensures err { OnErr result (out.new ≡ out.old) }
{
    let destination = header.destination.host.as_slice();
    let source = header.source.host.as_slice();
    let source_place = 28 + destination.len();
    let whole = source_place + source.len();
    if out.len() < whole {
        return Err(NoRoom);
    }
    write_common(path_type, header, out);
    write_domain(&header.destination, out, 12);
    write_domain(&header.source, out, 20);
    put(out, 28, destination);
    put(out, source_place, source);
    Ok(whole)
}

/// What `write_header_as` writes for a SCION path (path type 1), in the same way.
pub fn write_header(header: &Header, out: &mut [u8]) -> Result<usize, NoRoom>
    ensures written { OnOk result (Puts out.old out.new 0 (header_text (header_fields header.now))) }
    ensures len { IfOk result (λ n. n ≡ front_len (header_fields header.now)) }
    ensures no_room { IsErr result ↔ (length out.old < front_len (header_fields header.now)) }
    ensures err { OnErr result (out.new ≡ out.old) }
{
    write_header_as(SCION_PATH, header, out)
}
