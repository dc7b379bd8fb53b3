//! The SCMP message of an answer, before its checksum.

ghost use Rattle.std.specs.Prelude.{◌≡◌, ◌+◌, ◌<◌, ◌≤◌, ◌^◌, ◌++◌, length};
ghost use Rattle.field_rows.specs.Place.{Puts};
ghost use Rattle.field_rows.specs.Row.{rows};
ghost use Rattle.process_packet.specs.Request.{request};
ghost use Rattle.scion_header.specs.Address.{host_address};
ghost use Rattle.scion_header.specs.Header.{header_fields};
ghost use Rattle.scmp_answer.specs.Message.{fixed_len, longest, numbers_of, parameter_problem_table, quote, table_of, traceroute_reply_table, unreachable_table};

use field_rows::{put, put_u8, put_u16, put_u32, put_u48};
use process_packet::{
    DESTINATION_UNREACHABLE, PARAMETER_PROBLEM, Problem, TRACEROUTE_REPLY, trace_request,
};
use scion_header::{Address, Header};

/// How many bytes of a message come before its quote.
pub(crate) fn fixed_len(problem: &Problem) -> usize
    ensures { result ≡ fixed_len problem.now }
{
    if problem.kind == TRACEROUTE_REPLY {
        24
    } else {
        8
    }
}

/// What a message quotes of the datagram, after a header of this length.
pub(crate) fn quote<'a>(problem: &Problem, header_len: usize, bytes: &'a [u8]) -> &'a [u8]
    requires { header_len + 8 ≤ longest }
    ensures { result.now ≡ quote header_len problem.now bytes.now }
{
    if problem.kind == TRACEROUTE_REPLY {
        return &bytes[..0];
    }
    let room = 1232 - header_len - 8;
    if bytes.len() <= room {
        bytes
    } else {
        &bytes[..room]
    }
}

fn write_unreachable(code: u8, out: &mut [u8], at: usize)
    requires { at + 8 ≤ length out.old }
    ensures { Puts out.old out.new at (rows (unreachable_table code 0)) }
{
    put_u8(out, at, DESTINATION_UNREACHABLE);
    put_u8(out, at + 1, code);
    put_u16(out, at + 2, 0);
    put_u32(out, at + 4, 0);
}

fn write_parameter_problem(code: u8, pointer: u16, out: &mut [u8], at: usize)
    requires { at + 8 ≤ length out.old }
    ensures { Puts out.old out.new at (rows (parameter_problem_table code pointer 0)) }
{
    put_u8(out, at, PARAMETER_PROBLEM);
    put_u8(out, at + 1, code);
    put_u16(out, at + 2, 0);
    put_u16(out, at + 4, 0);
    put_u16(out, at + 6, pointer);
}

fn write_traceroute_reply(
    here: &Address,
    numbers: (u16, u16),
    interface: u16,
    out: &mut [u8],
    at: usize,
)
    requires { at + 24 ≤ length out.old }
    ensures { Puts out.old out.new at (rows (traceroute_reply_table (host_address here.now) numbers.0 numbers.1 interface 0)) }
{
    put_u8(out, at, TRACEROUTE_REPLY);
    put_u8(out, at + 1, 0);
    put_u16(out, at + 2, 0);
    put_u16(out, at + 4, numbers.0);
    put_u16(out, at + 6, numbers.1);
    put_u16(out, at + 8, here.isd);
    put_u48(out, at + 10, here.autonomous_system);
    put_u48(out, at + 16, 0);
    put_u16(out, at + 22, interface);
}

/// The identifier and the sequence number of the traceroute request after a header.
fn numbers_of(header: &Header, payload: &[u8]) -> (u16, u16)
    ensures { result ≡ numbers_of (request header.now.next_header payload.now) }
{
    match trace_request(header, payload) {
        Some(numbers) => numbers,
        None => (0, 0),
    }
}

/// Writes a message with checksum 0 and without its quote: an error message, or the reply to the
/// traceroute request after the arriving header.
pub(crate) fn write_fixed(
    here: &Address,
    arriving: &Header,
    payload: &[u8],
    problem: &Problem,
    out: &mut [u8],
    at: usize,
)
    requires { at + fixed_len problem.now ≤ length out.old }
    ensures { Puts out.old out.new at (rows (table_of (host_address here.now) (numbers_of (request arriving.now.next_header payload.now)) problem.now 0)) }
{
    match problem.kind {
        TRACEROUTE_REPLY => {
            let numbers = numbers_of(arriving, payload);
            write_traceroute_reply(here, numbers, problem.pointer, out, at);
        }
        DESTINATION_UNREACHABLE => write_unreachable(problem.code, out, at),
        _ => write_parameter_problem(problem.code, problem.pointer, out, at),
    }
}
