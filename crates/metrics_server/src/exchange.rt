//! One request and its response, over any reader and writer.

ghost use Rattle.std.specs.Prelude.{◌≡◌, ◌<◌, ◌≤◌, ℕ, List, [], Option, IfOk, IfSome, OnOk, length, take};
ghost use Rattle.std.specs.Io.KnownBytes.{Consumes};
ghost use Rattle.metrics_server.specs.Exchange.{Heard, Prepares, Tells};
ghost use Rattle.metrics_server.specs.Request.{AsksWithin, most};

use crate::page::Page;
use crate::request::{Asked, request_of};
use crate::response::push_response;
use std::alloc::{AllocError, Global};
use std::io::{Read, Write};
use std::marker::Model;

/// The longest head of a request that is read, in bytes.
pub const REQUEST_MOST: usize = 8192;

/// Memory for one exchange, which the next one uses again: a request's bytes, the page, and the
/// response. Contracts see the response.
#[derive(Drop)]
pub struct Room {
    request: Vec<u8>,
    page: Vec<u8>,
    response: Vec<u8>,
}

impl Model for Room {
    ghost use Rattle.std.specs.Prelude.{◌≡◌, ℕ, List, length};

    ghost Value = { List ℕ };

    ghost view = { λ room. room.response.items };

    ghost invariant = { λ room. length room.request.items ≡ 8192 };
}

impl Room {
    /// Room for a request of 8,192 bytes, with no response in it. At `Err` no memory was left.
    pub fn new(alloc: Global) -> Result<Room, AllocError>
        ensures { IfOk result (λ room. room ≡ []) }
    {
        Ok(Room {
            request: vec![in alloc; 0; REQUEST_MOST]?,
            page: Vec::new(alloc),
            response: Vec::new(alloc),
        })
    }
}

// Reads some bytes into a buffer, behind those that were read before. How many are there then; none
// where the reader ends or fails.
fn read_more<I: Read>(reader: &mut I, buffer: &mut [u8], len: usize) -> Option<usize>
    requires { len < length buffer.old }
    ensures same { length buffer.new ≡ length buffer.old }
    ensures within { IfSome result (λ more. (len < more) × (more ≤ length buffer.new)) }
    ensures bytes { IfSome result (λ more. (input : Option (List ℕ)) → Consumes input (I.remaining reader.old) (take len buffer.old)
        → Consumes input (I.remaining reader.new) (take more buffer.new)) }
{
    match reader.read(&mut buffer[len..]) {
        Ok(0) | Err(_) => None,
        Ok(count) => Some(len + count),
    }
}

// What bytes ask for, of which there may be no more than 8,192.
fn asked_within(bytes: &[u8]) -> Asked
    requires { length bytes.now ≤ most }
    ensures { AsksWithin bytes.now result }
{
    match request_of(bytes) {
        Asked::Unfinished if bytes.len() == REQUEST_MOST => Asked::Unreadable,
        asked => asked,
    }
}

// Reads until what came is a request, or none of at most 8,192 bytes can come of it, or the reader
// ends or fails.
fn read_request<I: Read>(reader: &mut I, buffer: &mut [u8]) -> Asked
    requires { length buffer.old ≡ most }
    ensures heard { IfSome (I.remaining reader.old) (λ input. Heard input result) }
    ensures same { length buffer.new ≡ length buffer.old }
{
    let mut len = 0;
    for _turn in 0..REQUEST_MOST {
        match read_more(reader, buffer, len) {
            Some(more) => len = more,
            None => return Asked::Unfinished,
        }
        let so_far = asked_within(&buffer[..len]);
        if so_far != Asked::Unfinished {
            return so_far;
        }
    }
    unreachable!()
}

// The response to what was asked for, in the room's response.
fn prepare<P: Page>(asked: Asked, page: &mut P, room: &mut Room) -> Result<(), AllocError>
    ensures prepares { OnOk result (Prepares P.shows asked page.old page.new room.new) }
    ensures becomes { P.becomes page.old page.new }
{
    room.page.clear();
    room.response.clear();
    if asked == Asked::Metrics {
        page.push(&mut room.page)?;
    }
    push_response(&mut room.response, asked, room.page.as_slice())
}

/// Reads one request from the reader and answers it by the writer, and tells what was asked for.
/// `None` where it isn't answered, or not to the end: no memory was left, or the writer failed.
pub fn answer_one<I: Read, O: Write, P: Page>(
    reader: &mut I,
    writer: &mut O,
    page: &mut P,
    room: &mut Room,
) -> Option<Asked>
    ensures heard { IfSome (I.remaining reader.old) (λ input. IfSome result (Heard input)) }
    ensures told { IfSome result (λ asked. Tells P.shows asked page.old page.new (O.contents writer.old) (O.contents writer.new)) }
    ensures becomes { P.becomes page.old page.new }
{
    let asked = read_request(reader, room.request.as_mut_slice());
    prepare(asked, page, room).ok()?;
    writer.write_all(room.response.as_slice()).ok()?;
    Some(asked)
}
