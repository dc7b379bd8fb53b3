//! The server.

use crate::connection::{Connection, End, Waited, wait_for};
use crate::exchange::{Room, answer_one};
use crate::page::Page;
use libc::net as c;
use std::net::{TcpListener, TcpStream};
use std::sync::Wait;
use std::sync::atomic::{AtomicU64, Ordering};
use std::thread;
use std::time::{Clock, Duration};

/// How long it rests where no client can be had, in milliseconds.
const REST: u64 = 100;

// Serves one client.
fn serve_one<P: Page, R: Clock>(
    rt: &R,
    stream: TcpStream,
    stop: &AtomicU64,
    page: &mut P,
    room: &mut Room,
)
    ensures { P.becomes page.old page.new }
{
    if let Ok(connection) = Connection::of(rt, stream, stop) {
        let mut reader = End(&connection);
        let mut writer = End(&connection);
        let _ = answer_one(&mut reader, &mut writer, page, room);
    }
}

// No client can be had, as with no descriptor left.
fn rest<R: Clock>(rt: &R) {
    thread::sleep(rt, Duration::from_millis(REST));
}

// Serves the next client.
fn serve_next<P: Page, R: Clock>(
    rt: &R,
    listener: &TcpListener,
    stop: &AtomicU64,
    page: &mut P,
    room: &mut Room,
)
    ensures { P.becomes page.old page.new }
{
    match listener.accept() {
        Ok((stream, _)) => serve_one(rt, stream, stop, page, room),
        Err(_) => rest(rt),
    }
}

/// Serves the page to each who asks, one after the other, until the word isn't 0 any more. Then it
/// gives the page back, as it became.
pub fn serve<P: Page, R: Wait + Clock>(
    rt: &R,
    listener: &TcpListener,
    stop: &AtomicU64,
    page: P,
    room: Room,
) -> P
    ensures { P.becomes page result }
{
    let mut page = page;
    let mut room = room;
    for _ in rt.forever() {
        if stop.load(Ordering::SeqCst) != 0 {
            return page;
        }
        match wait_for(listener, c::POLLIN) {
            Waited::Ready => serve_next(rt, listener, stop, &mut page, &mut room),
            Waited::NotYet => {}
            Waited::Failed => rest(rt),
        }
    }
    unreachable!()
}
