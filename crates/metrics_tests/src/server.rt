//! The server on this machine's own addresses, in a thread: clients that ask, that say nothing, and
//! that go away.

use crate::fixed_page::FixedPage;
use metrics_server::{Room, serve};
use std::alloc::Global;
use std::io::{self, Read, Write};
use std::net::{Net, SocketAddr, TcpListener, TcpStream};
use std::process::Abort;
use std::sync::atomic::{AtomicU64, Ordering};
use std::sync::{Arc, Wait};
use std::test::*;
use std::thread;
use std::thread::Threads;
use std::time::Clock;

// The response to a request.
fn ask(rt: &HostRuntime, at: SocketAddr, request: &[u8]) -> io::Result<String> {
    let mut stream = TcpStream::connect(rt, at)?;
    stream.write_all(request)?;
    io::read_to_string(rt.alloc(), stream)
}

fn is_page(response: io::Result<String>) -> bool {
    match response {
        Ok(text) => text.ends_with("\r\n\r\nup 1\n"),
        Err(_) => false,
    }
}

#[test]
fn clients_are_served_one_after_the_other(rt: HostRuntime) {
    let listener = TcpListener::bind(&rt, "127.0.0.1:0").expect(&rt, "listener");
    listener.set_nonblocking(true).expect(&rt, "mode");
    let at = listener.local_addr().expect(&rt, "address");
    let stop = Arc::new(rt.alloc(), AtomicU64::new(0)).expect(&rt, "memory");
    let theirs = Arc::try_clone(&stop).expect(&rt, "memory");
    let room = Room::new(rt.alloc()).expect(&rt, "memory");
    let child = thread::spawn(&rt, move || serve(&rt, &listener, &theirs, FixedPage, room)).expect(
        &rt, "thread",
    );
    // they wait for their turn without a word, and go away
    for _ in 0..100 {
        drop(TcpStream::connect(&rt, at).expect(&rt, "stream"));
    }
    assert!(rt; is_page(ask(&rt, at, b"GET /metrics HTTP/1.1\r\n\r\n")));
    let silent = TcpStream::connect(&rt, at).expect(&rt, "stream");
    // this one comes after the silent one was given up
    assert!(rt; is_page(ask(&rt, at, b"GET /metrics HTTP/1.1\r\n\r\n")));
    drop(silent);
    stop.store(1, Ordering::SeqCst);
    let _page = child.join(&rt);
}
