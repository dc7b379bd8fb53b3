//! Requests from readers in memory, which give a few bytes a read, and what is written for them.

use crate::fixed_page::FixedPage;
use metrics_server::{Asked, Room, answer_one, request_of};
use std::io::{self, ErrorKind, Read};
use std::process::Abort;
use std::test::*;

const PAGE: &str =
    "HTTP/1.1 200 OK\r\nContent-Type: text/plain; version=0.0.4\r\nContent-Length: 5\r\nConnection: close\r\n\r\nup 1\n";

const NOT_FOUND: &str = "HTTP/1.1 404 Not Found\r\nContent-Length: 0\r\nConnection: close\r\n\r\n";

const NOT_ALLOWED: &str =
    "HTTP/1.1 405 Method Not Allowed\r\nAllow: GET\r\nContent-Length: 0\r\nConnection: close\r\n\r\n";

// Gives a number of its bytes at each read, and fails after the last.
#[derive(Drop)]
struct Pieces<'a> {
    bytes: &'a [u8],
    each: usize,
}

impl Read for Pieces<'_> {
    fn read(&mut self, buf: &mut [u8]) -> io::Result<usize> {
        let count = self.each.min(self.bytes.len()).min(buf.len());
        if count == 0 {
            return Err(io::Error::from(ErrorKind::TimedOut));
        }
        let (front, rest) = self.bytes.split_at(count);
        buf[..count].copy_from_slice(front);
        self.bytes = rest;
        Ok(count)
    }
}

// What is written for a request that comes in pieces.
fn told<R: Abort + AllocGlobal>(rt: &R, request: &[u8], each: usize) -> Vec<u8> {
    let mut room = Room::new(rt.alloc()).expect(rt, "memory");
    let mut reader = Pieces {
        bytes: request,
        each,
    };
    let mut writer = Vec::new(rt.alloc());
    let _ = answer_one(&mut reader, &mut writer, &mut FixedPage, &mut room);
    writer
}

#[test]
fn requests_are_answered(rt: HostRuntime) {
    let cases: [(&str, &str); 10] = [
        ("GET /metrics HTTP/1.1\r\nHost: x\r\n\r\n", PAGE),
        ("GET /metrics HTTP/1.0\n\n", PAGE),
        ("GET /metrics?a=b HTTP/1.1\r\n\r\n", PAGE),
        ("GET /metrics/ HTTP/1.1\r\n\r\n", NOT_FOUND),
        ("GET / HTTP/1.1\r\n\r\n", NOT_FOUND),
        ("POST / HTTP/1.1\r\n\r\n", NOT_FOUND),
        (
            "POST /metrics HTTP/1.1\r\nContent-Length: 3\r\n\r\nabc",
            NOT_ALLOWED,
        ),
        ("HEAD /metrics HTTP/1.1\r\n\r\n", NOT_ALLOWED),
        ("GET /metrics HTTP/1.1\r\nHost: x\r\n", ""),
        ("\0\0\0\0", ""),
    ];
    for (request, wanted) in cases {
        for each in [1, 7, 10000] {
            let told = told(&rt, request.as_bytes(), each);
            assert!(rt; told.as_slice() == wanted.as_bytes());
        }
    }
}

#[test]
fn a_request_of_8192_bytes_is_the_longest(rt: HostRuntime) {
    let mut request = Vec::new(rt.alloc());
    request
        .extend_from_slice(b"GET /metrics HTTP/1.1\r\nX: ")
        .expect(&rt, "memory");
    for _ in 0..8192 - 30 {
        request.push(b'a').expect(&rt, "memory");
    }
    request.extend_from_slice(b"\r\n\r\n").expect(&rt, "memory");
    assert!(rt; request.len() == 8192);
    assert!(rt; told(&rt, request.as_slice(), 4096).as_slice() == PAGE.as_bytes());
    request.truncate(8188);
    request
        .extend_from_slice(b"a\r\n\r\n")
        .expect(&rt, "memory");
    assert!(rt; request.len() == 8193);
    assert!(rt; told(&rt, request.as_slice(), 4096).is_empty());
}

#[test]
fn a_request_may_have_as_many_fields_as_8192_bytes_hold(rt: HostRuntime) {
    let mut request = Vec::new(rt.alloc());
    request
        .extend_from_slice(b"GET /metrics HTTP/1.1\n")
        .expect(&rt, "memory");
    for _ in 0..2723 {
        request.extend_from_slice(b"a:\n").expect(&rt, "memory");
    }
    request.extend_from_slice(b"\n").expect(&rt, "memory");
    assert!(rt; request.len() == 8192);
    assert!(rt; told(&rt, request.as_slice(), 4096).as_slice() == PAGE.as_bytes());
}

#[test]
fn what_is_asked_for(rt: HostRuntime) {
    assert!(rt; request_of(b"GET /metrics HTTP/1.1\r\n\r\n") == Asked::Metrics);
    assert!(rt; request_of(b"GET /metric") == Asked::Unfinished);
    assert!(rt; request_of(b"GET /metric HTTP/1.1\r\n\r\n") == Asked::OtherPath);
    assert!(rt; request_of(b"PUT /metrics HTTP/1.1\r\n\r\n") == Asked::OtherMethod);
    assert!(rt; request_of(b"\x01") == Asked::Unreadable);
}
