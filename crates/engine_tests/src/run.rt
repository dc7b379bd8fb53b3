//! The engine of `run` over readers and writers in memory, and over a router that is made for it.

use crate::calls::count_call;
use cli_io::LinesFault;
use cli_run::{Closing, Control, Figures, run_lines};
use process_packet::{CAUSES, Totals};
use std::alloc::{AllocError, Global};
use std::io::{self, Read, Write};
use std::test::*;

/// A router of which each link is closed in another way, with the figures that it will tell.
struct Fake {
    sent: Vec<u128>,
}

impl Control for Fake {
    ghost use Rattle.std.specs.Prelude.{⊤};

    ghost closes = { λ before link told after. ⊤ };

    ghost tells = { λ router figures. ⊤ };

    fn close_link(&mut self, link: u16) -> Closing {
        match link {
            1 => Closing::Closed,
            2 => Closing::Full,
            3 => Closing::Already,
            _ => Closing::Unknown,
        }
    }

    fn finish(self) -> Figures {
        let Fake { sent } = self;
        let mut dropped = [0; CAUSES];
        dropped[12] = 3;
        Figures {
            sent,
            totals: Totals {
                received: 12,
                sent: 7,
                answered: 2,
                dropped,
            },
        }
    }
}

fn made(alloc: Global) -> Result<Fake, AllocError> {
    Ok(Fake {
        sent: vec![in alloc; 7_u128, 0]?,
    })
}

const LINKS: [u16; 2] = [0, 9];

const INPUT: &[u8] =
    b"close 1\nclose 2\nclose 3\nclose 65535\nclose 65536\nclose 01\n\nends\nend\nclose 1\n";

const OUTPUT: &[u8] =
    b"ready\nclosed 1\nfull 2\nalready 3\nunknown 65535\nno command\nno command\nno command\n\
    no command\nlink 0 sent 7\nlink 9 sent 0\nreceived 12\nsent 7\nanswered 2\ndropped 13 3\n";

/// What is written for an input.
fn told(alloc: Global, input: &[u8]) -> Result<Vec<u8>, AllocError> {
    let mut reader = input;
    let mut writer = Vec::new(alloc);
    match run_lines(alloc, &LINKS, made(alloc)?, &mut reader, &mut writer) {
        Ok(()) => Ok(writer),
        Err(_) => Ok(Vec::new(alloc)),
    }
}

/// Whether what is written for an input begins so.
fn begins(alloc: Global, input: &[u8], wanted: &[u8]) -> Result<bool, AllocError> {
    let text = told(alloc, input)?;
    Ok(text.as_slice().starts_with(wanted))
}

#[test]
fn commands_are_answered(rt: HostRuntime) {
    let alloc = rt.alloc();
    assert!(rt; told(alloc, INPUT).expect(&rt, "memory").as_slice() == OUTPUT);
    assert!(rt; begins(alloc, b"", b"ready\nlink 0 sent 7\n").expect(&rt, "memory"));
    let cut = begins(alloc, b"close 1", b"ready\nclosed 1\nlink 0 sent 7\n");
    assert!(rt; cut.expect(&rt, "memory"));
    let no_text = begins(
        alloc,
        b"close \xff1\n",
        b"ready\nno command\nlink 0 sent 7\n",
    );
    assert!(rt; no_text.expect(&rt, "memory"));
}

/// Gives and takes one byte a call, and fails at one of its calls.
#[derive(Drop)]
struct FailsAt<'a> {
    left: u64,
    input: &'a [u8],
    bytes: Vec<u8>,
}

impl Read for FailsAt<'_> {
    fn read(&mut self, buf: &mut [u8]) -> io::Result<usize> {
        count_call(&mut self.left)?;
        match (buf.first_mut(), self.input.split_first()) {
            (Some(first), Some((byte, rest))) => {
                *first = *byte;
                self.input = rest;
                Ok(1)
            }
            _ => Ok(0),
        }
    }
}

impl Write for FailsAt<'_> {
    fn write(&mut self, buf: &[u8]) -> io::Result<usize> {
        count_call(&mut self.left)?;
        match buf.first() {
            Some(byte) => {
                self.bytes.push(*byte)?;
                Ok(1)
            }
            None => Ok(0),
        }
    }

    fn flush(&mut self) -> io::Result<()> {
        count_call(&mut self.left)
    }
}

/// Whether a reader that fails at this call is reported, no report is written, and what is written is a beginning.
fn tells_of_its_reader(alloc: Global, left: u64) -> io::Result<bool> {
    let bytes = Vec::new(alloc);
    let fails = FailsAt {
        left,
        input: b"close 1\nx\n",
        bytes,
    };
    let mut reader = io::BufReader::new(alloc, fails)?;
    let mut writer = Vec::new(alloc);
    let result = run_lines(alloc, &LINKS, made(alloc)?, &mut reader, &mut writer);
    let whole = b"ready\nclosed 1\nno command\n".as_slice();
    if left < 11 {
        return Ok(result == Err(LinesFault::Input) && whole.starts_with(writer.as_slice()));
    }
    Ok(result == Ok(()) && writer.as_slice().starts_with(whole))
}

/// Whether a writer that fails at this call is reported, and what is written is a beginning.
fn tells_of_its_writer(alloc: Global, left: u64) -> io::Result<bool> {
    let mut reader = INPUT;
    let mut writer = FailsAt {
        left,
        input: b"",
        bytes: Vec::new(alloc),
    };
    let result = run_lines(alloc, &LINKS, made(alloc)?, &mut reader, &mut writer);
    let written = writer.bytes.as_slice();
    match result {
        Ok(()) => Ok(written == OUTPUT),
        Err(fault) => Ok(fault == LinesFault::Output && OUTPUT.starts_with(written)),
    }
}

#[test]
fn a_device_that_fails_is_told(rt: HostRuntime) {
    for left in 0..12 {
        assert!(rt;
            tells_of_its_reader(rt.alloc(), left).expect(&rt, "memory"),
            "at call {left} of the reader"
        );
    }
    for left in 0..180 {
        assert!(rt;
            tells_of_its_writer(rt.alloc(), left).expect(&rt, "memory"),
            "at call {left} of the writer"
        );
    }
}

/// With each allocation refused in turn (`--fail-alloc`): the engine ends with `memory`, after a beginning of
/// the text.
#[test]
fn ends_without_memory(rt: HostRuntime) {
    let alloc = rt.alloc();
    let Ok(router) = made(alloc) else {
        return;
    };
    let mut reader = INPUT;
    let mut held = [b'.'; 256];
    let mut writer = held.as_mut_slice();
    match run_lines(alloc, &LINKS, router, &mut reader, &mut writer) {
        Ok(()) => assert!(rt; held.starts_with(OUTPUT)),
        Err(fault) => {
            assert!(rt; fault == LinesFault::Memory);
            assert!(rt; !held.contains(&b'7'));
        }
    }
}
