//! The engine of `route` over readers and writers that fail, and without memory. `tests/lines` has worked lines.
use crate::calls::count_call;
use cli_io::{ArrivalContext, LinesFault, usual_source};
use cli_route::route_lines;
use process_packet::{Config, Ip, Underlay};
use router_config::{ConfigFault, read_config};
use sample_packets::{CONFIGURATION, IN_TIME};
use std::alloc::Global;
use std::io::{self, Read, Write};
use std::test::*;

/// From the other end of link 1, at a second at which the first datagram is sent on.
const ARRIVING: ArrivalContext = ArrivalContext {
    link: 1,
    source: Underlay {
        ip: Ip::V4([10, 1, 0, 2]),
        port: 40000,
    },
    moment: IN_TIME,
};

#[test]
fn datagrams_come_from_the_other_end(rt: HostRuntime) {
    let config = read_config(rt.alloc(), CONFIGURATION).expect(&rt, "configuration");
    assert!(rt; usual_source(&config, 1) == Some(ARRIVING.source));
    drop(config);
}

/// A reader and a writer of a few bytes a call, which fails at one of its calls.
#[derive(Drop)]
pub struct FailsAt {
    pub left: u64,
    pub bytes: Vec<u8>,
}

impl Read for FailsAt {
    fn read(&mut self, buf: &mut [u8]) -> io::Result<usize> {
        count_call(&mut self.left)?;
        match (buf.first_mut(), self.bytes.pop()) {
            (Some(first), Some(byte)) => {
                *first = byte;
                Ok(1)
            }
            _ => Ok(0),
        }
    }
}

impl Write for FailsAt {
    fn write(&mut self, buf: &[u8]) -> io::Result<usize> {
        count_call(&mut self.left)?;
        match buf.first() {
            Some(byte) => {
                self.bytes.push(*byte)?;
                Ok(1)
            }
            None => Ok(0),
        }
    }

    fn flush(&mut self) -> io::Result<()> {
        count_call(&mut self.left)
    }
}

/// Whether the engine tells a reader that fails at this call, and has answered the lines before; it reads
/// "00", an end, "0", "1", an end.
fn tells_of_its_reader(alloc: Global, config: &Config, left: u64) -> io::Result<bool> {
    let bytes = Vec::from_slice(alloc, b"\n10\n00")?;
    let mut reader = io::BufReader::new(alloc, FailsAt { left, bytes })?;
    let mut writer = Vec::new(alloc);
    let result = route_lines(alloc, config, &ARRIVING, &mut reader, &mut writer);
    let wanted = if left < 7 {
        Err(LinesFault::Input)
    } else {
        Ok(())
    };
    let lines = if left < 3 {
        ""
    } else if left < 6 {
        "drop 1\n"
    } else {
        "drop 1\ndrop 1\n"
    };
    Ok(result == wanted && writer.as_slice() == lines.as_bytes())
}

/// Whether it tells a writer that fails at this call.
fn tells_of_its_writer(alloc: Global, config: &Config, left: u64) -> bool {
    let mut reader = b"00\n01\n".as_slice();
    let bytes = Vec::new(alloc);
    let mut writer = FailsAt { left, bytes };
    let wanted = if left < 16 {
        Err(LinesFault::Output)
    } else {
        Ok(())
    };
    route_lines(alloc, config, &ARRIVING, &mut reader, &mut writer) == wanted
}

#[test]
fn tells_a_device_that_fails(rt: HostRuntime) {
    let config = read_config(rt.alloc(), CONFIGURATION).expect(&rt, "configuration");
    for left in 0..8 {
        let told = tells_of_its_reader(rt.alloc(), &config, left).expect(&rt, "memory");
        assert!(rt; told, "at call {left} of the reader");
    }
    for left in 0..17 {
        assert!(rt;
            tells_of_its_writer(rt.alloc(), &config, left),
            "at call {left} of the writer"
        );
    }
    drop(config);
}

/// With each allocation refused in turn (`--fail-alloc`): the engine ends with `memory`, after a
/// beginning of the text.
#[test]
fn ends_without_memory(rt: HostRuntime) {
    let alloc = rt.alloc();
    let config = match read_config(alloc, CONFIGURATION) {
        Ok(config) => config,
        Err(fault) => {
            assert!(rt; fault == ConfigFault::Memory);
            return;
        }
    };
    let mut reader = b"00\n000000000000000000000000\n".as_slice();
    let mut held = [b'.'; 64];
    let mut writer = held.as_mut_slice();
    let result = route_lines(alloc, &config, &ARRIVING, &mut reader, &mut writer);
    match result {
        Ok(()) => assert!(rt; held.starts_with(b"drop 1\ndrop 3\n.")),
        Err(fault) => {
            assert!(rt; fault == LinesFault::Memory);
            assert!(rt; held.starts_with(b".") || held.starts_with(b"drop 1\n."));
        }
    }
}
