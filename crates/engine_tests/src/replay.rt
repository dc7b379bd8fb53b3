//! The engine of `replay` over readers and writers in memory, some of which fail, and without memory. `tests/lines`
//! has worked schedules, each kind of line, and what is refused.
use crate::route::FailsAt;
use cli_io::LinesFault;
use cli_replay::replay_lines;
use process_packet::Config;
use router_config::{ConfigFault, read_config};
use sample_packets::CONFIGURATION;
use std::io;
use std::process::Abort;

fn usual(rt: &(impl AllocGlobal + Abort)) -> Config {
    read_config(rt.alloc(), CONFIGURATION).expect(rt, "config")
}

/// The report of a pipeline that received nothing.
const NOTHING: &str = "link 0 sent -\nlink 1 sent -\nlink 2 sent -\nlink 3 sent -\n\
    received 0\nsent 0\nanswered 0\nwaiting 0\n";

#[test]
fn replays_a_line(rt: HostRuntime) {
    let mut reader = b"receive 1\n".as_slice();
    let mut writer = Vec::new(rt.alloc());
    let result = replay_lines(rt.alloc(), usual(&rt), &mut reader, &mut writer);
    assert!(rt; result == Ok(()));
    let report = writer.as_slice().strip_prefix(b"not now 1\n".as_slice());
    assert!(rt; report == Some(NOTHING.as_bytes()));
}

/// How a replay ends whose reader fails at this call, and how much it writes. It reads "receive 1", an end,
/// "receive 2", an end, here backwards.
fn of_its_reader(rt: &(impl AllocGlobal + Abort), left: u64) -> (Result<(), LinesFault>, usize) {
    let bytes = Vec::from_slice(rt.alloc(), b"\n2 eviecer\n1 eviecer").expect(rt, "bytes");
    let reader = io::BufReader::new(rt.alloc(), FailsAt { left, bytes });
    let mut reader = reader.expect(rt, "reader");
    let mut writer = Vec::new(rt.alloc());
    let result = replay_lines(rt.alloc(), usual(rt), &mut reader, &mut writer);
    (result, writer.len())
}

#[test]
fn tells_a_reader_that_fails_in_a_replay(rt: HostRuntime) {
    for left in 0..22 {
        let wanted = if left < 10 {
            (Err(LinesFault::Input), 0)
        } else if left < 20 {
            (Err(LinesFault::Input), 10)
        } else if left < 21 {
            (Err(LinesFault::Input), 20)
        } else {
            (Ok(()), 20 + NOTHING.len())
        };
        assert!(rt; of_its_reader(&rt, left) == wanted, "at call {left}");
    }
}

/// How a replay ends whose writer fails at this call.
fn of_its_writer(rt: &(impl AllocGlobal + Abort), left: u64) -> Result<(), LinesFault> {
    let bytes = Vec::new(rt.alloc());
    let mut reader = b"receive 1\n".as_slice();
    let mut writer = FailsAt { left, bytes };
    replay_lines(rt.alloc(), usual(rt), &mut reader, &mut writer)
}

#[test]
fn tells_a_writer_that_fails_in_a_replay(rt: HostRuntime) {
    let whole = 11 + NOTHING.len() as u64 + 1;
    for left in 0..whole {
        assert!(rt;
            of_its_writer(&rt, left) == Err(LinesFault::Output),
            "at call {left}"
        );
    }
    assert!(rt; of_its_writer(&rt, whole) == Ok(()));
}

/// With each allocation refused in turn (`--fail-alloc`): the engine ends with `memory`, after a
/// beginning of the text.
#[test]
fn replays_without_memory(rt: HostRuntime) {
    let alloc = rt.alloc();
    let config = match read_config(alloc, CONFIGURATION) {
        Ok(config) => config,
        Err(fault) => {
            assert!(rt; fault == ConfigFault::Memory);
            return;
        }
    };
    let mut reader = b"arrive 1 - 0 \nsend 2 ok\nreceive 1\n".as_slice();
    let mut held = [b'.'; 128];
    let mut writer = held.as_mut_slice();
    let result = replay_lines(alloc, config, &mut reader, &mut writer);
    match result {
        Ok(()) => assert!(rt; held.starts_with(b"not now 2\nlink 0 sent -\nlink 1 sent -\n")),
        Err(fault) => {
            assert!(rt; fault == LinesFault::Memory);
            assert!(rt; held.starts_with(b".") || held.starts_with(b"not now 2\n."));
        }
    }
}
