//! Devices over lists, and the end mark of a pipe.

ghost use Rattle.std.specs.Prelude.{◌≡◌, []};

use crate::neighbour::NEAR;
use process_packet::LONGEST_DATAGRAM;
use router_rules::Outgoing;
use ruled_pipe::{Consumer, Load, Mark, Pipe, Producer};
use std::alloc::{AllocError, Global};
use std::process::Abort;
use std::sync::Wait;
use std::test::*;
use worker_parts::{BUFFER_LEN, Inlet, ListSink, ListSource, Next, NextLen, Outlet, Sink, Source};

// Whether the source gives a datagram of this length, with this first byte.
fn gives(source: &mut ListSource, bytes: &mut [u8; BUFFER_LEN], want: usize, first: u8) -> bool {
    if source.failures() > 5 {
        return false;
    }
    match source.next_into(bytes) {
        NextLen::Datagram { len, from, now } => {
            len == want && from == NEAR && now == 7 && bytes[0] == first
        }
        _ => false,
    }
}

fn answers(source: &mut ListSource, bytes: &mut [u8; BUFFER_LEN], want: NextLen) -> bool {
    source.failures() < 5 && source.next_into(bytes) == want
}

// A number of the same bytes.
fn datagram_of<R: Abort>(rt: &R, alloc: Global, byte: u8, len: usize) -> Next {
    let mut bytes = Vec::new(alloc);
    bytes.resize(len, byte).expect(rt, "memory");
    Next::Datagram {
        bytes,
        from: NEAR,
        now: 7,
    }
}

// A datagram of 9,216 bytes, one that is too long, and the other answers.
fn answers_of_all_kinds<R: Abort>(rt: &R, alloc: Global) -> Vec<Next> {
    let answers = [
        datagram_of(rt, alloc, 5, LONGEST_DATAGRAM),
        Next::Quiet,
        Next::Failed,
        datagram_of(rt, alloc, 6, 9300),
    ];
    Vec::from_array(alloc, answers).expect(rt, "memory")
}

fn reads_all<R: Abort>(rt: &R, alloc: Global) -> bool {
    let mut source = ListSource::new(answers_of_all_kinds(rt, alloc));
    let mut bytes = [0u8; BUFFER_LEN];
    let one = gives(&mut source, &mut bytes, LONGEST_DATAGRAM, 5);
    let two = answers(&mut source, &mut bytes, NextLen::Quiet);
    let three = answers(&mut source, &mut bytes, NextLen::Failed);
    let four = gives(&mut source, &mut bytes, BUFFER_LEN, 6);
    let five = answers(&mut source, &mut bytes, NextLen::End);
    let six = answers(&mut source, &mut bytes, NextLen::End);
    one && two && three && four && five && six && source.failures() == 1
}

#[test]
fn a_list_is_read_in_order(rt: HostRuntime) {
    assert!(rt; reads_all(&rt, rt.alloc()));
}

fn offers<R: Wait>(rt: &R, outlet: &mut Outlet<u32>, item: u32) -> bool {
    !outlet.has_ended() && outlet.offer(rt, item).is_ok()
}

fn takes<R: Wait>(rt: &R, inlet: &mut Inlet<u32>, item: u32) -> bool {
    if inlet.is_done() {
        return false;
    }
    match inlet.take(rt) {
        Some(Load::Payload(x)) => x == item,
        _ => false,
    }
}

fn takes_end<R: Wait>(rt: &R, inlet: &mut Inlet<u32>) -> bool {
    if inlet.is_done() {
        return false;
    }
    match inlet.take(rt) {
        Some(Load::Marked(mark)) => mark == Mark::End,
        _ => false,
    }
}

// A pipe for one: its end mark is refused while an item is held, and is then the last.
fn ends_once<R: Wait>(rt: &R, producer: Producer<u32>, consumer: Consumer<u32>) -> bool
    requires producer { producer.offers ≡ [] }
    requires consumer { (consumer.taken ≡ []) × (consumer.producers ≡ 1) }
{
    let mut outlet = Outlet::of(producer, None);
    let mut inlet = Inlet::of(consumer, 1);
    let one = offers(rt, &mut outlet, 8) && !offers(rt, &mut outlet, 9);
    let two = !outlet.end(rt) && takes(rt, &mut inlet, 8);
    let three = outlet.end(rt) && outlet.end(rt) && outlet.has_ended();
    let four = takes_end(rt, &mut inlet) && inlet.is_done();
    let _ = outlet.into_producer();
    let _ = inlet.into_consumer();
    one && two && three && four
}

fn end_of_a_pipe<R: Wait>(rt: &R, alloc: Global) -> Result<bool, AllocError> {
    let (_, mut ends, consumer) = Pipe::<u32>::new(alloc, 1, 1)?;
    match ends.pop() {
        Some(producer) => Ok(ends_once(rt, producer, consumer)),
        None => Ok(false),
    }
}

#[test]
fn an_end_mark_is_pushed_once(rt: HostRuntime) {
    assert!(rt; end_of_a_pipe(&rt, rt.alloc()).expect(&rt, "memory"));
}

// Whether the sink takes a packet of this number.
fn takes_packet(sink: &mut ListSink, number: u64) -> bool {
    let out = Outgoing {
        arrived: 1,
        number,
        answer: false,
        to: None,
    };
    sink.failures() < 5 && sink.send(&out, b"abc").is_ok()
}

// Whether these are what the sink tells: the numbers, and whether it took each.
fn tells(sink: &ListSink, numbers: &[u64], took: &[bool]) -> bool {
    let Some(list) = sink.told() else {
        return false;
    };
    if list.len() != numbers.len() || list.len() != took.len() {
        return false;
    }
    for i in 0..list.len() {
        if list[i].out.number != numbers[i] || list[i].took != took[i] || list[i].bytes.len() != 3 {
            return false;
        }
    }
    true
}

fn fails_at_two<R: Abort>(rt: &R, alloc: Global) -> bool {
    let fails = Vec::from_array(alloc, [2_u64]).expect(rt, "memory");
    let mut sink = ListSink::new(alloc, fails);
    let one = takes_packet(&mut sink, 7);
    let two = !takes_packet(&mut sink, 8);
    let three = takes_packet(&mut sink, 9);
    one && two && three && sink.failures() == 1 && tells(&sink, &[7, 8, 9], &[true, false, true])
}

#[test]
fn a_list_is_kept_and_fails_where_it_is_told(rt: HostRuntime) {
    assert!(rt; fails_at_two(&rt, rt.alloc()));
}
