//! Whole runs of the machine.

use crate::samples::{Coming, EXPIRED, LEAVES, is_what_leaves, pipeline};
use pipe_model::{NoMemoryAt, Outgoing, Place, Queue, Step, StepFault, Worker, World};
use process_packet::{Bands, CAUSES, Cause, NoMemory, Totals};
use std::alloc::Global;
use std::process::Abort;

/// Each packet on its way from link 1 to link 2, one after the other.
const WAY: [Step; 14] = [
    Step::Receive(1),
    Step::Offer(Worker::Receiver(1)),
    Step::Take(Queue::Of(Worker::Processor(0))),
    Step::Route(0),
    Step::Offer(Worker::Processor(0)),
    Step::Take(Queue::Of(Worker::Forwarder(2))),
    Step::Send(2, true),
    Step::Receive(1),
    Step::Offer(Worker::Receiver(1)),
    Step::Take(Queue::Of(Worker::Processor(0))),
    Step::Route(0),
    Step::Offer(Worker::Processor(0)),
    Step::Take(Queue::Of(Worker::Forwarder(2))),
    Step::Send(2, false),
];

/// The pipeline before two packets of one flow that come by link 1.
fn before(alloc: Global, second: Coming) -> Result<World, NoMemory> {
    pipeline(alloc, Bands::One, LEAVES, second)
}

fn leaves(number: u64) -> Outgoing {
    Outgoing {
        arrived: 1,
        number,
        answer: false,
        to: None,
    }
}

fn totals(received: u128, sent: u128) -> Totals {
    Totals {
        received,
        sent,
        answered: 0,
        dropped: [0; CAUSES],
    }
}

/// Whether the first packet is at a place, and nothing else has come.
fn is_alone_at(world: &World, place: Place) -> bool {
    world.place(1, 1) == Some(place)
        && world.place(1, 2) == None
        && world.totals() == totals(1, 0)
        && world.waiting() == 1
        && world.sent(2).is_empty()
}

/// Whether the second packet has come after the first.
fn has_second(world: &World) -> bool {
    world.place(1, 2) == Some(Place::Hand(Worker::Receiver(1)))
        && world.totals() == totals(2, 0)
        && world.waiting() == 2
}

/// Whether the first packet was sent, by link 2, and nothing else left.
fn is_first_sent(world: &World) -> bool {
    let [(outgoing, bytes)] = world.sent(2) else {
        return false;
    };
    *outgoing == leaves(1)
        && is_what_leaves(bytes.as_slice())
        && world.place(1, 1) == Some(Place::Sent)
        && world.sent(1).is_empty()
        && world.sent(9).is_empty()
}

/// Makes the first steps of the way, each of which brings the first packet to the next place.
fn go_along(rt: &(impl AllocGlobal + Abort), world: &mut World, places: &[Place]) {
    for (step, place) in WAY.iter().zip(places.iter()) {
        assert!(rt; world.step(rt.alloc(), *step) == Ok(()));
        assert!(rt; is_alone_at(world, *place));
    }
}

/// Receives the second packet, and then sends the first.
fn send_first(rt: &(impl AllocGlobal + Abort), world: &mut World) {
    assert!(rt; world.step(rt.alloc(), Step::Receive(1)) == Ok(()));
    assert!(rt; has_second(world));
    assert!(rt; world.step(rt.alloc(), Step::Send(2, true)) == Ok(()));
    assert!(rt; is_first_sent(world));
    assert!(rt; world.totals() == totals(2, 1) && world.waiting() == 1);
}

#[test]
fn two_packets_at_each_moment(rt: HostRuntime) {
    pipe_model::arrivals_stay();
    let mut world = before(rt.alloc(), LEAVES).expect(&rt, "memory");
    assert!(&rt; world.place(1, 1) == None && world.totals() == totals(0, 0));
    let places = [
        Place::Hand(Worker::Receiver(1)),
        Place::Pipe(Worker::Processor(0)),
        Place::Hand(Worker::Processor(0)),
        Place::Hand(Worker::Processor(0)),
        Place::Pipe(Worker::Forwarder(2)),
        Place::Hand(Worker::Forwarder(2)),
    ];
    go_along(&rt, &mut world, &places);
    send_first(&rt, &mut world);
    drop(world);
}

/// Whether the second packet's datagram was not sent, and is counted so.
fn is_second_dropped(world: &World) -> bool {
    let totals = world.totals();
    world.place(1, 2) == Some(Place::Dropped(Cause::SendFailed))
        && world.place(2, 1) == None
        && totals.dropped_for(Cause::SendFailed) == 1
        && (totals.received, totals.sent) == (2, 1)
}

#[test]
fn a_list_of_steps(rt: HostRuntime) {
    let mut world = before(rt.alloc(), LEAVES).expect(&rt, "memory");
    let skipped = world.run(rt.alloc(), &WAY).expect(&rt, "memory");
    assert!(&rt; skipped.is_empty());
    assert!(&rt; is_first_sent(&world));
    assert!(&rt; is_second_dropped(&world));
    assert!(&rt; world.waiting() == 0);
    assert!(&rt; world.config().processors == 2);
    drop(world);
}

/// Whether the first packet waits for its processor, and the second was dropped at the full pipe.
fn is_second_refused(world: &World) -> bool {
    world.place(1, 1) == Some(Place::Pipe(Worker::Processor(0)))
        && world.place(1, 2) == Some(Place::Dropped(Cause::ProcessorFull))
        && world.totals().dropped_for(Cause::ProcessorFull) == 1
        && world.waiting() == 1
}

#[test]
fn steps_that_are_not_possible(rt: HostRuntime) {
    let mut world = before(rt.alloc(), LEAVES).expect(&rt, "memory");
    let steps = [
        Step::Send(2, true),
        Step::Receive(1),
        Step::Receive(1),
        Step::Receive(9),
        Step::Offer(Worker::Receiver(1)),
        Step::Refuse(Worker::Receiver(1)),
        Step::Receive(1),
        Step::Offer(Worker::Receiver(1)),
        Step::Refuse(Worker::Receiver(1)),
        Step::Receive(1),
    ];
    let skipped = world.run(rt.alloc(), &steps).expect(&rt, "memory");
    assert!(&rt; skipped.as_slice() == [0usize, 2, 3, 5, 7, 9].as_slice());
    assert!(&rt; is_second_refused(&world));
    world.headline();
    drop(world);
}

/// The first packet is sent, the second is answered, and the answer comes after the mark with which
/// its link is closed. Six of the steps are not possible.
const TO_THE_END: [Step; 26] = [
    Step::Send(2, true),
    Step::Receive(1),
    Step::Offer(Worker::Receiver(1)),
    Step::Take(Queue::Of(Worker::Processor(0))),
    Step::Route(0),
    Step::Offer(Worker::Processor(0)),
    Step::Take(Queue::Of(Worker::Forwarder(2))),
    Step::Send(2, true),
    Step::Send(2, true),
    Step::Receive(1),
    Step::Receive(1),
    Step::Offer(Worker::Receiver(1)),
    Step::EndMark(Worker::Receiver(1), Queue::Of(Worker::Processor(0))),
    Step::Take(Queue::Of(Worker::Processor(0))),
    Step::Route(0),
    Step::Offer(Worker::Processor(0)),
    Step::Take(Queue::Of(Worker::Slow)),
    Step::Answer,
    Step::CloseMark(Queue::Of(Worker::Forwarder(1))),
    Step::Offer(Worker::Slow),
    Step::Take(Queue::Of(Worker::Forwarder(1))),
    Step::Offer(Worker::Slow),
    Step::EndMark(Worker::Controller, Queue::Of(Worker::Forwarder(1))),
    Step::Sweep(Queue::Of(Worker::Forwarder(1))),
    Step::EndMark(Worker::Controller, Queue::Of(Worker::Forwarder(1))),
    Step::Sweep(Queue::Of(Worker::Forwarder(1))),
];

/// Whether two pipelines over those two packets tell the same.
fn tell_the_same(one: &World, other: &World) -> bool {
    for number in 1..3 {
        if one.place(1, number) != other.place(1, number) {
            return false;
        }
    }
    for link in 0..3 {
        let (left, also_left) = (one.sent(link), other.sent(link));
        if left.len() != also_left.len() {
            return false;
        }
        for (mine, others) in left.iter().zip(also_left.iter()) {
            if mine.0 != others.0 || mine.1.as_slice() != others.1.as_slice() {
                return false;
            }
        }
    }
    one.totals() == other.totals() && one.waiting() == other.waiting()
}

/// Makes the steps before the one that found no memory in another pipeline, which then tells the same.
fn check_stopped(rt: &(impl AllocGlobal + Abort), world: &World, made: &[Step]) {
    let mut other = before(rt.alloc(), EXPIRED).expect(rt, "one allocation was refused");
    for step in made {
        assert!(rt; other.step(rt.alloc(), *step) != Err(StepFault::NoMemory));
    }
    assert!(rt; tell_the_same(world, &other));
    drop(other);
}

/// What was refused memory.
#[derive(Debug, Drop)]
enum Refused {
    /// The pipeline, before its first step.
    Setup,
    /// The run of its steps.
    Run,
}

/// Runs to the end, once more from the step that found no memory.
fn run_to_the_end(
    rt: &(impl AllocGlobal + Abort),
    world: &mut World,
    steps: &[Step],
) -> Result<(), Refused> {
    match world.run(rt.alloc(), steps) {
        Ok(skipped) => {
            assert!(rt; skipped.as_slice() == [0usize, 8, 10, 12, 19, 22].as_slice());
            Ok(())
        }
        Err(NoMemoryAt(at)) => {
            let (made, left) = steps.split_at(at);
            check_stopped(rt, world, made);
            assert!(rt; world.run(rt.alloc(), left).is_ok());
            Err(Refused::Run)
        }
    }
}

/// With any one growth refused, as by `tests/faults/growths.py`: the pipeline is where the steps before it led, and
/// goes on from there.
#[test]
fn goes_on_without_memory(rt: HostRuntime) -> Result<(), Refused> {
    let Ok(mut world) = before(rt.alloc(), EXPIRED) else {
        return Err(Refused::Setup);
    };
    let ended = run_to_the_end(&rt, &mut world, &TO_THE_END);
    assert!(&rt; world.place(1, 1) == Some(Place::Sent));
    assert!(&rt; world.place(1, 2) == Some(Place::Dropped(Cause::Closed)));
    assert!(&rt; world.waiting() == 0);
    drop(world);
    ended
}
