//! Single steps of the machine.

use crate::samples::{EXPIRED, LEAVES, is_what_leaves, pipeline};
use pipe_model::{Outgoing, Place, Queue, Step, StepFault, Worker, World};
use process_packet::{Bands, Cause};
use sample_packets::{FIRST, IN_TIME};
use std::alloc::Global;

const RECEIVER: Worker = Worker::Receiver(1);

const PROCESSOR: Worker = Worker::Processor(0);

const TO_PROCESSOR: Queue = Queue::Of(Worker::Processor(0));

const BACK: Queue = Queue::Of(Worker::Forwarder(1));

const ON: Queue = Queue::Of(Worker::Forwarder(2));

/// A step, and what it answers.
type Act = (Step, Result<(), StepFault>);

const DONE: Result<(), StepFault> = Ok(());

const NOT: Result<(), StepFault> = Err(StepFault::NotNow);

/// The first packet goes to the processor of its flow, the second waits after it.
const TO_ITS_PROCESSOR: [Act; 10] = [
    (Step::Offer(RECEIVER), NOT),
    (Step::Receive(1), DONE),
    (Step::Receive(1), NOT),
    (Step::Offer(RECEIVER), DONE),
    (Step::Receive(1), DONE),
    (Step::Offer(RECEIVER), NOT),
    (Step::Take(TO_PROCESSOR), DONE),
    (Step::Take(TO_PROCESSOR), NOT),
    (Step::Offer(RECEIVER), DONE),
    (Step::Refuse(RECEIVER), NOT),
];

/// The first leaves by the low pipe of a link with two bands.
const SENT: [Act; 13] = [
    (Step::Route(0), DONE),
    (Step::Route(0), NOT),
    (Step::Route(1), NOT),
    (Step::Route(2), NOT),
    (Step::Refuse(PROCESSOR), NOT),
    (Step::Offer(PROCESSOR), DONE),
    (Step::Take(ON), NOT),
    (Step::Look(1), NOT),
    (Step::Look(2), DONE),
    (Step::Take(ON), DONE),
    (Step::Look(2), NOT),
    (Step::Send(2, true), DONE),
    (Step::Send(2, true), NOT),
];

/// The second is answered, and the answer is not sent.
const ANSWERED: [Act; 10] = [
    (Step::Take(TO_PROCESSOR), DONE),
    (Step::Route(0), DONE),
    (Step::Offer(PROCESSOR), DONE),
    (Step::Answer, NOT),
    (Step::Take(Queue::Of(Worker::Slow)), DONE),
    (Step::Answer, DONE),
    (Step::Lack(Worker::Slow), NOT),
    (Step::Offer(Worker::Slow), DONE),
    (Step::Take(BACK), DONE),
    (Step::Send(1, false), DONE),
];

/// A link is closed, and what comes after the mark is swept.
const CLOSED: [Act; 13] = [
    (Step::CloseMark(TO_PROCESSOR), NOT),
    (Step::CloseMark(BACK), DONE),
    (Step::CloseMark(BACK), NOT),
    (Step::Sweep(BACK), NOT),
    (Step::Take(BACK), DONE),
    (Step::Sweep(BACK), NOT),
    (Step::EndMark(RECEIVER, BACK), NOT),
    (Step::EndMark(Worker::Controller, BACK), DONE),
    (Step::EndMark(Worker::Controller, BACK), NOT),
    (Step::Take(BACK), NOT),
    (Step::Sweep(BACK), DONE),
    (Step::EndMark(RECEIVER, TO_PROCESSOR), DONE),
    (Step::EndMark(PROCESSOR, Queue::Of(Worker::Slow)), NOT),
];

/// What isn't there.
const NOT_THERE: [Act; 5] = [
    (Step::Receive(3), NOT),
    (Step::Take(Queue::High(1)), NOT),
    (Step::Take(Queue::High(2)), NOT),
    (Step::Offer(Worker::Processor(2)), NOT),
    (Step::Send(9, true), NOT),
];

/// The first is dropped as it comes, the second for want of a buffer.
const DROPPED: [Act; 4] = [
    (Step::Receive(1), DONE),
    (Step::Receive(1), DONE),
    (Step::NoBuffer(1), DONE),
    (Step::NoBuffer(1), NOT),
];

/// The second is dropped at a full pipe.
const REFUSED: [Act; 6] = [
    (Step::Receive(1), DONE),
    (Step::Offer(RECEIVER), DONE),
    (Step::Receive(1), DONE),
    (Step::EndMark(RECEIVER, TO_PROCESSOR), NOT),
    (Step::Offer(RECEIVER), NOT),
    (Step::Refuse(RECEIVER), DONE),
];

/// The first finds no memory.
const WITHOUT_MEMORY: [Act; 10] = [
    (Step::EndMark(RECEIVER, TO_PROCESSOR), NOT),
    (Step::Receive(1), NOT),
    (Step::Offer(RECEIVER), NOT),
    (Step::Take(TO_PROCESSOR), DONE),
    (Step::Lack(RECEIVER), NOT),
    (Step::Route(1), NOT),
    (Step::Lack(PROCESSOR), DONE),
    (Step::Lack(PROCESSOR), NOT),
    (Step::Refuse(RECEIVER), NOT),
    (Step::Receive(1), NOT),
];

/// Makes a step; where an allocation failed it makes the step once more, since the world is as it was.
fn made(world: &mut World, alloc: Global, step: Step) -> Result<(), StepFault> {
    match world.step(alloc, step) {
        Err(StepFault::NoMemory) => world.step(alloc, step),
        first => first,
    }
}

/// Makes steps, and says whether each was made or not as it is told there.
fn are_made(world: &mut World, alloc: Global, acts: &[Act]) -> bool {
    for (step, wanted) in acts {
        if made(world, alloc, *step) != *wanted {
            return false;
        }
    }
    true
}

/// Whether the first packet alone was sent, and by link 2.
fn is_first_sent(world: &World) -> bool {
    let [(outgoing, bytes)] = world.sent(2) else {
        return false;
    };
    let first = Outgoing {
        arrived: 1,
        number: 1,
        answer: false,
        to: None,
    };
    *outgoing == first && is_what_leaves(bytes.as_slice()) && world.sent(1).is_empty()
}

/// Whether both packets are in these places.
fn are_at(world: &World, first: Place, second: Place) -> bool {
    world.place(1, 1) == Some(first) && world.place(1, 2) == Some(second)
}

#[test]
fn steps_in_turn(rt: HostRuntime) {
    let mut world = pipeline(rt.alloc(), Bands::Two, LEAVES, EXPIRED).expect(&rt, "memory");
    let turns = [
        TO_ITS_PROCESSOR.as_slice(),
        SENT.as_slice(),
        ANSWERED.as_slice(),
        CLOSED.as_slice(),
        NOT_THERE.as_slice(),
    ];
    for acts in turns {
        assert!(&rt; are_made(&mut world, rt.alloc(), acts));
    }
    assert!(&rt; is_first_sent(&world));
    assert!(&rt; are_at(&world, Place::Sent, Place::Dropped(Cause::SendFailed)));
    drop(world);
}

#[test]
fn dropped_on_arrival(rt: HostRuntime) {
    let cut = (IN_TIME, &FIRST[..11]);
    let mut world = pipeline(rt.alloc(), Bands::One, cut, LEAVES).expect(&rt, "memory");
    assert!(&rt; are_made(&mut world, rt.alloc(), &DROPPED));
    assert!(&rt;
        are_at(
            &world,
            Place::Dropped(Cause::Short),
            Place::Dropped(Cause::NoBuffer)
        )
    );
    drop(world);
}

#[test]
fn dropped_later(rt: HostRuntime) {
    let mut world = pipeline(rt.alloc(), Bands::One, LEAVES, LEAVES).expect(&rt, "memory");
    assert!(&rt; are_made(&mut world, rt.alloc(), &REFUSED));
    assert!(&rt; are_made(&mut world, rt.alloc(), &WITHOUT_MEMORY));
    assert!(&rt;
        are_at(
            &world,
            Place::Dropped(Cause::NoMemory),
            Place::Dropped(Cause::ProcessorFull)
        )
    );
    drop(world);
}
