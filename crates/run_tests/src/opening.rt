//! New pipes, of which no end is made yet.

use run_ends::{NewPipes, new_pipes};
use std::alloc::Global;
use std::process::Abort;
use std::test::*;

// How many pipes and how many consumers there are of three pipes for two workers.
fn sizes<R: Abort>(rt: &R, alloc: Global) -> [usize; 2] {
    let NewPipes { pipes, takers } = new_pipes::<u32>(alloc, 3, 4, 2).expect(rt, "memory");
    [pipes.len(), takers.len()]
}

#[test]
fn each_new_pipe_has_its_consumer(rt: HostRuntime) {
    assert!(rt; sizes(&rt, rt.alloc()) == [3, 3]);
}
