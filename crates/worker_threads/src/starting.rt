//! Threads for the workers of a team.

ghost use Rattle.std.specs.Prelude.{◌≡◌, ◌+◌, ◌++◌, ◌<◌, ◌≤◌, length, map, reverse, true, vec_capacity};

use crate::thread::{Handle, start_worker};
use crate::thread_control::ThreadControl;
use std::marker::Model;
use std::sync::Wait;
use std::thread::Threads;
use std::time::Clock;
use worker_parts::{Stage, Turns};

/// Workers of one kind, control for the thread of each, in order, and room for the threads' handles, of which
/// none is there. Contracts see the workers, and for how many of them and of their handles there is room.
#[derive(Drop)]
pub struct Team<B, W: Stage> {
    pub workers: Vec<W>,
    pub control: Vec<ThreadControl<B>>,
    pub room: Vec<Handle<W>>,
}

impl<B, W: Stage> Model for Team<B, W> {
    ghost use Rattle.std.specs.Prelude.{◌≡◌, ◌≤◌, [], length, vec_capacity};
    ghost use Rattle.worker_threads.specs.Teams.{Seated};

    ghost Value = { Seated W };

    ghost view = { λ t. record { workers = t.workers.items; seats = vec_capacity t.workers; handles = vec_capacity t.room } };

    ghost invariant = { λ t. (t.room.items ≡ []) × (length t.workers.items ≤ vec_capacity t.room) };
}

/// Workers of one kind in threads of their own, and their list, which is empty now: the room that they come
/// back into. It has no `Drop`: its threads can only be joined, or told to give up. Contracts see the workers as they
/// were when their threads were made.
pub struct Started<W: Stage> {
    pub(crate) handles: Vec<Handle<W>>,
    pub(crate) room: Vec<W>,
}

impl<W: Stage> Model for Started<W> {
    ghost use Rattle.std.specs.Prelude.{◌≡◌, ◌≤◌, List, [], length, map, vec_capacity};

    ghost Value = { List W };

    ghost view = { λ s. map (λ h. h.promise.0.value) s.handles.items };

    ghost invariant = { λ s. (s.room.items ≡ []) × (length s.handles.items ≤ vec_capacity s.room) };
}

// A thread for the next worker, the last of these, where all before it have one. Whether it has one too.
fn start_next<B, W, R>(
    rt: R,
    so_far: bool,
    workers: &mut Vec<W>,
    control: &mut Vec<ThreadControl<B>>,
    handles: &mut Vec<Handle<W>>,
) -> bool
where
    B: Drop + Send + Sync + 'static,
    W: Turns<B> + Send + Drop + 'static,
    R: Threads + Wait + Clock + Copy + Send + 'static,
    requires some { so_far ≡ true → 0 < length workers.old.items }
    requires room { so_far ≡ true → length handles.old.items < vec_capacity handles.old }
    ensures so_far { result ≡ true → so_far ≡ true }
    ensures one { result ≡ true → length workers.old.items ≡ length workers.new.items + 1 }
    ensures same { result ≡ true → map (λ h. h.promise.0.value) handles.new.items ++ reverse workers.new.items ≡ map (λ h. h.promise.0.value) handles.old.items ++ reverse workers.old.items }
    ensures fewer { length handles.new.items + length workers.new.items ≤ length handles.old.items + length workers.old.items }
    ensures room { (vec_capacity workers.new ≡ vec_capacity workers.old) × (vec_capacity handles.new ≡ vec_capacity handles.old) }
{
    if !so_far {
        return false;
    }
    let Some(own) = control.pop() else {
        return false;
    };
    let Some(worker) = workers.pop() else {
        return false;
    };
    match start_worker(rt, own, worker) {
        Some(handle) => {
            handles.push_reserved(handle);
            true
        }
        None => false,
    }
}

/// A thread of its own for each worker of a team, which holds until it is told to run: where all teams before it have
/// theirs, as many as can be made. Whether all are there, those before them too. Workers without a thread are gone. It
/// takes no memory.
pub fn start_each<B, W, R>(rt: R, team: Team<B, W>, so_far: bool) -> (Started<W>, bool)
where
    B: Drop + Send + Sync + 'static,
    W: Turns<B> + Send + Drop + 'static,
    R: Threads + Wait + Clock + Copy + Send + 'static,
    ensures { result.1 ≡ true → (so_far ≡ true) × (result.0 ≡ team.workers) }
{
    let Team {
        mut workers,
        mut control,
        room: mut handles,
    } = team;
    let count = workers.len();
    workers.reverse();
    control.reverse();
    let mut are_all = so_far;
    for k in 0..count {
        are_all = start_next(rt, are_all, &mut workers, &mut control, &mut handles);
    }
    workers.clear();
    let started = Started {
        handles,
        room: workers,
    };
    (started, are_all)
}

/// Tells all threads under these control to give up, and joins those of a team.
pub fn give_up<B, W, R>(rt: &R, control: &ThreadControl<B>, started: Started<W>)
where
    W: Stage + Drop,
    R: Threads + Wait,
{
    let Started { handles, room: _ } = started;
    control.give_up();
    for handle in handles {
        let _ = handle.join(rt);
    }
}
