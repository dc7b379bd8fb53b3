//! When a thread posts, waits and naps.

use crate::idle::Idle;
use std::sync::Wait;
use std::time::{Clock, Instant};
use worker_parts::Event;

// How many turns that did something lie between two posts.
const TURNS_PER_POST: u32 = 1023;

// After this many turns in a row that did something, a thread naps once before it sleeps.
const NAP_AFTER: u32 = 2;

// How many sleeps lie between two after which the clock is read.
const SLEEPS_PER_LOOK: u32 = 7;

// Where no more microseconds passed between two looks at the clock, sleeps cost more than they save: pushes come faster
// than a sleep and a wake-up for each can keep up with. Where the one who pushes shares a processor with the one who is
// woken, they can go on so for ever, one packet at a time. So many of the next pauses after a single item are naps then.
const BRIEF: u128 = 120;

const NAPS_AFTER_BRIEF: u32 = 63;

// Where just one turn did something between two waits, packets come one by one, and a further turn would
// find nothing: so many of the next turns that do something are each followed by a wait at once.
const WAITS_AFTER_SINGLE: u32 = 15;

// How a thread has worked of late, and waited.
#[derive(Drop)]
pub(crate) struct Pace {
    idle: Idle,
    turns: u32,
    // Turns that did something since it last waited, up to the number at which a thread gathers.
    items: u32,
    // How many such turns more are each followed by a wait at once.
    alone: u32,
    // Sleeps since the last look at the clock, and what that showed.
    sleeps: u32,
    since: Option<Instant>,
    // How many more pauses after a single item are naps.
    naps: u32,
}

// Whether so little time has passed since a moment; not where the clock can't be read.
fn is_brief<R: Clock>(rt: &R, since: Option<Instant>) -> bool {
    let Some(since) = since else {
        return false;
    };
    match since.elapsed(rt) {
        Ok(time) => time.as_micros() <= BRIEF,
        Err(_) => false,
    }
}

impl Pace {
    pub(crate) fn new() -> Pace {
        Pace {
            idle: Idle::new(),
            turns: 0,
            items: 0,
            alone: 0,
            sleeps: 0,
            since: None,
            naps: 0,
        }
    }

    // There was something to do. Whether it is time to post.
    pub(crate) fn did(&mut self) -> bool {
        self.idle.reset();
        if self.items < NAP_AFTER {
            self.items += 1;
        }
        if self.turns < TURNS_PER_POST {
            self.turns += 1;
            return false;
        }
        self.turns = 0;
        true
    }

    // Whether more is likely to come soon, so that a nap in which items gather costs less than a sleep for each: there was
    // much to do since it last waited, or something, and sleeps were brief of late.
    pub(crate) fn gathers(&mut self) -> bool {
        let single = self.items == 1;
        let several = self.items >= NAP_AFTER;
        self.items = 0;
        self.alone = if single { WAITS_AFTER_SINGLE } else { 0 };
        if single && self.naps > 0 {
            self.naps -= 1;
            return true;
        }
        several
    }

    // Whether a wait is to follow at once.
    pub(crate) fn waits_at_once(&mut self) -> bool {
        if self.alone == 0 {
            return false;
        }
        self.alone -= 1;
        self.items = 0;
        true
    }

    // Sleeps until there is a push.
    pub(crate) fn sleep<R: Wait + Clock>(&mut self, rt: &R, event: &Event) {
        event.sleep(rt);
        if self.sleeps < SLEEPS_PER_LOOK {
            self.sleeps += 1;
            return;
        }
        self.sleeps = 0;
        if is_brief(rt, self.since) {
            self.naps = NAPS_AFTER_BRIEF;
        }
        self.since = Instant::now(rt).ok();
    }

    // There was nothing to do, and nothing to sleep on.
    pub(crate) fn rest<R: Clock>(&mut self, rt: &R) {
        self.idle.rest(rt);
    }
}
