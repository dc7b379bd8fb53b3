//! What a router runs over in a test.

use crate::cues::{Cue, Order, Words};
use crate::gate::{Rule, RuledGate};
use crate::routers::{Routed, router};
use crate::sink::{PlannedSink, Taking};
use crate::source::{ENDED, Plan, PlannedSource};
use process_packet::Config;
use std::alloc::{AllocError, Global};
use std::sync::Arc;
use worker_parts::both;

/// A source for each link, and a sink for each link.
#[derive(Drop)]
pub struct Devices {
    pub sources: Vec<PlannedSource>,
    pub sinks: Vec<PlannedSink>,
}

/// What the controller does between start and end.
#[derive(Drop)]
pub struct Lead {
    pub words: Arc<Words, Global>,
    pub orders: &'static [Order],
}

/// When the gate admits, and what the controller does between start and end.
#[derive(Clone, Copy)]
pub struct Course {
    pub rule: Rule,
    pub orders: &'static [Order],
}

/// An open gate, and no orders.
pub const OPEN: Course = Course {
    rule: Rule::Open,
    orders: &[],
};

/// A router, what it runs over, and what is done meanwhile.
#[derive(Drop)]
pub struct Setup {
    pub config: Config,
    pub devices: Devices,
    pub gate: RuledGate,
    pub lead: Lead,
}

// A source for each link, of which link 1's has a plan of its own.
fn sources(
    words: &Arc<Words, Global>,
    links: usize,
    plans: (Plan, Plan),
) -> Result<Vec<PlannedSource>, AllocError> {
    let mut sources = Vec::new(words.alloc());
    for link in 0..links {
        let plan = if link == 1 { plans.0 } else { plans.1 };
        sources.push(PlannedSource::new(words, plan)?)?;
    }
    Ok(sources)
}

/// A sink for each link.
pub fn sinks(
    words: &Arc<Words, Global>,
    links: usize,
    taking: Taking,
) -> Result<Vec<PlannedSink>, AllocError> {
    let mut sinks = Vec::new(words.alloc());
    for _ in 0..links {
        sinks.push(PlannedSink::new(words, taking)?)?;
    }
    Ok(sinks)
}

impl Devices {
    /// So many sources and so many sinks. Link 1's source has a plan of its own.
    pub fn new(
        words: &Arc<Words, Global>,
        counts: (usize, usize),
        plans: (Plan, Plan),
        taking: Taking,
    ) -> Option<Devices> {
        let sources = sources(words, counts.0, plans);
        let (sources, sinks) = both(sources, sinks(words, counts.1, taking)).ok()?;
        Some(Devices { sources, sinks })
    }
}

// Each is none where there is no memory for it.
impl Setup {
    /// This router over these devices.
    pub fn over(
        words: &Arc<Words, Global>,
        config: Option<Config>,
        devices: Option<Devices>,
        course: Course,
    ) -> Option<Setup> {
        let devices = devices?;
        let config = config?;
        let (gate, lead) = both(Arc::try_clone(words), Arc::try_clone(words)).ok()?;
        Some(Setup {
            config,
            devices,
            gate: RuledGate {
                words: gate,
                rule: course.rule,
            },
            lead: Lead {
                words: lead,
                orders: course.orders,
            },
        })
    }

    /// A router over devices for four links. Link 1's source has a plan of its own.
    pub fn of_four(
        rt: HostRuntime,
        routed: Routed,
        plans: (Plan, Plan),
        taking: Taking,
        course: Course,
    ) -> Option<Setup> {
        let words = Words::new(rt).ok()?;
        let devices = Devices::new(&words, (4, 4), plans, taking);
        Setup::over(&words, router(rt.alloc(), routed), devices, course)
    }

    /// Link 1 gives what its plan says, and the sinks keep what they are handed.
    pub fn of(rt: HostRuntime, routed: Routed, plan: Plan) -> Option<Setup> {
        Setup::of_four(rt, routed, (plan, ENDED), Taking::Keeps(0), OPEN)
    }

    /// Link 1 gives packets for link 2 at these cues, and link 2's sink holds the first one.
    pub fn cued(
        rt: HostRuntime,
        routed: Routed,
        cues: &'static [Cue],
        orders: &'static [Order],
    ) -> Option<Setup> {
        let plans = (Plan::Cued(cues), Plan::Cued(&[]));
        let rule = Rule::Cued(cues);
        Setup::of_four(rt, routed, plans, Taking::Holds, Course { rule, orders })
    }
}
