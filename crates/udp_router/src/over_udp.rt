//! A router that runs over its sockets, as the one who runs it sees it.

ghost use Rattle.std.specs.Prelude.{◌≡◌};
ghost use Rattle.udp_router.specs.OverUdp.{result_of};

use crate::showing::Showing;
use cli_run::{Closing, Control, Figures};
use packet_ledger::Look;
use router_rules::Worker;
use router_run::{CloseFault, Report, Running};
use std::marker::Model;
use std::rt::Clock;
use std::sync::Wait;
use std::thread::Threads;
use udp_devices::{UdpSink, UdpSource};
use worker_parts::{Gate, RunBrand};

/// Holds no packet back.
#[derive(Drop)]
pub(crate) struct Open;

impl Model for Open {
    ghost use Rattle.std.specs.Prelude.{⊤};

    ghost Value = { ⊤ };

    ghost view = { λ gate. tt };
}

impl Gate for Open {
    ghost use Rattle.std.specs.Prelude.{◌≡◌, true};

    ghost answers = { λ gate worker link number admitted. admitted ≡ true };

    fn admits(&self, _worker: Worker, _link: u16, _number: u64) -> bool {
        true
    }
}

/// A router that runs over its sockets, and may show its counts. It can only be finished. Contracts
/// see the running router.
pub(crate) struct OverUdp<N, R>
where
    N: RunBrand,
    R: Wait + Clock + Copy + Drop,
{
    rt: R,
    running: Running<N, UdpSource<R>, UdpSink, Open, R>,
    showing: Option<Showing<N, R>>,
}

impl<N, R> Model for OverUdp<N, R>
where
    N: RunBrand,
    R: Wait + Clock + Copy + Drop,
{
    ghost use Rattle.udp_router.specs.OverUdp.{Router as Seen};

    ghost Value = { Seen };

    ghost view = { λ router. router.running };
}

impl<N, R> OverUdp<N, R>
where
    N: RunBrand,
    R: Wait + Clock + Copy + Drop,
{
    pub(crate) fn of(
        rt: R,
        running: Running<N, UdpSource<R>, UdpSink, Open, R>,
        showing: Option<Showing<N, R>>,
    ) -> OverUdp<N, R>
        ensures { result ≡ running }
    {
        OverUdp {
            rt,
            running,
            showing,
        }
    }
}

/// What became of a link that was to be closed.
fn closing_of(closed: Result<(), CloseFault>) -> Closing
    ensures { result_of result ≡ closed }
{
    match closed {
        Ok(()) => Closing::Closed,
        Err(CloseFault::Full) => Closing::Full,
        Err(CloseFault::Unknown) => Closing::Unknown,
        Err(CloseFault::AlreadyClosed) => Closing::Already,
    }
}

// Shows that a link was closed, where it was.
fn note<N: RunBrand, R: Wait + Drop>(showing: &Option<Showing<N, R>>, link: u16, closing: Closing) {
    if let (Some(showing), Closing::Closed) = (showing, closing) {
        showing.close(link);
    }
}

// What was shown last, once nothing is shown any more.
fn ended<N: RunBrand, R: Threads + Wait + Drop>(
    rt: &R,
    showing: Option<Showing<N, R>>,
) -> Option<Look<N>> {
    match showing {
        Some(showing) => Some(showing.end(rt)),
        None => None,
    }
}

impl<N, R> Control for OverUdp<N, R>
where
    N: RunBrand,
    R: Threads + Wait + Clock + Copy + Drop,
{
    ghost use Rattle.udp_router.specs.OverUdp.{Closes, Tells};

    ghost closes = { Closes };

    ghost tells = { Tells };

    fn close_link(&mut self, link: u16) -> Closing {
        let closing = closing_of(self.running.close_link(link));
        note(&self.showing, link, closing);
        closing
    }

    fn finish(self) -> Figures {
        let OverUdp {
            rt,
            running,
            showing,
        } = self;
        let look = ended(&rt, showing);
        let Report { totals, sent, .. } = running.finish(look);
        Figures { sent, totals }
    }
}
