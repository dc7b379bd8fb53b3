//! All that a run takes memory for, before its first thread.

ghost use Rattle.std.specs.Prelude.{◌≡◌, ◌+◌, ◌*◌, ◌≤◌, IfOk, Some};
ghost use Rattle.std.specs.Arc.{arc_value};
ghost use Rattle.router_rules.specs.Links.{link_count};
ghost use Rattle.run_workers.specs.Shares.{AreNewShares};
ghost use Rattle.router_run.specs.Prepared.{IsPrepared};

use crate::bare_workers::{BareWorkers, make_all};
use crate::teams::{Teams, teams_for};
use packet_ledger::{Blank, Book, Share};
use process_packet::Config;
use router_rules::{Shared, link_count};
use run_pipes::events_for;
use run_report::{Space, space_for};
use run_workers::Common;
use std::alloc::{AllocError, Global};
use std::sync::atomic::AtomicU64;
use std::sync::{Arc, Wait};
use worker_parts::{Gate, RunBrand, Signal, Stage, all_three};
use worker_threads::ThreadControl;

/// What a run stands on: what its workers share, and the control of their threads, with the book.
#[derive(Drop)]
pub struct Base<N: RunBrand> {
    pub common: Common,
    pub control: ThreadControl<Book<N>>,
}

fn book_for<N: RunBrand>(
    alloc: Global,
    blank: Blank,
    links: usize,
    processors: usize,
) -> Result<(Book<N>, Vec<Share<N>>), AllocError>
    requires name { blank.table ≡ N.table }
    requires few { (links ≤ 33) × (processors ≤ 16) }
    requires workers { N.workers ≡ 2 * links + processors + 1 }
    ensures { IfOk result (λ r. AreNewShares 0 (2 * links + processors + 1) r.1.items) }
{
    let made = Book::new(alloc, blank, 2 * links + processors + 1)?;
    Ok(made)
}

// The control that the threads hold at, and the shares of the book.
fn orders_for<N: RunBrand>(
    alloc: Global,
    blank: Blank,
    links: usize,
    processors: usize,
) -> Result<(ThreadControl<Book<N>>, Vec<Share<N>>), AllocError>
    requires name { blank.table ≡ N.table }
    requires few { (links ≤ 33) × (processors ≤ 16) }
    requires workers { N.workers ≡ 2 * links + processors + 1 }
    ensures { IfOk result (λ r. AreNewShares 0 (2 * links + processors + 1) r.1.items) }
{
    let word = Arc::new(alloc, AtomicU64::new(Signal::Hold.word()))?;
    let (book, shares) = book_for(alloc, blank, links, processors)?;
    let book = Arc::new(alloc, book)?;
    Ok((ThreadControl::new(word, book), shares))
}

// What all workers share, over the word of their control.
fn common_for(
    alloc: Global,
    config: Config,
    word: &Arc<AtomicU64, Global>,
    links: usize,
    processors: usize,
) -> Result<Common, AllocError>
    ensures { IfOk result (λ c. (arc_value c.shared).config ≡ config) }
{
    let shared = Arc::new(alloc, Shared::new(config))?;
    let stop = Arc::try_clone(word)?;
    let events = events_for(alloc, links, processors)?;
    Ok(Common {
        shared,
        stop,
        events,
    })
}

fn base_for<N: RunBrand>(
    alloc: Global,
    blank: Blank,
    config: Config,
    links: usize,
) -> Result<(Base<N>, Vec<Share<N>>), AllocError>
    requires name { blank.table ≡ N.table }
    requires links { links ≡ link_count config }
    requires few { links ≤ 33 }
    requires workers { N.workers ≡ 2 * link_count config + config.processors + 1 }
    ensures shared { IfOk result (λ b. (arc_value b.0.common.shared).config ≡ config) }
    ensures shares { IfOk result (λ b. AreNewShares 0 (2 * link_count config + config.processors + 1) b.1.items) }
{
    let processors = usize::from(config.processors);
    let (control, shares) = orders_for(alloc, blank, links, processors)?;
    let common = common_for(alloc, config, &control.word, links, processors)?;
    Ok((Base { common, control }, shares))
}

/// All that is ready, for teams of workers of any three kinds over sources `S` and sinks `K`.
#[derive(Drop)]
pub struct Prepared<N, G, V, W, X, S, K>
where
    N: RunBrand,
    G: Gate,
    V: Stage,
    W: Stage,
    X: Stage,
{
    pub base: Base<N>,
    pub bare_workers: BareWorkers<N, G>,
    pub teams: Teams<Book<N>, V, W, X>,
    pub space: Space<N, S, K>,
}

/// It is given no device, so that each stays with the caller where memory runs out.
pub fn prepare<N, G, V, W, X, S, K, R>(
    rt: &R,
    alloc: Global,
    blank: Blank,
    config: Config,
    gate: G,
) -> Result<Prepared<N, G, V, W, X, S, K>, AllocError>
where
    N: RunBrand,
    G: Gate + Drop,
    V: Stage + Drop,
    W: Stage + Drop,
    X: Stage + Drop,
    S: Drop,
    K: Drop,
    R: Wait,
    requires name { blank.table ≡ N.table }
    requires config { N.config ≡ Some config }
    requires workers { N.workers ≡ 2 * link_count config + config.processors + 1 }
    ensures shared { IfOk result (λ p. (arc_value p.base.common.shared).config ≡ config) }
    ensures prepared { IfOk result (λ p. IsPrepared config p.bare_workers p.teams.receivers p.teams.processors p.teams.forwarders p.space) }
{
    let links = link_count(&config);
    let processors = usize::from(config.processors);
    let (base, shares) = base_for(alloc, blank, config, links)?;
    let bare_workers = make_all(rt, alloc, &base.common, gate, shares);
    let events = &base.common.events;
    let teams = teams_for(alloc, &base.control, events, links, processors);
    let space = space_for(alloc, links, processors);
    let (bare_workers, teams, space) = all_three(bare_workers, teams, space)?;
    Ok(Prepared {
        base,
        bare_workers,
        teams,
        space,
    })
}
