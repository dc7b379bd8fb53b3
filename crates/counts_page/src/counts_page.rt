//! The page.

ghost use Rattle.std.specs.Prelude.{◌≡◌, ◌+◌, ◌-◌, ◌<◌, ◌≤◌, ℕ, List, IfOk, length, map};
ghost use Rattle.std.specs.Arc.{arc_value};
ghost use Rattle.counts_page.specs.CountsPage.{AreCounts, IsCountOf};

use crate::closings::Closings;
use metrics_server::Page;
use metrics_text::{LinkCounts, push_metrics};
use packet_ledger::{Book, Look, RunBrand};
use std::alloc::{AllocError, Global};
use std::marker::Model;
use std::sync::{Arc, Wait};

/// The counts of a running router, of whose shares the first are those of the receivers and the
/// last those of the forwarders, in ascending order of the interfaces. Contracts see what it shows:
/// of the links, and the look that they are from; the version; and since when the router runs, in
/// seconds since 1970.
#[derive(Drop)]
pub struct CountsPage<N: RunBrand, R: Wait + Drop> {
    rt: R,
    book: Arc<Book<N>, Global>,
    look: Look<N>,
    closings: Arc<Closings, Global>,
    links: Vec<LinkCounts>,
    version: &'static str,
    start: u64,
}

impl<N: RunBrand, R: Wait + Drop> Model for CountsPage<N, R> {
    ghost use Rattle.std.specs.Prelude.{◌≤◌, length};
    ghost use Rattle.counts_page.specs.CountsPage.{Shown as Seen};

    ghost Value = { Seen };

    ghost view = { λ p. record { links = p.links.items; look = p.look; version = p.version.now; start = p.start } };

    ghost invariant = { λ p. length p.links.items ≤ N.workers };
}

// What is counted for the link of an interface, at this place among so many.
fn counts_at<N: RunBrand>(
    look: &Look<N>,
    closings: &Closings,
    interface: u16,
    place: usize,
    count: usize,
) -> LinkCounts
    requires { (place < count) × (count ≤ N.workers) }
    ensures { IsCountOf look.now interface place count result }
{
    let inputs = look.inputs();
    let outputs = look.outputs();
    LinkCounts {
        interface,
        input: inputs[place],
        output: outputs[outputs.len() - count + place],
        closed: closings.is_closed(place),
    }
}

// The counts of the links that a look shows, in place of those before.
fn tally<N: RunBrand>(links: &mut [LinkCounts], look: &Look<N>, closings: &Closings)
    requires { length links.old ≤ N.workers }
    ensures { AreCounts look.now links.old links.new }
{
    let count = links.len();
    for place in 0..count {
        links[place] = counts_at(look, closings, links[place].interface, place, count);
    }
}

impl<N: RunBrand, R: Wait + Drop> CountsPage<N, R> {
    /// The page of a book, for links with these interfaces, of which there are no more than shares,
    /// and for closings of the same links. At `Err` no memory was left.
    pub fn new(
        rt: R,
        alloc: Global,
        book: Arc<Book<N>, Global>,
        interfaces: &[u16],
        closings: Arc<Closings, Global>,
        version: &'static str,
        start: u64,
    ) -> Result<CountsPage<N, R>, AllocError>
        requires shares { length interfaces.now ≤ N.workers }
        requires closings { arc_value closings ≡ interfaces.now }
        ensures { IfOk result (λ p. (map (λ l. l.interface) p.links ≡ interfaces.now) × (p.version ≡ version.now) × (p.start ≡ start)) }
    {
        let look = book.watch(&rt, alloc)?;
        let mut links = Vec::with_capacity(alloc, interfaces.len())?;
        for interface in interfaces {
            links.push(LinkCounts {
                interface: *interface,
                input: 0,
                output: 0,
                closed: false,
            })?;
        }
        Ok(CountsPage {
            rt,
            book,
            look,
            closings,
            links,
            version,
            start,
        })
    }

    /// The look that it showed last.
    pub fn into_look(self) -> Look<N>
        ensures { result ≡ self.look }
    {
        let CountsPage {
            rt: _,
            book: _,
            look,
            closings: _,
            links: _,
            version: _,
            start: _,
        } = self;
        look
    }
}

impl<N: RunBrand, R: Wait + Drop> Page for CountsPage<N, R> {
    ghost use Rattle.counts_page.specs.CountsPage.{Shows};
    ghost use Rattle.counts_page.specs.Becoming.{Becomes, becomes_self, becomes_then};

    ghost shows = { λ old page new. Shows old page new };

    ghost becomes = { λ old new. Becomes old new };

    ghost becomes_self = { λ x. becomes_self x };

    ghost becomes_then = { λ x y z p q. becomes_then x y z p q };

    fn push(&mut self, text: &mut Vec<u8>) -> Result<(), AllocError> {
        self.book.look(&self.rt, &mut self.look);
        tally(self.links.as_mut_slice(), &self.look, &self.closings);
        push_metrics(
            text,
            self.links.as_slice(),
            self.look.totals(),
            self.version,
            self.start,
        )
    }
}
