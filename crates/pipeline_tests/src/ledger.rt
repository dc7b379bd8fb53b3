//! Counts of several threads, added up.

ghost use Rattle.std.specs.Prelude.{◌≡◌, ◌*◌, ◌≤◌};

use packet_ledger::{Blank, Book, Look, RunBrand, Share};
use process_packet::{CAUSES, Cause, Totals};
use std::alloc::Global;
use std::marker::Brand;
use std::process::Abort;
use std::sync::{Arc, Wait};
use std::test::*;
use std::thread;
use std::thread::Threads;

const NOTHING: Totals = Totals {
    received: 0,
    sent: 0,
    answered: 0,
    dropped: [0; CAUSES],
};

// One share counts three as received and is posted, the other two drops and is not. What the first
// counts after its post, and the totals.
fn two_shares<N: RunBrand, R: Abort + Wait>(rt: &R, alloc: Global, blank: Blank) -> (Totals, Totals)
    requires name { blank.table ≡ N.table }
    requires two { N.workers ≡ 2 }
{
    let (book, mut shares) = Book::<N>::new(alloc, blank, 2).expect(rt, "memory");
    let mut first = shares.pop().expect(rt, "share");
    let mut second = shares.pop().expect(rt, "share");
    receive(&mut first, 3);
    drop_one(&mut second, Cause::ProcessorFull);
    drop_one(&mut second, Cause::ProcessorFull);
    book.post(rt, &mut first);
    let left = *first.counts();
    shares.push(first).expect(rt, "memory");
    shares.push(second).expect(rt, "memory");
    (left, book.close(rt, shares))
}

// Counts a number of datagrams as received, where there is room.
fn receive<N: RunBrand>(share: &mut Share<N>, n: u32) {
    for _ in 0..n {
        if share.has_room() {
            share.received(1);
        }
    }
}

fn drop_one<N: RunBrand>(share: &mut Share<N>, cause: Cause) {
    if share.has_room() {
        share.fate(cause);
    }
}

#[test]
fn two_shares_closed(rt: HostRuntime) {
    let blank = Blank::new(rt.alloc()).expect(&rt, "memory");
    let (left, totals) = two_shares::<Brand, _>(&rt, rt.alloc(), blank);
    assert!(rt; left == NOTHING);
    let mut wanted = NOTHING;
    wanted.received = 3;
    wanted.dropped[11] = 2;
    assert!(rt; totals == wanted);
}

// Counts one of five kinds, where there is room.
fn count_one<N: RunBrand>(share: &mut Share<N>, kind: u32) {
    if !share.has_room() {
        return;
    }
    match kind {
        0 => share.received(1),
        1 => share.sent(),
        2 => share.answered(),
        3 => drop_one(share, Cause::Short),
        _ => drop_one(share, Cause::NoBuffer),
    }
}

// A share counts in turn, and is posted now and then.
fn work<N: RunBrand, R: Wait>(
    rt: &R,
    book: &Book<N>,
    mut share: Share<N>,
    rounds: u32,
) -> Share<N> {
    for i in 0..rounds {
        count_one(&mut share, i % 5);
        if i % 64 == 0 {
            book.post(rt, &mut share);
        }
    }
    share
}

// What two threads count and post beside each other: the totals, and what the shares say they forwarded.
fn two_threads<N, R>(rt: R, alloc: Global, blank: Blank) -> (Totals, u128, u128)
where
    N: RunBrand + Send + Sync + 'static,
    R: Abort + Threads + Wait + Copy + Send + 'static,
    requires name { blank.table ≡ N.table }
    requires two { N.workers ≡ 2 }
{
    let (book, mut shares) = Book::<N>::new(alloc, blank, 2).expect(&rt, "memory");
    let first = shares.pop().expect(&rt, "share");
    let second = shares.pop().expect(&rt, "share");
    let book = Arc::new(alloc, book).expect(&rt, "memory");
    let theirs = Arc::try_clone(&book).expect(&rt, "memory");
    let child = thread::spawn(&rt, move || work(&rt, &*theirs, first, 4000)).expect(&rt, "thread");
    let second = work(&rt, &*book, second, 800);
    let first = child.join(&rt);
    let forwarded = (first.forwarded(), second.forwarded());
    shares.push(first).expect(&rt, "memory");
    shares.push(second).expect(&rt, "memory");
    (book.close(&rt, shares), forwarded.0, forwarded.1)
}

#[test]
fn two_threads_closed(rt: HostRuntime) {
    let blank = Blank::new(rt.alloc()).expect(&rt, "memory");
    let (totals, first, second) = two_threads::<Brand, _>(rt, rt.alloc(), blank);
    let mut wanted = NOTHING;
    wanted.received = 960;
    wanted.sent = 960;
    wanted.answered = 960;
    wanted.dropped[0] = 960;
    wanted.dropped[17] = 960;
    assert!(rt; totals == wanted);
    assert!(rt; first == 1600 && second == 320);
}

// A posted share says what it posted, and goes on from nothing.
fn post_twice<N: RunBrand, R: Abort + Wait>(rt: &R, alloc: Global, blank: Blank) -> (Totals, Totals)
    requires name { blank.table ≡ N.table }
    requires one { N.workers ≡ 1 }
{
    let (book, mut shares) = Book::<N>::new(alloc, blank, 1).expect(rt, "memory");
    let mut share = shares.pop().expect(rt, "share");
    receive(&mut share, 5);
    book.post(rt, &mut share);
    receive(&mut share, 2);
    book.post(rt, &mut share);
    receive(&mut share, 1);
    let posted = *share.posted();
    shares.push(share).expect(rt, "memory");
    (posted, book.close(rt, shares))
}

#[test]
fn posted_twice(rt: HostRuntime) {
    let blank = Blank::new(rt.alloc()).expect(&rt, "memory");
    let (posted, totals) = post_twice::<Brand, _>(&rt, rt.alloc(), blank);
    assert!(rt; posted.received == 7);
    assert!(rt; totals.received == 8);
}

// The totals of a book with no share.
fn no_share<N: RunBrand, R: Abort + Wait>(rt: &R, alloc: Global, blank: Blank) -> Totals
    requires name { blank.table ≡ N.table }
    requires none { N.workers ≡ 0 }
{
    let (book, shares) = Book::<N>::new(alloc, blank, 0).expect(rt, "memory");
    book.close(rt, shares)
}

#[test]
fn nobody_counts(rt: HostRuntime) {
    let blank = Blank::new(rt.alloc()).expect(&rt, "memory");
    assert!(rt; no_share::<Brand, _>(&rt, rt.alloc(), blank) == NOTHING);
}

// Whether a look shows these sums, and these rows of the shares.
fn shows<N: RunBrand>(look: &Look<N>, totals: Totals, inputs: &[u128], outputs: &[u128]) -> bool {
    *look.totals() == totals && look.inputs() == inputs && look.outputs() == outputs
}

// Whether looks at a book of two shares show none of what isn't posted, each share's own row, and at the end all that
// was posted; and the totals.
fn looks<N: RunBrand, R: Abort + Wait>(rt: &R, alloc: Global, blank: Blank) -> (bool, Totals)
    requires name { blank.table ≡ N.table }
    requires two { N.workers ≡ 2 }
{
    let (book, mut shares) = Book::<N>::new(alloc, blank, 2).expect(rt, "memory");
    let mut second = shares.pop().expect(rt, "share");
    let mut first = shares.pop().expect(rt, "share");
    let mut early = book.watch(rt, alloc).expect(rt, "memory");
    receive(&mut first, 3);
    count_one(&mut second, 1);
    count_one(&mut second, 2);
    book.post(rt, &mut first);
    book.look(rt, &mut early);
    book.post(rt, &mut second);
    drop_one(&mut second, Cause::LinkFull);
    let mut late = book.watch(rt, alloc).expect(rt, "memory");
    shares.push(first).expect(rt, "memory");
    shares.push(second).expect(rt, "memory");
    let totals = book.close_after(rt, shares, &mut late);
    let mut wanted = NOTHING;
    wanted.received = 3;
    let is_early = shows(&early, wanted, &[3, 0], &[0, 0]);
    wanted.sent = 1;
    wanted.answered = 1;
    let is_late = shows(&late, wanted, &[3, 0], &[0, 2]);
    (is_early && is_late, totals)
}

#[test]
fn looks_show_what_was_posted(rt: HostRuntime) {
    let blank = Blank::new(rt.alloc()).expect(&rt, "memory");
    let (are_right, totals) = looks::<Brand, _>(&rt, rt.alloc(), blank);
    assert!(rt; are_right);
    let mut wanted = NOTHING;
    wanted.received = 3;
    wanted.sent = 1;
    wanted.answered = 1;
    wanted.dropped[12] = 1;
    assert!(rt; totals == wanted);
}
