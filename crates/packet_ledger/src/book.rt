//! The book.

ghost use Rattle.std.specs.Prelude.{◌≡◌, ◌≤◌, ℕ, IfOk, length};
ghost use Rattle.crossbeam_utils.specs.Seq.{cell_view};
ghost use Rattle.packet_ledger.specs.Amounts.{count_at, nothing, plus};
ghost use Rattle.packet_ledger.specs.Shown.{AddUp, HasGrown};
ghost use Rattle.packet_ledger.specs.Share.{AreNew, AreTheirRows, AreWithinTheirs, IsPosted, counts_of, posted_by};

use crate::look::Look;
use crate::run_brand::RunBrand;
use crate::share::Share;
use crate::sums::{Sums, split_shares};
use crate::tokens::{Cell, Token};
use process_packet::Totals;
use std::alloc::{AllocError, Global};
use std::marker::Model;
use std::sync::{Mutex, Wait};

/// A new book that no type stands for yet. Contracts see its name, and what is booked.
#[derive(Drop)]
pub struct Blank {
    cell: Cell,
    token: Token,
}

impl Model for Blank {
    ghost use Rattle.std.specs.Prelude.{◌≡◌};
    ghost use Rattle.crossbeam_utils.specs.Seq.{cell_view};
    ghost use Rattle.packet_ledger.specs.Amounts.{nothing};
    ghost use Rattle.packet_ledger.specs.Shown.{no_rows};
    ghost use Rattle.packet_ledger.specs.Tokens.{Unnamed, keeper};

    ghost Value = { Unnamed };

    ghost view = { λ b. record { table = b.cell.table.shared.table_id; booked = (cell_view b.token).booked } };

    ghost invariant = { λ b. (b.token.table_id ≡ b.cell.table.shared.table_id) × (cell_view b.token ≡ keeper 65537 nothing no_rows nothing no_rows) };
}

impl Blank {
    /// Nothing is booked.
    pub fn new(alloc: Global) -> Result<Blank, AllocError>
        ensures { IfOk result (λ b. b.booked ≡ nothing) }
    {
        let (cell, token) = Cell::ruled(alloc, [0])?;
        Ok(Blank { cell, token })
    }
}

/// The book of all that the shares of `N` posted.
pub struct Book<N: RunBrand> {
    cell: Cell,
    sums: Mutex<Sums<N>>,
    ghost named: { cell.table.shared.table_id ≡ N.table },
}

impl<N: RunBrand> Drop for Book<N> {
    fn drop(self) {
        let Book { cell: _, sums: _ } = self;
    }
}

impl<N: RunBrand> Book<N> {
    /// A book with nothing posted, and its shares, one for each worker, each at its own place, with nothing
    /// counted: from 0 to 65,536.
    pub fn new(
        alloc: Global,
        blank: Blank,
        workers: usize,
    ) -> Result<(Book<N>, Vec<Share<N>>), AllocError>
        requires name { blank.table ≡ N.table }
        requires workers { (workers ≡ N.workers) × (workers ≤ 65536) }
        ensures count { IfOk result (λ r. length r.1.items ≡ workers) }
        ensures shares { IfOk result (λ r. AreNew 0 r.1.items) }
    {
        let Blank { cell, mut token } = blank;
        let inputs = vec![in alloc; 0; workers]?;
        let outputs = vec![in alloc; 0; workers]?;
        let shares = split_shares(alloc, &cell, &mut token, workers)?;
        let sums = Mutex::new(Sums::new(&cell, token, inputs, outputs));
        Ok((Book { cell, sums }, shares))
    }

    /// Moves the share's counts into the book, which leaves them 0. Where a sum of all that the share ever
    /// counted would pass 2^109 neither changes.
    pub fn post<R: Wait>(&self, rt: &R, share: &mut Share<N>)
        ensures { IsPosted share.old share.new }
    {
        // a worker that found nothing to do posts before it sleeps, and takes no lock for nothing
        if share.is_empty() {
            return;
        }
        self.sums.lock(rt).post(rt, &self.cell, share);
    }

    /// A first look. At `Err` no memory was left.
    pub fn watch<R: Wait>(&self, rt: &R, alloc: Global) -> Result<Look<N>, AllocError>
        ensures { IfOk result (λ look. AddUp look) }
    {
        self.sums.lock(rt).watch(alloc, &self.cell)
    }

    /// Looks again: no count is less than it was. It takes no memory, and changes nothing in the book.
    pub fn look<R: Wait>(&self, rt: &R, look: &mut Look<N>)
        ensures grown { HasGrown look.old look.new }
        ensures rows { AddUp look.new }
    {
        self.sums.lock(rt).look(rt, &self.cell, look);
    }

    /// The totals of all that was ever counted on the shares, which are all of this book: what they
    /// posted, and what they still hold.
    pub fn close<R: Wait>(&self, rt: &R, shares: Vec<Share<N>>) -> Totals
        requires { length shares.items ≡ N.workers }
        ensures { result ≡ plus (posted_by shares.items) (counts_of shares.items) }
    {
        self.sums.lock(rt).close(rt, &self.cell, shares)
    }

    /// The same after a last look, which shows just what the shares posted, each in the row at its place. No look showed
    /// more than the totals.
    pub fn close_after<R: Wait>(&self, rt: &R, shares: Vec<Share<N>>, look: &mut Look<N>) -> Totals
        requires { length shares.items ≡ N.workers }
        ensures totals { result ≡ plus (posted_by shares.items) (counts_of shares.items) }
        ensures last { look.new.totals ≡ posted_by shares.items }
        ensures rows { AreTheirRows shares.items look.new }
        ensures grown { HasGrown look.old look.new }
        ensures within { (i : ℕ) → count_at i look.old.totals ≤ count_at i result }
        ensures rows_within { AreWithinTheirs shares.items look.old }
    {
        self.sums.lock(rt).close_after(rt, &self.cell, shares, look)
    }
}
