//! What lies under the book's lock.

ghost use Rattle.std.specs.Prelude.{◌≡◌, ℕ, ◌+◌, ◌-◌, ◌*◌, ◌^◌, ◌<◌, ◌≤◌, [], true, IfOk, length, MatchBool, replicate, slice_index, slice_set};
ghost use Rattle.std.specs.List.{sum};
ghost use Rattle.crossbeam_utils.specs.Seq.{cell_view};
ghost use Rattle.packet_ledger.specs.Amounts.{AtMost, count_at, nothing, plus};
ghost use Rattle.packet_ledger.specs.Shown.{AddUp, HasBooked, HasGrown, add_rows, counted_at, no_rows, single};
ghost use Rattle.packet_ledger.specs.Tokens.{gathered, keeper, unlooked};
ghost use Rattle.packet_ledger.specs.Share.{AreNew, AreTheirRows, MayPost, counts_of, emptied, new_share, posted_by, rows_by};

use crate::amounts::{add, added, clear, none, sums_fit};
use crate::look::Look;
use crate::run_brand::RunBrand;
use crate::share::{ALL_LEFT, Share};
use crate::tokens::{Cell, Token, audit, give, show, take_in};
use process_packet::Totals;
use std::alloc::{AllocError, Global};
use std::marker::{Model, PhantomData};
use std::mem;
use std::sync::Wait;

/// The sums of all that was posted, and what each share posted as received, and as sent or answered, with the
/// token that says so. Contracts see all three.
pub struct Sums<N: RunBrand> {
    totals: Totals,
    inputs: Vec<u128>,
    outputs: Vec<u128>,
    token: Token,
    of: PhantomData<N>,
}

impl<N: RunBrand> Model for Sums<N> {
    ghost use Rattle.std.specs.Prelude.{◌≡◌, ◌-◌, ◌^◌, ◌≤◌, length};
    ghost use Rattle.crossbeam_utils.specs.Seq.{cell_view};
    ghost use Rattle.packet_ledger.specs.Amounts.{AtMost, nothing};
    ghost use Rattle.packet_ledger.specs.Shown.{AddUp, Shown as Seen, no_rows, rows_of};
    ghost use Rattle.packet_ledger.specs.Tokens.{keeper};

    ghost Value = { Seen };

    ghost view = { λ s. record { totals = s.totals; inputs = s.inputs.items; outputs = s.outputs.items } };

    ghost invariant = { λ s. (s.token.table_id ≡ N.table) × (cell_view s.token ≡ keeper (65537 - N.workers) nothing no_rows s.totals (rows_of s.inputs.items s.outputs.items)) × AtMost (2 ^ 126) s.totals × (N.workers ≤ 65536) × AddUp (record { totals = s.totals; inputs = s.inputs.items; outputs = s.outputs.items }) × (length s.inputs.items ≡ N.workers) × (length s.outputs.items ≡ N.workers) };
}

impl<N: RunBrand> Drop for Sums<N> {
    fn drop(self) {
        let Sums {
            totals: _,
            inputs: _,
            outputs: _,
            token: _,
            of: _,
        } = self;
    }
}

// Adds to a number of a row. A row to which nothing is added isn't written, so that it stays in the caches of other
// cores.
fn raise(row: &mut Vec<u128>, place: usize, n: u128)
    requires place { place < length row.old.items }
    requires room { sum row.old.items + n < 2 ^ 128 }
    ensures row { row.new.items ≡ slice_set row.old.items place (slice_index row.old.items place + n) }
    ensures sum { sum row.new.items ≡ sum row.old.items + n }
    ensures up { (k : ℕ) → slice_index row.new.items k ≡ slice_index row.old.items k + slice_index (single place n) k }
    ensures same { length row.new.items ≡ length row.old.items }
{
    if n > 0 {
        row[place] += n;
    }
}

impl<N: RunBrand> Sums<N> {
    /// With nothing posted, by these rows, one for each share, and the token that has all parts but those of the shares.
    pub fn new(cell: &Cell, token: Token, inputs: Vec<u128>, outputs: Vec<u128>) -> Sums<N>
        requires cell { cell.now.table.shared.table_id ≡ N.table }
        requires name { token.table_id ≡ N.table }
        requires token { cell_view token ≡ keeper (65537 - N.workers) nothing no_rows nothing no_rows }
        requires workers { N.workers ≤ 65536 }
        requires inputs { inputs.items ≡ replicate N.workers 0 }
        requires outputs { outputs.items ≡ replicate N.workers 0 }
        ensures { result ≡ record { totals = nothing; inputs = replicate N.workers 0; outputs = replicate N.workers 0 } }
    {
        let mut token = token;
        let totals = none();
        let _ = give(
            cell,
            &mut token,
            0,
            &totals,
            0,
            inputs.as_slice(),
            outputs.as_slice(),
        );
        Sums {
            totals,
            inputs,
            outputs,
            token,
            of: PhantomData,
        }
    }

    /// Moves the share's counts into the sums and its row. Where a sum of all that the share ever counted would pass
    /// 2^109 nothing moves.
    pub fn post<R: Wait>(&mut self, rt: &R, cell: &Cell, share: &mut Share<N>) -> bool
        requires { cell.now.table.shared.table_id ≡ N.table }
        ensures sums { MatchBool result (HasBooked share.old.place share.old.counts self.old self.new) (self.new ≡ self.old) }
        ensures share { MatchBool result (share.new ≡ emptied share.old) (share.new ≡ share.old) }
        ensures room { MatchBool result (MayPost share.old) (MayPost share.old → ⊥) }
    {
        let drops = share.drops;
        if !sums_fit(&share.posted, &share.counts, drops) {
            return false;
        }
        let spare = give(
            cell,
            &mut self.token,
            0,
            &none(),
            0,
            self.inputs.as_slice(),
            self.outputs.as_slice(),
        );
        let token = mem::replace(&mut share.token, spare);
        take_in(cell, &mut self.token, token);
        audit(rt, cell, &mut self.token);
        let forwarded = share.counts.sent + share.counts.answered;
        raise(&mut self.inputs, share.place, share.counts.received);
        raise(&mut self.outputs, share.place, forwarded);
        share.token = give(
            cell,
            &mut self.token,
            1,
            &share.counts,
            share.place,
            self.inputs.as_slice(),
            self.outputs.as_slice(),
        );
        add(&mut share.posted, &share.counts, drops);
        add(&mut self.totals, &share.counts, drops);
        clear(&mut share.counts, drops);
        share.drops = false;
        share.left = ALL_LEFT;
        true
    }

    /// What stands here, for one who looks at it.
    pub fn watch(&mut self, alloc: Global, cell: &Cell) -> Result<Look<N>, AllocError>
        requires { cell.now.table.shared.table_id ≡ N.table }
        ensures sums { self.new ≡ self.old }
        ensures shown { IfOk result (λ look. look ≡ self.old) }
    {
        let inputs = Vec::from_slice(alloc, self.inputs.as_slice())?;
        let outputs = Vec::from_slice(alloc, self.outputs.as_slice())?;
        Ok(Look {
            totals: self.totals,
            inputs,
            outputs,
            token: show(cell, &mut self.token),
            of: PhantomData,
        })
    }

    /// The same for one who looked before.
    pub fn look<R: Wait>(&mut self, rt: &R, cell: &Cell, look: &mut Look<N>)
        requires { cell.now.table.shared.table_id ≡ N.table }
        ensures sums { self.new ≡ self.old }
        ensures shown { look.new ≡ self.old }
        ensures grown { HasGrown look.old look.new }
        ensures rows { AddUp look.new }
    {
        let next = show(cell, &mut self.token);
        let last = mem::replace(&mut look.token, next);
        take_in(cell, &mut self.token, last);
        audit(rt, cell, &mut self.token);
        // the book's token forgets what was seen
        let _ = show(cell, &mut self.token);
        look.totals = self.totals;
        look.inputs.copy_from_slice(self.inputs.as_slice());
        look.outputs.copy_from_slice(self.outputs.as_slice());
    }

    /// All that was ever counted on the shares, which are all of this book.
    pub fn close<R: Wait>(&mut self, rt: &R, cell: &Cell, shares: Vec<Share<N>>) -> Totals
        requires cell { cell.now.table.shared.table_id ≡ N.table }
        requires shares { length shares.items ≡ N.workers }
        ensures totals { result ≡ plus (posted_by shares.items) (counts_of shares.items) }
        ensures posted { self.old.totals ≡ posted_by shares.items }
        ensures rows { AreTheirRows shares.items self.old }
        ensures sums { self.new ≡ self.old }
    {
        let parts = shares.len();
        let counts = take_all(cell, &mut self.token, shares);
        audit(rt, cell, &mut self.token);
        // what the shares posted stays known to a token that nobody has, and the book's is as it was
        let _ = give(
            cell,
            &mut self.token,
            parts,
            &none(),
            0,
            self.inputs.as_slice(),
            self.outputs.as_slice(),
        );
        added(&self.totals, &counts)
    }

    /// The same after a last look.
    pub fn close_after<R: Wait>(
        &mut self,
        rt: &R,
        cell: &Cell,
        shares: Vec<Share<N>>,
        look: &mut Look<N>,
    ) -> Totals
        requires cell { cell.now.table.shared.table_id ≡ N.table }
        requires shares { length shares.items ≡ N.workers }
        ensures totals { result ≡ plus (posted_by shares.items) (counts_of shares.items) }
        ensures last { look.new.totals ≡ posted_by shares.items }
        ensures rows { AreTheirRows shares.items look.new }
        ensures grown { HasGrown look.old look.new }
        ensures sums { self.new ≡ self.old }
    {
        self.look(rt, cell, look);
        self.close(rt, cell, shares)
    }
}

/// The shares of a new book.
pub fn split_shares<N: RunBrand>(
    alloc: Global,
    cell: &Cell,
    token: &mut Token,
    workers: usize,
) -> Result<Vec<Share<N>>, AllocError>
    requires cell { cell.now.table.shared.table_id ≡ N.table }
    requires own { token.old.table_id ≡ N.table }
    requires token { cell_view token.old ≡ keeper 65537 nothing no_rows nothing no_rows }
    requires workers { (workers ≡ N.workers) × (workers ≤ 65536) }
    ensures count { IfOk result (λ v. length v.items ≡ workers) }
    ensures shares { IfOk result (λ v. AreNew 0 v.items) }
    ensures own { token.new.table_id ≡ N.table }
    ensures token { IfOk result (λ _. cell_view token.new ≡ keeper (65537 - workers) nothing no_rows nothing no_rows) }
{
    let mut shares = Vec::with_capacity(alloc, workers)?;
    for place in 0..workers {
        shares.push(split_share(cell, token, place))?;
    }
    Ok(shares)
}

// A new share, whose row stands at a place, cut off the token of a book with nothing posted.
fn split_share<N: RunBrand>(cell: &Cell, token: &mut Token, place: usize) -> Share<N>
    requires cell { cell.now.table.shared.table_id ≡ N.table }
    requires own { token.old.table_id ≡ N.table }
    requires token { let v = cell_view token.old in (v ≡ keeper v.parts nothing no_rows nothing no_rows) × (0 < v.parts) }
    requires place { place < N.workers }
    ensures share { result ≡ new_share place }
    ensures own { token.new.table_id ≡ N.table }
    ensures token { cell_view token.new ≡ keeper ((cell_view token.old).parts - 1) nothing no_rows nothing no_rows }
{
    let counts = none();
    Share {
        token: give(cell, token, 1, &counts, place, &[], &[]),
        counts,
        posted: counts,
        left: ALL_LEFT,
        drops: false,
        place,
        of: PhantomData,
    }
}

// Takes the tokens of the shares in, and adds up what they still hold.
fn take_all<N: RunBrand>(cell: &Cell, token: &mut Token, shares: Vec<Share<N>>) -> Totals
    requires cell { cell.now.table.shared.table_id ≡ N.table }
    requires own { token.old.table_id ≡ N.table }
    requires fresh { ((cell_view token.old).posted ≡ nothing) × ((cell_view token.old).own ≡ no_rows) × (unlooked (cell_view token.old) ≡ cell_view token.old) }
    requires few { length shares.items ≤ 65536 }
    ensures own { token.new.table_id ≡ N.table }
    ensures token { cell_view token.new ≡ gathered (length shares.items) (posted_by shares.items) (rows_by shares.items) (cell_view token.old) }
    ensures counts { result ≡ counts_of shares.items }
    ensures few { AtMost (2 ^ 117) result }
    ensures posted { (i : ℕ) → count_at i (posted_by shares.items) ≤ length shares.items * 2 ^ 109 }
{
    let mut counts = none();
    for share in shares {
        counts = add_share(cell, token, share, &counts);
    }
    counts
}

// Takes the token of one share in, and adds up what it still holds.
fn add_share<N: RunBrand>(
    cell: &Cell,
    token: &mut Token,
    share: Share<N>,
    counts: &Totals,
) -> Totals
    requires cell { cell.now.table.shared.table_id ≡ N.table }
    requires own { token.old.table_id ≡ N.table }
    requires few { AtMost (2 ^ 117) counts.now }
    ensures own { token.new.table_id ≡ N.table }
    ensures token { let v = cell_view token.old in cell_view token.new ≡ gathered 1 (plus v.posted share.posted) (add_rows v.own (counted_at share.place share.posted)) v }
    ensures counts { result ≡ plus counts.now share.counts }
    ensures few { AtMost (2 ^ 100) share.counts }
    ensures posted { AtMost (2 ^ 109) share.posted }
{
    let Share {
        counts: own,
        posted: _,
        left: _,
        drops: _,
        place: _,
        token: other,
        of: _,
    } = share;
    take_in(cell, token, other);
    added(counts, &own)
}
