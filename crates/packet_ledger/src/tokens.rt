//! The tokens of shares and book. They have no bytes.

ghost use Rattle.std.specs.Prelude.{◌≡◌, ℕ, ◌+◌, ◌-◌, ◌*◌, ◌^◌, ◌≤◌, [], true, length};
ghost use Rattle.crossbeam_utils.specs.Seq.{cell_view};
ghost use Rattle.process_packet.specs.Cause.{causes};
ghost use Rattle.packet_ledger.specs.Amounts.{count_at};
ghost use Rattle.packet_ledger.specs.Shown.{AreRaised, rows_of};
ghost use Rattle.packet_ledger.specs.Tokens.{Audited, given, joined, kept, looker, unlooked};

use atomic_table::{Join, Split};
use crossbeam_utils::atomic::seq_cell::{Pass, RuledSeqCell};
use crossbeam_utils::rule::{Outcome, Protocol};
use process_packet::Totals;
use std::marker::{Brand, PhantomData};
use std::sync::Wait;

/// The most shares of a book.
pub const MOST_SHARES: usize = 65536;

/// What each share posted as received, and as sent or answered, in the order of the shares. No value of it is made.
pub struct Table {
    pub inputs: [u128; MOST_SHARES],
    pub outputs: [u128; MOST_SHARES],
}

/// What a token knows: a share's what it posted, and into which row; the book's what the sums and the rows are; a
/// look's what it saw of them. The parts are those of the right to know that no share is missing. No value of it is made.
pub struct View {
    pub keeps: bool,
    pub parts: usize,
    pub posted: Totals,
    pub own: Table,
    pub booked: Totals,
    pub rows: Table,
    pub seen: Totals,
    pub seen_rows: Table,
}

/// The sums and the rows of the book's token are those of what all tokens posted, and no look saw more than them.
pub struct Balance;

impl Protocol<[u64; 1], View> for Balance {
    ghost use Rattle.packet_ledger.specs.Tokens.{Balanced, keeper};
    ghost use Rattle.packet_ledger.specs.Amounts.{nothing};
    ghost use Rattle.packet_ledger.specs.Shown.{no_rows};

    ghost holds = { Balanced };

    ghost first = { keeper 65537 nothing no_rows nothing no_rows };
}

/// The private cell that holds the rule of a book's tokens.
pub type Cell = RuledSeqCell<[u64; 1], View, Balance, 1>;

/// The token of a share or of the book, with what it knows.
pub type Token = Pass<[u64; 1], View>;

/// Amounts, parts, rows and a place among them that a call picks.
pub trait Amount {
    ghost use Rattle.std.specs.Prelude.{ℕ};
    ghost use Rattle.process_packet.specs.declared.totals.Totals.{Totals};
    ghost use Rattle.packet_ledger.specs.declared.tokens.Table.{Table as Rows};

    ghost counts: { Totals };

    ghost parts: { ℕ };

    ghost place: { ℕ };

    ghost rows: { Rows };
}

impl Amount for Brand {
    ghost use Rattle.packet_ledger.specs.Amounts.{nothing};
    ghost use Rattle.packet_ledger.specs.Shown.{no_rows};

    ghost counts = { nothing };

    ghost parts = { 0 };

    ghost place = { 0 };

    ghost rows = { no_rows };
}

/// The book's token gives away some parts, with all that it knows as posted, and more counts at a place; its rows are
/// these from then on.
pub struct Gives<K> {
    of: PhantomData<K>,
}

impl<K: Amount> Split<View> for Gives<K> {
    ghost use Rattle.packet_ledger.specs.Tokens.{given, kept};

    ghost left = { λ v. kept K.parts K.counts K.rows v };

    ghost right = { λ v. given K.parts K.counts K.place v };
}

/// A look's token is cut off that of the book: it saw all that the book's knows.
pub struct Shows;

impl Split<View> for Shows {
    ghost use Rattle.packet_ledger.specs.Tokens.{looker, unlooked};

    ghost left = { λ v. unlooked v };

    ghost right = { λ v. looker v.booked v.rows };
}

/// The book's token takes in another.
pub struct Takes;

impl Join<View> for Takes {
    ghost use Rattle.packet_ledger.specs.Tokens.{joined, nobody};

    ghost both = { joined };

    ghost spent = { nobody };
}

/// What the book's token tells: with all parts it knows just what was booked, sums and rows, and that has its bound; and
/// what it took in from a look is at most what it knows.
pub struct Audits;

impl Outcome<[u64; 1], View> for Audits {
    ghost use Rattle.packet_ledger.specs.Tokens.{Audited};

    ghost then = { λ v before after w. Audited v w };
}

/// Gives away some parts of the book's token, with what it knows as posted and these counts, which stand at a place of its
/// rows from then on.
pub fn give(
    cell: &Cell,
    keeper: &mut Token,
    parts: usize,
    counts: &Totals,
    place: usize,
    inputs: &[u128],
    outputs: &[u128],
) -> Token
    requires own { keeper.old.table_id ≡ cell.now.table.shared.table_id }
    requires keeps { (cell_view keeper.old).keeps ≡ true }
    requires parts { parts ≤ (cell_view keeper.old).parts }
    requires long { length counts.now.dropped ≡ causes }
    requires few { (i : ℕ) → count_at i (cell_view keeper.old).posted + count_at i counts.now ≤ parts * 2 ^ 109 }
    requires rows { AreRaised place counts.now (cell_view keeper.old).rows (rows_of inputs.now outputs.now) }
    ensures kept { (keeper.new.table_id ≡ keeper.old.table_id) × (cell_view keeper.new ≡ kept parts counts.now (rows_of inputs.now outputs.now) (cell_view keeper.old)) }
    ensures given { (result.table_id ≡ keeper.old.table_id) × (result.me.1 ≡ []) × (cell_view result ≡ given parts counts.now place (cell_view keeper.old)) }
{
    give_as::<Brand>(cell, keeper, parts, counts, place, inputs, outputs)
}

fn give_as<K: Amount>(
    cell: &Cell,
    keeper: &mut Token,
    parts: usize,
    counts: &Totals,
    place: usize,
    inputs: &[u128],
    outputs: &[u128],
) -> Token
    requires pick { (K.parts ≡ parts) × (K.counts ≡ counts.now) × (K.place ≡ place) × (K.rows ≡ rows_of inputs.now outputs.now) }
    requires own { keeper.old.table_id ≡ cell.now.table.shared.table_id }
    requires keeps { (cell_view keeper.old).keeps ≡ true }
    requires parts { parts ≤ (cell_view keeper.old).parts }
    requires long { length counts.now.dropped ≡ causes }
    requires few { (i : ℕ) → count_at i (cell_view keeper.old).posted + count_at i counts.now ≤ parts * 2 ^ 109 }
    requires rows { AreRaised place counts.now (cell_view keeper.old).rows (rows_of inputs.now outputs.now) }
    ensures kept { (keeper.new.table_id ≡ keeper.old.table_id) × (cell_view keeper.new ≡ kept parts counts.now (rows_of inputs.now outputs.now) (cell_view keeper.old)) }
    ensures given { (result.table_id ≡ keeper.old.table_id) × (result.me.1 ≡ []) × (cell_view result ≡ given parts counts.now place (cell_view keeper.old)) }
{
    let _ = parts;
    let _ = counts;
    let _ = place;
    let _ = inputs;
    let _ = outputs;
    cell.split_pass::<Gives<K>>(keeper)
}

/// A look's token, which saw all that the book's knows. The book's forgets what another look saw.
pub fn show(cell: &Cell, keeper: &mut Token) -> Token
    requires own { keeper.old.table_id ≡ cell.now.table.shared.table_id }
    requires keeps { (cell_view keeper.old).keeps ≡ true }
    ensures kept { (keeper.new.table_id ≡ keeper.old.table_id) × (cell_view keeper.new ≡ unlooked (cell_view keeper.old)) }
    ensures shown { (result.table_id ≡ keeper.old.table_id) × (result.me.1 ≡ []) × (cell_view result ≡ looker (cell_view keeper.old).booked (cell_view keeper.old).rows) }
{
    cell.split_pass::<Shows>(keeper)
}

/// Takes another token in.
pub fn take_in(cell: &Cell, keeper: &mut Token, other: Token)
    requires own { keeper.old.table_id ≡ cell.now.table.shared.table_id }
    requires other { (other.table_id ≡ keeper.old.table_id) × (other.me.1 ≡ []) }
    ensures { (keeper.new.table_id ≡ keeper.old.table_id) × (cell_view keeper.new ≡ joined (cell_view keeper.old) (cell_view other)) }
{
    cell.join_pass::<Takes>(keeper, other);
}

/// With all parts the book's token knows just what was booked, which is at most what all parts may have posted.
pub fn audit<R: Wait>(rt: &R, cell: &Cell, keeper: &mut Token)
    requires own { keeper.old.table_id ≡ cell.now.table.shared.table_id }
    requires keeps { (cell_view keeper.old).keeps ≡ true }
    ensures own { keeper.new.table_id ≡ keeper.old.table_id }
    ensures known { Audited (cell_view keeper.old) (cell_view keeper.new) }
{
    cell.load_as::<Audits, R>(rt, keeper);
}
