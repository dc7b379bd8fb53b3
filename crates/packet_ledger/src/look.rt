//! What a look at the book sees.

ghost use Rattle.std.specs.Prelude.{◌≡◌, length};

use crate::run_brand::RunBrand;
use crate::tokens::Token;
use process_packet::Totals;
use std::marker::{Model, PhantomData};

/// What the shares of the book `N` had posted when it was looked at: the sums, and a row for each share, in the order in
/// which the book's making gave them. Contracts see it all.
#[derive(Drop)]
pub struct Look<N: RunBrand> {
    pub(crate) totals: Totals,
    pub(crate) inputs: Vec<u128>,
    pub(crate) outputs: Vec<u128>,
    pub(crate) token: Token,
    pub(crate) of: PhantomData<N>,
}

impl<N: RunBrand> Model for Look<N> {
    ghost use Rattle.std.specs.Prelude.{◌≡◌, [], length};
    ghost use Rattle.crossbeam_utils.specs.Seq.{cell_view};
    ghost use Rattle.packet_ledger.specs.Shown.{AddUp, Shown, rows_of};
    ghost use Rattle.packet_ledger.specs.Tokens.{looker};

    ghost Value = { Shown };

    ghost view = { λ l. record { totals = l.totals; inputs = l.inputs.items; outputs = l.outputs.items } };

    ghost invariant = { λ l. (l.token.table_id ≡ N.table) × (l.token.me.1 ≡ []) × (cell_view l.token ≡ looker l.totals (rows_of l.inputs.items l.outputs.items)) × AddUp (record { totals = l.totals; inputs = l.inputs.items; outputs = l.outputs.items }) × (length l.inputs.items ≡ N.workers) × (length l.outputs.items ≡ N.workers) };
}

impl<N: RunBrand> Look<N> {
    /// The sums of all that was posted.
    pub fn totals(&self) -> &Totals
        ensures { result.now ≡ self.now.totals }
    {
        &self.totals
    }

    /// What each share posted as received, in datagrams, in the order of the shares.
    pub fn inputs(&self) -> &[u128]
        ensures rows { result.now ≡ self.now.inputs }
        ensures each { length result.now ≡ N.workers }
    {
        self.inputs.as_slice()
    }

    /// What each share posted as sent or answered, in packets, in the order of the shares.
    pub fn outputs(&self) -> &[u128]
        ensures rows { result.now ≡ self.now.outputs }
        ensures each { length result.now ≡ N.workers }
    {
        self.outputs.as_slice()
    }
}
