//! A running router, as the one who runs it sees it.

use crate::closing::Closing;
use process_packet::Totals;

/// What a router that ended tells: how much each link sent, in ascending order of the interfaces, and the
/// counts.
#[derive(Drop)]
pub struct Figures {
    pub sent: Vec<u128>,
    pub totals: Totals,
}

/// A running router, as an engine of lines closes its links and ends it.
pub trait Control {
    ghost use Rattle.std.specs.Prelude.{ℕ};
    ghost use Rattle.cli_run.specs.declared.closing.Closing.{Closing as Told};
    ghost use Rattle.cli_run.specs.declared.control.Figures.{Figures as Counted};

    /// What becomes of it where it is told to close the link of an interface.
    ghost closes: { Self → ℕ → Told → Self → Type 0 };

    /// What it tells where it ends.
    ghost tells: { Self → Counted → Type 0 };

    /// Closes the link of an interface.
    fn close_link(&mut self, link: u16) -> Closing
        ensures { closes self.old link result self.new };

    /// Ends it.
    fn finish(self) -> Figures
        ensures { tells self result };
}
