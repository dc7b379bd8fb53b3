//! Which of a router's links.

use std::marker::Model;

/// The index of a link among the router's, from 0 on, in ascending order of their interfaces. It is no
/// interface: contracts see its number.
#[derive(Clone, Copy, Drop)]
pub struct LinkIndex(u16);

impl Model for LinkIndex {
    ghost use Rattle.std.specs.Prelude.{ℕ};

    ghost Value = { ℕ };

    ghost view = { λ l. l.0 };

    ghost inverse = { λ n. record { 0 = n } };
}

impl LinkIndex {
    ghost use Rattle.std.specs.Prelude.{◌≡◌};

    /// The link with this index.
    pub fn of(index: u16) -> LinkIndex
        ensures { result ≡ index }
    {
        LinkIndex(index)
    }

    /// Its place in a list with an entry for each link.
    pub fn place(self) -> usize
        ensures { result ≡ self }
    {
        usize::from(self.0)
    }
}
