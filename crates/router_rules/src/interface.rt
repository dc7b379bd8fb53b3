//! A link's interface.

use std::marker::Model;

/// The interface of a link to another AS, as hop fields name it; 0 is that of the internal network. It is
/// no index: contracts see its number.
#[derive(Clone, Copy, Drop)]
pub struct Interface(u16);

impl Model for Interface {
    ghost use Rattle.std.specs.Prelude.{ℕ};

    ghost Value = { ℕ };

    ghost view = { λ i. i.0 };

    ghost inverse = { λ n. record { 0 = n } };
}

impl Interface {
    ghost use Rattle.std.specs.Prelude.{◌≡◌};

    /// The interface of this number.
    pub fn of(id: u16) -> Interface
        ensures { result ≡ id }
    {
        Interface(id)
    }

    /// Its number.
    pub fn id(self) -> u16
        ensures { result ≡ self }
    {
        self.0
    }
}
