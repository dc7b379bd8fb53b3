//! Lists that are taken from the front.

ghost use Rattle.std.specs.Prelude.{◌≡◌, ◌<◌, ◌∷◌, length};

use std::marker::Model;

/// What is left of a list that is taken from the front. It takes no memory.
#[derive(Drop)]
pub struct Line<X> {
    // The first one last.
    items: Vec<X>,
}

impl<X> Model for Line<X> {
    ghost use Rattle.std.specs.Prelude.{List, reverse};

    ghost Value = { List X };

    ghost view = { λ l. reverse l.items.items };
}

impl<X> Line<X> {
    /// The whole list, its first one to be taken first.
    pub fn of(items: Vec<X>) -> Line<X>
        ensures { result ≡ items.items }
    {
        let mut items = items;
        items.reverse();
        Line { items }
    }

    /// The first of what is left, which is something.
    pub fn next(&mut self) -> X
        requires { 0 < length self.old }
        ensures { self.old ≡ result ∷ self.new }
    {
        match self.items.pop() {
            Some(x) => x,
            None => unreachable!(),
        }
    }

    /// Gives up a line of which nothing is left, without a way to drop what it held.
    pub fn destroy_empty(self)
        requires { length self ≡ 0 }
    {
        let Line { items } = self;
        items.destroy_empty();
    }
}
