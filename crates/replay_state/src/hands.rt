//! What the workers have in hand.

ghost use Rattle.std.specs.Prelude.{◌≡◌, Some, MatchOption, IfOk, slice_set, slice_index_or, replicate};
ghost use Rattle.replay_laws.specs.Next.{is_free};
ghost use Rattle.replay_laws.specs.World.{Empty};
ghost use Rattle.replay_state.specs.Items.{hand_in};

use crate::item::Item;
use std::alloc::{AllocError, Global};
use std::marker::Model;
use std::mem;

/// What a worker has in hand, if anything.
#[derive(Drop)]
pub enum Hand {
    /// It is to be worked on.
    Got(Item),
    /// It is to be pushed.
    Owes(Item),
}

/// What one worker has in hand.
#[derive(Drop)]
struct Seat {
    hand: Option<Hand>,
}

impl Model for Seat {
    ghost use Rattle.replay_laws.specs.World.{Hand};
    ghost use Rattle.router_rules.specs.Rules.{kinds};

    ghost Value = { Hand kinds };

    ghost use Rattle.replay_state.specs.Items.{hand_in};

    ghost view = { λ s. hand_in s.hand };
}

/// What the workers have in hand, by their seats.
pub struct Hands {
    seats: Vec<Seat>,
}

impl Model for Hands {
    ghost use Rattle.std.specs.Prelude.{List};
    ghost use Rattle.replay_laws.specs.World.{Hand};
    ghost use Rattle.router_rules.specs.Rules.{kinds};

    ghost Value = { List (Hand kinds) };

    ghost view = { λ h. h.seats.items };
}

impl Drop for Hands {
    fn drop(self) {
        let Hands { seats: _ } = self;
    }
}

impl Hands {
    /// A number of empty hands. `Err` where no memory is left.
    pub fn new(alloc: Global, count: usize) -> Result<Hands, AllocError>
        ensures { IfOk result (λ hands. hands ≡ replicate count Empty) }
    {
        let mut seats = Vec::new(alloc);
        for i in 0..count {
            seats.push(Seat { hand: None })?;
        }
        Ok(Hands { seats })
    }

    /// What is in hand at a seat; nothing where there is none.
    pub fn get(&self, seat: usize) -> Option<&Hand>
        ensures { MatchOption result (slice_index_or self.now seat Empty ≡ Empty) (λ hand. slice_index_or self.now seat Empty ≡ hand_in (Some hand.now)) }
    {
        match self.seats.get(seat) {
            None => None,
            Some(at) => at.hand.as_ref(),
        }
    }

    /// Whether nothing is in hand at a seat.
    pub fn is_free(&self, seat: usize) -> bool
        ensures { result ≡ is_free (slice_index_or self.now seat Empty) }
    {
        match self.get(seat) {
            None => true,
            Some(Hand::Got(_) | Hand::Owes(_)) => false,
        }
    }

    /// Fills or empties the hand at a seat; where there is none, nothing changes.
    pub fn set(&mut self, seat: usize, hand: Option<Hand>)
        ensures { self.new ≡ slice_set self.old seat (hand_in hand) }
    {
        if seat < self.seats.len() {
            drop(mem::replace(&mut self.seats[seat], Seat { hand }));
        } else {
            drop(hand);
        }
    }
}

impl Hands {
    ghost use Rattle.std.specs.Prelude.{length};

    /// How many seats there are.
    pub fn len(&self) -> usize
        ensures { result ≡ length self.now }
    {
        self.seats.len()
    }
}
