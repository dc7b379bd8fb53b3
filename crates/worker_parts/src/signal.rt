//! What the threads of a run are told.

ghost use Rattle.std.specs.Prelude.{◌≡◌};
ghost use Rattle.worker_parts.specs.Signal.{signal_of, word_of};

/// What the word that all threads of a run read tells them.
#[derive(Clone, Copy, PartialEq, Eq, Drop)]
pub enum Signal {
    /// Not all threads are made: make no turn yet.
    Hold,
    /// Make turns.
    Run,
    /// Make turns to the end: a receiver ends once its source has nothing more.
    Stop,
    /// End without a turn.
    GiveUp,
}

impl Signal {
    /// The word that tells it.
    pub fn word(self) -> u64
        ensures { result ≡ word_of self }
    {
        match self {
            Signal::Hold => 0,
            Signal::Stop => 1,
            Signal::Run => 2,
            Signal::GiveUp => 3,
        }
    }

    /// What a word tells. A word that is no signal's lets threads run.
    pub fn of(word: u64) -> Signal
        ensures { result ≡ signal_of word }
    {
        match word {
            0 => Signal::Hold,
            1 => Signal::Stop,
            3 => Signal::GiveUp,
            _ => Signal::Run,
        }
    }
}
