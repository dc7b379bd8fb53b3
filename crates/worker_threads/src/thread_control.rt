//! What all threads of a run share.

ghost use Rattle.std.specs.Prelude.{◌≡◌, IfOk, false, is_some, true};
ghost use Rattle.std.specs.Arc.{arc_value};

use std::alloc::{AllocError, Global};
use std::sync::Arc;
use std::sync::atomic::{AtomicU64, Ordering};
use worker_parts::{Event, Signal};

/// The word that tells the threads what to do, which the receivers also read, the book into which
/// workers post, and for a thread the event that is notified of pushes into its worker's pipes.
pub struct ThreadControl<B> {
    pub word: Arc<AtomicU64, Global>,
    pub book: Arc<B, Global>,
    pub event: Option<Event>,
}

impl<B: Drop> Drop for ThreadControl<B> {
    fn drop(self) {
        let ThreadControl {
            word: _,
            book: _,
            event: _,
        } = self;
    }
}

impl<B> ThreadControl<B> {
    /// By a word that tells threads to hold.
    pub fn new(word: Arc<AtomicU64, Global>, book: Arc<B, Global>) -> ThreadControl<B>
        ensures given { (result.word ≡ word) × (result.book ≡ book) }
        ensures event { is_some result.event ≡ false }
    {
        ThreadControl {
            word,
            book,
            event: None,
        }
    }

    /// The threads begin their work.
    pub fn run(&self) {
        self.word.store(Signal::Run.word(), Ordering::SeqCst);
    }

    /// The receivers come to their ends, and with them all workers.
    pub fn stop(&self) {
        self.word.store(Signal::Stop.word(), Ordering::SeqCst);
    }

    /// The threads end without a turn.
    pub fn give_up(&self) {
        self.word.store(Signal::GiveUp.word(), Ordering::SeqCst);
    }
}

impl<B: Drop> ThreadControl<B> {
    /// The same, for a thread of a worker that nobody notifies of pushes. It takes no memory; it
    /// fails where there are too many.
    pub fn another(&self) -> Result<ThreadControl<B>, AllocError>
        ensures given { IfOk result (λ o. (arc_value o.word ≡ arc_value self.now.word) × (arc_value o.book ≡ arc_value self.now.book)) }
        ensures event { IfOk result (λ o. is_some o.event ≡ false) }
    {
        let word = Arc::try_clone(&self.word)?;
        let book = Arc::try_clone(&self.book)?;
        Ok(ThreadControl::new(word, book))
    }

    /// The same, for a thread of a worker of whose pipes each producer notifies the event after
    /// its pushes, marks among them. The worker sleeps on it.
    pub fn another_with(&self, event: &Event) -> Result<ThreadControl<B>, AllocError>
        ensures given { IfOk result (λ o. (arc_value o.word ≡ arc_value self.now.word) × (arc_value o.book ≡ arc_value self.now.book)) }
        ensures event { IfOk result (λ o. is_some o.event ≡ true) }
    {
        let mut control = self.another()?;
        control.event = Some(Arc::try_clone(event)?);
        Ok(control)
    }
}
