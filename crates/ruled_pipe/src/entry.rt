//! What lies in a pipe.

/// A mark of a producer, which carries no payload.
#[derive(Clone, Copy)]
pub enum Mark {
    /// What its taker sends goes no further.
    Close,
    /// Its producer offers no more.
    End,
}

/// A payload, or a mark.
#[derive(Drop)]
pub enum Load<T> {
    Payload(T),
    Marked(Mark),
}

/// A payload or a mark, with the number of its producer.
#[derive(Drop)]
pub struct Entry<T> {
    pub from: usize,
    pub load: Load<T>,
}

/// A push that the queue refused, and how many its producer had had accepted before. No value of it is
/// made: it is in the notes of a producer, which exist in proofs alone.
pub struct Refusal<T> {
    pub entry: Entry<T>,
    pub before: usize,
}
