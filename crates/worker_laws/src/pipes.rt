//! The first pass of the running theorem, one pipe at a time: laws of its gathered ends, as contracts of functions that do
//! nothing.

ghost use Rattle.worker_laws.specs.Gathers.{Drains, StaysEmpty, ClosesByLast};
ghost use Rattle.worker_laws.specs.Rows.{RowsAreColumns};

/// Where the last that each producer pushed is its only end mark, and the consumer took them all, nothing is held: what was
/// taken is what was accepted, of each producer in its order; and each refused push is as one at a full queue, as far as
/// its producer's own pushes tell.
pub fn drains<T>()
    ensures law { Drains T }
{}

/// A pipe to which nothing was pushed holds nothing, and nothing was taken of it.
pub fn stays_empty<T>()
    ensures law { StaysEmpty T }
{}

/// Where only the last producer pushed closing marks, one was taken where that one pushed one.
pub fn closes_by_last<T>()
    ensures law { ClosesByLast T }
{}

/// Where the last end is taken off each worker's bundle, these are the producers of the last pipe, and the producers of the pipes
/// before it are among what is left.
pub fn rows_are_columns<T>()
    ensures law { RowsAreColumns T }
{}
