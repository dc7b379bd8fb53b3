//! The promises of a run, as the contract of a function that does nothing.

ghost use Rattle.run_promises.specs.Promises.{PromisesAreKept};

/// Of a run whose workers came back (`WorkersHaveRun` of `worker_order`): each arriving link, flow and leaving link in order and byte for
/// byte, less what was dropped; each packet taken by a sink or dropped, once, and each drop with its reason; totals that are
/// exact, cause by cause.
pub fn promises_are_kept<T>()
    ensures { PromisesAreKept T }
{}
