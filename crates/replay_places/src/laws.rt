//! A law of the places as a whole; nothing here runs.

ghost use Rattle.replay_places.specs.Producers.{ProducersAreNumbered};

/// The workers that feed a pipe are numbered below its count of producers, each by a number of its own.
pub fn producers_are_numbered()
    ensures { ProducersAreNumbered }
{}
