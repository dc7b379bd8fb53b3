//! Laws of all runs; nothing here runs.

ghost use Rattle.pipe_model.specs.Headline.{ArrivalsStay};

/// Whatever steps are made, a pipeline tells of the arrivals that it began with.
pub fn arrivals_stay()
    ensures { ArrivalsStay }
{}
