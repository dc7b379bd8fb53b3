//! Laws of a replay's arrivals; nothing here runs.

ghost use Rattle.cli_replay.specs.Gathered.{GatheredBegin};

/// What was gathered link by link is what arrives in the pipeline that begins with it.
pub fn gathered_begin()
    ensures { GatheredBegin }
{}
