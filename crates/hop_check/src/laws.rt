//! What the checks of a hop field promise as a whole: nothing here runs.

ghost use Rattle.hop_check.specs.Exact.{HopsExpireOnTime, MacsAreWhole};
ghost use Rattle.hop_check.specs.OneInput.{InputsAreOneToOne};

/// Two MACs are made over the same sixteen bytes only if the identifiers, the timestamps, the expiries and
/// both interfaces are the same.
pub fn inputs_are_one_to_one()
    ensures { InputsAreOneToOne }
{}

/// From its segment's timestamp on a hop field is good for 337 seconds where ExpTime is 0, for 21,600 where
/// it is 63 and for 86,400 where it is 255, and a second later it isn't.
pub fn hops_expire_on_time()
    ensures { HopsExpireOnTime }
{}

/// A hop field's MAC is right exactly if all six bytes are the first six of the CMAC; an identifier is
/// chained by its first two bytes, as a number of 16 bits.
pub fn macs_are_whole()
    ensures { MacsAreWhole }
{}
