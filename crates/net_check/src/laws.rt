//! Which wires a net of configurations has; nothing here runs.

ghost use Rattle.net_check.specs.Pairs.{WiresJoinPairs};

/// The wires of a net of configurations join the links of which one's remote address is the other's local one, and
/// no others.
pub fn wires_join_pairs()
    ensures { WiresJoinPairs }
{}
