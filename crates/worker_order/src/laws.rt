//! The running theorem, as far as it speaks of lists, at the router's own rules: contracts of functions that do nothing.

ghost use Rattle.worker_order.specs.Returned.{RunsAsTold};
ghost use Rattle.worker_order.specs.Totals.{SharesAddUp};

use router_rules::{causes_are_apart, links_stand_in_order, rules_are_lawful};

/// Shares that each hold or posted what was raised on them sum up, count by count, to all that was raised.
pub fn shares_add_up()
    ensures { SharesAddUp }
{}

/// Workers that came back keeping their laws, with pipes of which all was taken: for each arriving link, flow and leaving link
/// what was handed to the sink is what the sequential router sends of what was received, in order and byte for byte, less what
/// was dropped; each packet is at one place; each drop has its reason; nothing is swept of a link's band that wasn't closed; what
/// sources told was received, and sinks tell what they were handed; the totals are exact, cause by cause.
pub fn runs_as_told<T>()
    ensures { RunsAsTold T }
{
    rules_are_lawful();
    links_stand_in_order();
    causes_are_apart();
}
