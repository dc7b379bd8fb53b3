//! Laws of the router's rules as a whole; nothing here runs. A law of the decision is called for
//! what it says.

ghost use Rattle.router_rules.specs.Example.{RulesAreTold};
ghost use Rattle.router_rules.specs.Laws.{AreLawful, CausesAreApart, LinksStandInOrder, RepliesAreAnswers};

use packet_answer::control_packets_are_answered;
use process_packet::{
    decided_by_kind, nothing_else_changes, one_hops_enter, one_hops_keep_the_rest, one_hops_leave,
    only_lawful_ways,
};

/// The router's rules are lawful for the pipeline: each flow has a processor; what a receiver refuses
/// the decision drops for the same cause; what leaves has a link, and keeps its band.
pub fn rules_are_lawful()
    ensures { AreLawful }
{
    only_lawful_ways();
    nothing_else_changes();
    one_hops_leave();
    one_hops_enter();
    one_hops_keep_the_rest();
    decided_by_kind();
}

/// Each link has one number, and they ascend with the interfaces.
pub fn links_stand_in_order()
    ensures { LinksStandInOrder }
{}

/// The inspection, the decision and the reply each drop for causes of their own: the inspection for the
/// causes 1 to 6 and 11, the decision for these, for 7, 8 and 19 to 21, the reply for 9 and 10. No one
/// drops for a cause of the pipeline's.
pub fn causes_are_apart()
    ensures { CausesAreApart }
{}

/// A control packet of BFD that came by a link to a neighbour is answered over this link, for the moment at which
/// it came (RFC 5880); what else is answered, is so by SCMP.
pub fn replies_are_answers()
    ensures { RepliesAreAnswers }
{
    control_packets_are_answered();
}

/// The rules over small cases.
pub fn examples()
    ensures { RulesAreTold }
{}
