//! The pairs of links that a packet may come and leave by.

ghost use Rattle.std.specs.Prelude.{◌≡◌};
ghost use Rattle.segment_switch.specs.Pairs.{changes_over, goes_straight, pair_fault};

use crate::fault::PairFault;
use crate::kind::LinkKind;

/// Whether a segment runs over these two links of an AS: along the core, up or down.
fn goes_straight(from: LinkKind, to: LinkKind) -> bool
    ensures { result ≡ goes_straight from to }
{
    matches!(
        (from, to),
        (LinkKind::Core, LinkKind::Core)
            | (LinkKind::Parent, LinkKind::Child)
            | (LinkKind::Child, LinkKind::Parent)
    )
}

/// Whether two stretches of a path may meet at these links of an AS, the one by which the packet comes
/// and the one by which it leaves: where a way up ends at the core, where a way down begins there, or
/// where one turns into the other.
pub fn joins(from: LinkKind, to: LinkKind) -> bool
    ensures { result ≡ changes_over from to }
{
    matches!(
        (from, to),
        (LinkKind::Core, LinkKind::Child)
            | (LinkKind::Child, LinkKind::Core)
            | (LinkKind::Child, LinkKind::Child)
    )
}

/// Whether a packet may come by the one link and leave by the other; `None` is the internal network.
/// One that stays on its segment needs two links that follow one another on a segment, or came from
/// inside, where the router at which it entered the AS has seen the pair. One that changes its segment,
/// as `switched` says, needs two links at which segments meet.
pub fn pair_ok(from: Option<LinkKind>, to: LinkKind, switched: bool) -> Result<(), PairFault>
    ensures { result ≡ pair_fault switched from to }
{
    let lawful = match from {
        None => !switched,
        Some(from) => {
            if switched {
                joins(from, to)
            } else {
                goes_straight(from, to)
            }
        }
    };
    if lawful {
        Ok(())
    } else if switched {
        Err(PairFault::ChangeOver)
    } else {
        Err(PairFault::StraightOn)
    }
}
