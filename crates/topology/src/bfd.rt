//! Whether the neighbour's router runs BFD over a link.

ghost use Rattle.std.specs.Prelude.{◌≡◌, option_map};
ghost use Rattle.serde_json.specs.View.{view};
ghost use Rattle.topology.specs.Bfd.{bfd_of, unless_disabled};
ghost use Rattle.topology.specs.Outcome.{taken};

use crate::entry::refused;
use crate::fault::{Place, Refusal};
use serde_json::Value;

/// Whether BFD runs by what stands at `disable`, if anything does; none where that is neither true
/// nor false.
fn unless_disabled(disable: Option<&Value>) -> Option<bool>
    ensures { result ≡ unless_disabled (option_map (λ value. view value.now) disable.entry) }
{
    match disable {
        None => Some(true),
        Some(value) => match value.as_bool() {
            Some(is_disabled) => Some(!is_disabled),
            None => None,
        },
    }
}

/// Whether BFD runs over an interface: it does unless it is disabled there.
#[tactic(auto, unfolding(crate::specs::Bfd::bfd_of))]
pub(crate) fn bfd_of<'t>(
    id: &'t str,
    router: &'t str,
    interface: &'t Value,
) -> Result<bool, Refusal<'t>>
    ensures { taken (λ runs. runs) result ≡ bfd_of (view interface.now) }
{
    let Some(bfd) = interface.get("bfd") else {
        return Ok(true);
    };
    if !bfd.is_object() {
        let place = Place::Interface(id, router);
        return Err(refused(place, "bfd", Some(bfd), "an object"));
    }
    let disable = bfd.get("disable");
    match unless_disabled(disable) {
        Some(runs) => Ok(runs),
        None => {
            let place = Place::Bfd(id, router);
            Err(refused(place, "disable", disable, "`true` or `false`"))
        }
    }
}
