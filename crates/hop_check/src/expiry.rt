//! How long a hop field is good for.

ghost use Rattle.std.specs.Prelude.{◌≡◌};
ghost use Rattle.hop_check.specs.Expiry.{is_expired};
ghost use Rattle.path_fields.specs.Fields.{hop_field, info_field};

use path_fields::{Hop, Info};

/// Whether the hop field is good no more at `now`, in seconds of Unix time (draft-dekater-scion-dataplane,
/// "Hop Field"). It is good for 337.5
/// seconds for each unit of its expiry and one more, from the segment's timestamp on; at the moment at
/// which that time is over it still is.
pub fn expired(info: &Info, hop: &Hop, now: u64) -> bool
    ensures { result ≡ is_expired (info_field info.now) (hop_field hop.now) now }
{
    let timestamp = info.timestamp;
    let units = hop.expiry;
    // In half seconds, and wide enough for any moment.
    let end = 2 * u128::from(timestamp) + 675 * (1 + u128::from(units));
    end < 2 * u128::from(now)
}
