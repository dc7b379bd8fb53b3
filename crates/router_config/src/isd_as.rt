//! ISD-AS numbers as text, as in `1-ff00:0:110` or `1-64512`.
ghost use Rattle.std.specs.Prelude.{◌≡◌, ◌<◌, ◌≤◌, ◌^◌, IfSome};
ghost use Rattle.router_config.specs.IsdAs.{as_of, groups_of, isd_as_of};

use text_values::pieces::{read_group, read_number, split_once};

/// The AS number of three groups of hex digits.
#[tactic(auto, unfolding(crate::specs::IsdAs::groups_of))]
fn read_groups(text: &str) -> Option<u64>
    ensures value { result ≡ groups_of text.now }
    ensures fits { IfSome result (λ number. number < 2 ^ 48) }
{
    let (high, rest) = split_once(text, ':')?;
    let (middle, low) = split_once(rest, ':')?;
    let high = read_group(high)?;
    let middle = read_group(middle)?;
    let low = read_group(low)?;
    Some((u64::from(high) * 65536 + u64::from(middle)) * 65536 + u64::from(low))
}

/// An AS number: a decimal up to 4294967295, or three groups of hex digits.
#[tactic(auto, unfolding(crate::specs::IsdAs::as_of))]
fn read_as(text: &str) -> Option<u64>
    ensures value { result ≡ as_of text.now }
    ensures fits { IfSome result (λ number. number < 2 ^ 48) }
{
    match read_number(text, u32::MAX.into()) {
        Some(number) => Some(number),
        None => read_groups(text),
    }
}

/// The ISD number and the AS number of a text; neither is 0.
///
/// The ISD is a plain decimal up to 65535. The AS is one up to 4294967295, or three groups of one
/// to four hex digits, each 16 bits of it, joined by `:`.
#[tactic(auto, unfolding(crate::specs::IsdAs::isd_as_of))]
pub(crate) fn read_isd_as(text: &str) -> Option<(u16, u64)>
    ensures value { result ≡ isd_as_of text.now }
    ensures isd_is_there { IfSome result (λ numbers. 1 ≤ numbers.0) }
    ensures autonomous_system_is_there { IfSome result (λ numbers. 1 ≤ numbers.1) }
    ensures fits { IfSome result (λ numbers. numbers.1 < 2 ^ 48) }
{
    let (isd, autonomous_system) = split_once(text, '-')?;
    let isd = read_number(isd, u16::MAX.into())? as u16;
    if isd == 0 {
        return None;
    }
    let autonomous_system = read_as(autonomous_system)?;
    if autonomous_system == 0 {
        return None;
    }
    Some((isd, autonomous_system))
}
