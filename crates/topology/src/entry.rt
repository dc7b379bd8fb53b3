//! The value at a key of an object: it is tested for its type, then its form.

ghost use Rattle.std.specs.Prelude.{◌≡◌, option_map};
ghost use Rattle.serde_json.specs.View.{members_view, view};
ghost use Rattle.std.specs.List.{list_all};
ghost use Rattle.topology.specs.Entry.{address_at, is_mark, isd_as_at, object_at, object_if_there, text_at};
ghost use Rattle.topology.specs.Outcome.{taken};

use crate::address::read_address;
use crate::fault::{Found, Place, Refusal};
use process_packet::Underlay;
use serde_json::{Map, Value};

/// The members of an object.
pub(crate) type Members = Map<String, Value>;

/// What is wanted at a key.
const OBJECT: &str = "an object";

const ADDRESS: &str = "an IP address and a port, as in \"10.0.0.1:30000\" or \"[fd00::1]:30000\"";

const ISD_AS: &str = "an ISD-AS, as in \"1-ff00:0:110\"";

/// A value that is found at a key.
fn found_in(value: &Value) -> Found<'_> {
    match value.as_str() {
        Some(text) => Found::Text(text),
        None => Found::Other,
    }
}

/// That what stands at a key isn't taken.
pub(crate) fn refused<'t>(
    place: Place<'t>,
    key: &'t str,
    value: Option<&'t Value>,
    wanted: &'static str,
) -> Refusal<'t> {
    let found = match value {
        Some(value) => found_in(value),
        None => Found::Nothing,
    };
    Refusal {
        place,
        key,
        found,
        wanted,
    }
}

/// The text at a key.
pub(crate) fn text_at<'t>(
    place: Place<'t>,
    value: &'t Value,
    key: &'static str,
    wanted: &'static str,
) -> Result<&'t str, Refusal<'t>>
    ensures { taken (λ text. text.now) result ≡ text_at key.now (view value.now) }
{
    let found = value.get(key);
    match found {
        Some(value) => match value.as_str() {
            Some(text) => Ok(text),
            None => Err(refused(place, key, found, wanted)),
        },
        None => Err(refused(place, key, None, wanted)),
    }
}

/// The object at a key.
pub(crate) fn object_at<'t>(
    place: Place<'t>,
    value: &'t Value,
    key: &'static str,
) -> Result<&'t Members, Refusal<'t>>
    ensures { taken (λ members. members_view members.now.entries) result ≡ object_at key.now (view value.now) }
{
    let found = value.get(key);
    match found {
        Some(value) => match value.as_object() {
            Some(members) => Ok(members),
            None => Err(refused(place, key, found, OBJECT)),
        },
        None => Err(refused(place, key, None, OBJECT)),
    }
}

/// The object at a key, if there is such a key.
#[tactic(auto, unfolding(crate::specs::Entry::object_if_there))]
pub(crate) fn object_if_there<'t>(
    place: Place<'t>,
    value: &'t Value,
    key: &'static str,
) -> Result<Option<&'t Members>, Refusal<'t>>
    ensures { taken (λ found. option_map (λ members. members_view members.now.entries) found) result
        ≡ object_if_there key.now (view value.now) }
{
    let found = value.get(key);
    match found {
        Some(value) => match value.as_object() {
            Some(members) => Ok(Some(members)),
            None => Err(refused(place, key, found, OBJECT)),
        },
        None => Ok(None),
    }
}

/// The address at a key.
#[tactic(auto, unfolding(crate::specs::Entry::address_at))]
pub(crate) fn address_at<'t>(
    place: Place<'t>,
    value: &'t Value,
    key: &'static str,
) -> Result<Underlay, Refusal<'t>>
    ensures { taken (λ address. address) result ≡ address_at key.now (view value.now) }
{
    let text = text_at(place, value, key, ADDRESS)?;
    match read_address(text) {
        Some(address) => Ok(address),
        None => Err(refused(place, key, value.get(key), ADDRESS)),
    }
}

/// Whether a byte is one of those that an ISD-AS is made of.
fn is_mark(byte: u8) -> bool
    ensures { result ≡ is_mark byte }
{
    match byte {
        b'0'..=b':' | b'a'..=b'f' | b'A'..=b'F' | b'-' => true,
        _ => false,
    }
}

/// Whether a text is made of what an ISD-AS is made of.
fn is_marked(text: &str) -> bool
    ensures { result ≡ list_all is_mark text.now }
{
    text.as_bytes().iter().all(|byte| is_mark(*byte))
}

/// The ISD-AS at a key, as it is written there; its numbers aren't looked at.
#[tactic(auto, unfolding(crate::specs::Entry::isd_as_at))]
pub(crate) fn isd_as_at<'t>(
    place: Place<'t>,
    value: &'t Value,
    key: &'static str,
) -> Result<&'t str, Refusal<'t>>
    ensures { taken (λ text. text.now) result ≡ isd_as_at key.now (view value.now) }
{
    let text = text_at(place, value, key, ISD_AS)?;
    if is_marked(text) {
        Ok(text)
    } else {
        Err(refused(place, key, value.get(key), ISD_AS))
    }
}
