//! Hints at what is often meant, where a value is refused.

use crate::location::Key;
use toml::{Table, Value};

/// The lists of a configuration.
const LISTS: [Key; 3] = [Key::Link, Key::Sibling, Key::Service];

/// A hint for a text that is no address.
fn hint_of_address(text: &str) -> &'static str {
    if text.contains("::") {
        "; `::` is no short form here: write all eight groups"
    } else {
        ""
    }
}

/// A hint for a word that is no kind.
fn hint_of_kind(text: &str) -> &'static str {
    let is_known = text.eq_ignore_ascii_case("core")
        || text.eq_ignore_ascii_case("parent")
        || text.eq_ignore_ascii_case("child");
    if is_known {
        "; write it in small letters"
    } else {
        ""
    }
}

/// A hint for a text that is no key: 16 bytes in base64 take 24 letters, with `==` at their end.
fn hint_of_key(text: &str) -> &'static str {
    if text.len() == 24 && text.ends_with("==") {
        "; it looks like base64, as a control service's master key is written: the forwarding key is derived from that one"
    } else {
        ""
    }
}

/// A hint at what may be meant by a value that a key refuses, to follow the words; empty where there is none.
pub(crate) fn hint_at(key: Key, value: &Value) -> &'static str {
    let Value::String(text) = value else {
        return "";
    };
    match key {
        Key::Internal | Key::Local | Key::Remote | Key::At => hint_of_address(text.as_str()),
        Key::Kind => hint_of_kind(text.as_str()),
        Key::Forwarding => hint_of_key(text.as_str()),
        _ => "",
    }
}

/// The list, and which of its members, counted from 1, where a key stands that is missing in the
/// configuration itself: what follows the head of a member, as `[[link]]`, belongs to that member.
pub(crate) fn strayed(table: &Table, key: Key) -> Option<(Key, usize)> {
    for list in LISTS {
        let Some(Value::Array(members)) = table.get(list.name()) else {
            continue;
        };
        for (index, member) in members.iter().enumerate() {
            if let Some(member) = member.as_table() {
                if member.get(key.name()).is_some() {
                    return Some((list, index + 1));
                }
            }
        }
    }
    None
}

/// A hint at what a line means that is no TOML; empty where there is none.
pub(crate) fn hint_of_line(line: &str) -> &'static str {
    let line = line.trim_start();
    let is_of_as = line.starts_with("isd_as") || line.starts_with("neighbor");
    if is_of_as && !line.contains("\"") {
        "; write the ISD-AS in quotes"
    } else {
        ""
    }
}
