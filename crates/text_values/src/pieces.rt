//! Pieces of a text and the numbers that they spell.
ghost use Rattle.std.specs.Prelude.{◌≡◌, ◌<◌, ◌≤◌, ◌^◌, IfSome, option_map};
ghost use Rattle.text_values.specs.Pieces.{strip_prefix, split_once, group_of, number_up_to};

use crate::decimal::read_decimal;

/// The parts before and after the first `mark`, an ASCII character; none where the text has no such
/// character.
pub fn split_once(text: &str, mark: char) -> Option<(&str, &str)>
    requires { mark < 128 }
    ensures { option_map (λ parts. (parts.0.now, parts.1.now)) result ≡ split_once mark text.now }
{
    text.split_once(mark)
}

/// The text without the ASCII character `mark` at its beginning; none where it begins otherwise.
pub fn strip_prefix(text: &str, mark: char) -> Option<&str>
    requires { mark < 128 }
    ensures { option_map (λ rest. rest.now) result ≡ strip_prefix mark text.now }
{
    let (before, rest) = split_once(text, mark)?;
    if before.is_empty() { Some(rest) } else { None }
}

/// The number that a text is in plain decimal digits, with no sign and no leading zero; none where
/// it is not one, or above the limit.
pub fn read_number(text: &str, limit: u64) -> Option<u64>
    ensures value { result ≡ number_up_to limit text.now }
    ensures within { IfSome result (λ number. number ≤ limit) }
{
    read_decimal(text, limit)
}

/// The number of one to four hex digits of either case, as a group of an IPv6 address has them;
/// none where the text is not such a group.
pub fn read_group(text: &str) -> Option<u16>
    ensures { result ≡ group_of text.now }
{
    // A number's text may begin with a plus, a group may not.
    if text.is_empty() || text.len() > 4 || text.as_bytes()[0] == b'+' {
        return None;
    }
    match u16::from_str_radix(text, 16) {
        Ok(group) => Some(group),
        Err(_) => None,
    }
}
