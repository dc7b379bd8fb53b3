//! The ports at which applications on end hosts listen themselves.
ghost use Rattle.std.specs.Prelude.{◌≡◌};
ghost use Rattle.topology.specs.PortRange.{is_word, ports_of, range_from, range_of};

use process_packet::PortRange;
use text_values::pieces::{read_number, split_once};

/// Whether a text is a word, both in letters of either case.
pub(crate) fn is_word(word: &str, text: &str) -> bool
    ensures { result ≡ is_word word.now text.now }
{
    text.eq_ignore_ascii_case(word)
}

/// The ports from the first to the last, if neither is 0 and the last isn't below the first.
fn range_from(first: u16, last: u16) -> Option<PortRange>
    ensures { result ≡ range_from first last }
{
    if first == 0 || last < first {
        None
    } else {
        Some(PortRange { first, last })
    }
}

/// The range of ports of two decimals with a `-` between them.
#[tactic(auto, unfolding(crate::specs::PortRange::range_of))]
fn read_range(text: &str) -> Option<PortRange>
    ensures { result ≡ range_of text.now }
{
    let (first, last) = split_once(text, '-')?;
    let first = read_number(first, u16::MAX.into())? as u16;
    let last = read_number(last, u16::MAX.into())? as u16;
    range_from(first, last)
}

/// The range that a text tells, `31000-32767` or `all`; none inside where it tells that there is
/// none, by nothing or `-`.
#[tactic(auto, unfolding(crate::specs::PortRange::ports_of))]
pub(crate) fn read_ports(text: &str) -> Option<Option<PortRange>>
    ensures { result ≡ ports_of text.now }
{
    if text.is_empty() || text == "-" {
        return Some(None);
    }
    if is_word("all", text) {
        return Some(Some(PortRange {
            first: 1,
            last: u16::MAX,
        }));
    }
    match read_range(text) {
        Some(range) => Some(Some(range)),
        None => None,
    }
}
