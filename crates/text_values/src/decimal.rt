//! Numbers in plain decimal digits.
ghost use Rattle.std.specs.Prelude.{◌≡◌, ◌≢◌, ◌≤◌, ◌++◌, ℕ, decimal, IfNone, IfSome, OnOk};

use itoa::{Buffer, Integer};
use std::alloc::AllocError;

/// The number up to the limit that a text is, in decimal digits with no sign and no leading zero.
pub fn read_decimal(text: &str, limit: u64) -> Option<u64>
    ensures found { IfSome result (λ number. (number ≤ limit) × (text.now ≡ decimal number)) }
    ensures none { IfNone result ((number : ℕ) → number ≤ limit → text.now ≢ decimal number) }
{
    let Ok(number) = text.parse::<u64>() else {
        return None;
    };
    // The text is the one that the number prints as, so `+1` and `01` are refused.
    let mut buffer = Buffer::new();
    if number <= limit && buffer.format(number) == text {
        Some(number)
    } else {
        None
    }
}

/// Adds a number's decimal digits to the text. At `Err` no memory was left, and a beginning of them
/// may have been added.
pub fn push_decimal<I: Integer>(text: &mut Vec<u8>, number: I) -> Result<(), AllocError>
    ensures { OnOk result (text.new.items ≡ text.old.items ++ I.text number) }
{
    let mut buffer = Buffer::new();
    text.extend_from_slice(buffer.format(number).as_bytes())
}
