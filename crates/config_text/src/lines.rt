//! Lines of a key and a value.
ghost use Rattle.std.specs.Prelude.{◌≡◌, ◌++◌, OnOk};
ghost use Rattle.config_text.specs.Lines.{address_line, number_line, text_line};

use process_packet::Underlay;
use std::alloc::AllocError;
use text_values::{push_decimal, push_underlay};

/// Adds the line of a key and a text, which needs no escapes.
pub(crate) fn push_text(text: &mut Vec<u8>, key: &[u8], value: &[u8]) -> Result<(), AllocError>
    ensures { OnOk result (text.new.items ≡ text.old.items ++ text_line key.now value.now) }
{
    text.extend_from_slice(key)?;
    text.extend_from_slice(b" = \"")?;
    text.extend_from_slice(value)?;
    text.extend_from_slice(b"\"\n")
}

/// Adds the line of a key and an address.
pub(crate) fn push_address(
    text: &mut Vec<u8>,
    key: &[u8],
    address: &Underlay,
) -> Result<(), AllocError>
    ensures { OnOk result (text.new.items ≡ text.old.items ++ address_line key.now address.now) }
{
    text.extend_from_slice(key)?;
    text.extend_from_slice(b" = \"")?;
    push_underlay(text, address)?;
    text.extend_from_slice(b"\"\n")
}

/// Adds the line of a key and a number.
pub(crate) fn push_number(text: &mut Vec<u8>, key: &[u8], number: u16) -> Result<(), AllocError>
    ensures { OnOk result (text.new.items ≡ text.old.items ++ number_line key.now number) }
{
    text.extend_from_slice(key)?;
    text.extend_from_slice(b" = ")?;
    push_decimal(text, number)?;
    text.extend_from_slice(b"\n")
}
