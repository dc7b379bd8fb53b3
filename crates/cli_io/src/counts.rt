//! Lines of counts.
ghost use Rattle.std.specs.Prelude.{◌≡◌, ◌++◌, OnOk};
ghost use Rattle.cli_io.specs.Counts.{count_text, drop_line, drops_text};

use process_packet::CAUSES;
use std::alloc::AllocError;
use text_values::push_decimal;

/// Adds a line of a name and a count. At `Err` no memory was left, and a beginning of the line may have been added.
pub fn push_count(text: &mut Vec<u8>, name: &[u8], count: u128) -> Result<(), AllocError>
    ensures { OnOk result (text.new.items ≡ text.old.items ++ count_text name.now count) }
{
    text.extend_from_slice(name)?;
    text.extend_from_slice(b" ")?;
    push_decimal(text, count)?;
    text.extend_from_slice(b"\n")
}

/// Adds the line of a cause, if something was dropped for it.
fn push_drop_line(text: &mut Vec<u8>, cause: usize, count: u128) -> Result<(), AllocError>
    ensures { OnOk result (text.new.items ≡ text.old.items ++ drop_line cause count) }
{
    if count == 0 {
        return Ok(());
    }
    text.extend_from_slice(b"dropped ")?;
    push_decimal(text, cause)?;
    text.extend_from_slice(b" ")?;
    push_decimal(text, count)?;
    text.extend_from_slice(b"\n")
}

/// Adds the lines of the causes that something was dropped for. At `Err` no memory was left, and a beginning of the
/// lines may have been added.
pub fn push_drops(text: &mut Vec<u8>, dropped: &[u128; CAUSES]) -> Result<(), AllocError>
    ensures { OnOk result (text.new.items ≡ text.old.items ++ drops_text 1 dropped.now) }
{
    for (index, count) in dropped.iter().enumerate() {
        push_drop_line(text, index + 1, *count)?;
    }
    Ok(())
}
