//! Bytes as a line of hex.
ghost use Rattle.std.specs.Prelude.{◌≡◌, IfOk, Some, None, if◌then◌else◌};
ghost use Rattle.cli_io.specs.HexLine.{bytes_of};

use std::alloc::AllocError;

/// Replaces the bytes with those that a line of hex digits has, of either case; false where the
/// line is no hex, and then the bytes mean nothing. At `Err` no memory was left, and they are lost
/// too.
pub fn read_hex(line: &[u8], bytes: &mut Vec<u8>) -> Result<bool, AllocError>
    ensures { IfOk result (λ is_hex. bytes_of line.now ≡ (if is_hex then Some bytes.new.items else None)) }
{
    bytes.clear();
    bytes.resize(line.len() / 2, 0)?;
    match hex::decode_to_slice(line, bytes.as_mut_slice()) {
        Ok(()) => Ok(true),
        Err(_) => Ok(false),
    }
}
