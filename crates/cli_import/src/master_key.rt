//! The forwarding key of an AS, from the text of its master key.

ghost use Rattle.std.specs.Prelude.{◌≡◌};
ghost use Rattle.cli_import.specs.MasterKey.{GivesKey, derived, key_of};

use base64::DecodeAllocError;
use base64::engine::general_purpose::STANDARD;
use cli_faults::Fault;
use key_derivation::forwarding_key;
use std::alloc::Global;

/// The forwarding key of a master key; none of an empty one.
fn derived(master: &[u8]) -> Option<[u8; 16]>
    ensures { result ≡ derived master.now }
{
    if master.is_empty() {
        None
    } else {
        Some(forwarding_key(master))
    }
}

/// The forwarding key of the AS whose control service keeps its master key in this text: in base64,
/// with no blanks but at the ends. An empty master key gives none.
pub(crate) fn key_of(alloc: Global, text: &str) -> Result<[u8; 16], Fault>
    ensures { GivesKey result (key_of text.now) }
{
    match STANDARD.decode(alloc, text.as_bytes().trim_ascii()) {
        Ok(master) => match derived(master.as_slice()) {
            Some(key) => Ok(key),
            None => Err(Fault::MasterKey("it is empty")),
        },
        Err(DecodeAllocError::OutOfMemory) => Err(Fault::Memory),
        Err(DecodeAllocError::DecodeError(_)) => Err(Fault::MasterKey("not base64")),
    }
}
