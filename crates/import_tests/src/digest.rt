//! Digests, as the RFCs' vectors are written.
ghost use Rattle.std.specs.Prelude.{◌≡◌, ◌++◌};
ghost use Rattle.std.specs.Int.{w128, to_be_bytes};

/// The digest whose first and last 16 bytes are these numbers, high byte first.
pub fn joined(first: u128, last: u128) -> [u8; 32]
    ensures { result ≡ to_be_bytes w128 first ++ to_be_bytes w128 last }
{
    let mut digest = [0; 32];
    digest[..16].copy_from_slice(&first.to_be_bytes());
    digest[16..].copy_from_slice(&last.to_be_bytes());
    digest
}
