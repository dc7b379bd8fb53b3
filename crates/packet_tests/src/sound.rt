//! Datagrams without a fault.

ghost use Rattle.std.specs.Prelude.{◌≡◌, None, true};
ghost use Rattle.scion_packet.specs.Packet.{first_fault};

use path_fields::check_path;
use scion_header::check_header;

/// Whether a datagram has no fault.
pub fn is_sound(bytes: &[u8]) -> bool
    ensures { result ≡ true → first_fault bytes.now ≡ None }
{
    let Ok(ends) = check_header(bytes) else {
        return false;
    };
    match check_path(&bytes[ends.addresses..ends.header]) {
        Ok(_) => true,
        Err(_) => false,
    }
}
