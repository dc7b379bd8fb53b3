//! The tests of a control packet when it comes in.

ghost use Rattle.std.specs.Prelude.{◌≡◌, ◌≤◌, length};
ghost use Rattle.bfd_control.specs.ControlPacket.{control_packet_of};
ghost use Rattle.bfd_control.specs.Reception.{is_for, is_sound, is_taken};

use crate::state::State;
use field_rows::u32_at;

/// How many bytes a control packet without authentication has (RFC 5880, 4.1).
pub const CONTROL_PACKET_LEN: usize = 24;

/// The version of the protocol (RFC 5880, 4.1).
pub(crate) const VERSION: u8 = 1;

/// The state that the sender's session is in.
pub(crate) fn state_at(bytes: &[u8]) -> State
    requires { 24 ≤ length bytes.now }
    ensures { result ≡ (control_packet_of bytes.now).state }
{
    State::from_number(bytes[1] / 64)
}

/// Whether the fields pass the tests that no session is asked for.
fn is_sound(bytes: &[u8]) -> bool
    requires { 24 ≤ length bytes.now }
    ensures { result ≡ is_sound (length bytes.now) (control_packet_of bytes.now) }
{
    let flags = bytes[1];
    let packet_length = usize::from(bytes[3]);
    bytes[0] / 32 == VERSION
        && packet_length >= CONTROL_PACKET_LEN
        && packet_length <= bytes.len()
        && flags / 4 % 2 != 1
        && bytes[2] != 0
        && flags % 2 != 1
        && u32_at(bytes, 4) != 0
}

/// Whether it is for the session with this discriminator, or begins one.
fn is_for(own: u32, bytes: &[u8]) -> bool
    requires { 24 ≤ length bytes.now }
    ensures { result ≡ is_for own (control_packet_of bytes.now) }
{
    let yours = u32_at(bytes, 8);
    if yours == 0 {
        state_at(bytes).is_down()
    } else {
        yours == own
    }
}

/// Whether an end whose session has this discriminator takes the control packet (RFC 5880, 6.8.6). It has 24
/// bytes or more and is of version 1; its length is from 24 to the number of bytes; it carries no
/// authentication (A); its detect multiplier isn't 0; it isn't multipoint (M); the sender's discriminator isn't
/// 0; and the receiver's is this one, or it is 0 and the sender's session is down. What else a receiver may test
/// by its session isn't looked at.
pub fn is_taken(own: u32, bytes: &[u8]) -> bool
    ensures { result ≡ is_taken own bytes.now }
{
    bytes.len() >= CONTROL_PACKET_LEN && is_sound(bytes) && is_for(own, bytes)
}
