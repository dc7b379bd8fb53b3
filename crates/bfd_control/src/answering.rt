//! The control packet that answers another one.

ghost use Rattle.std.specs.Prelude.{◌≡◌, ◌+◌, ◌≤◌, ℕ, [], ◌∷◌, length};
ghost use Rattle.byteorder.specs.Endian.{big_bytes};
ghost use Rattle.field_rows.specs.Place.{Puts};
ghost use Rattle.field_rows.specs.Row.{field, row};
ghost use Rattle.bfd_control.specs.Answer.{answer, answer_text, min_tx};
ghost use Rattle.bfd_control.specs.ControlPacket.{bit, control_packet_of};
ghost use Rattle.bfd_control.specs.Session.{number_of};

use crate::reception::{CONTROL_PACKET_LEN, VERSION, state_at};
use crate::state::State;
use field_rows::{put_u8, put_u32, u32_at};

/// After how many packets that stay away the other end may find the link down.
const DETECT_MULTIPLIER: u8 = 3;

/// The shortest time between two packets, in microseconds: of those that are sent, and of those that can be
/// taken.
const SHORTEST_INTERVAL: u32 = 200_000;

/// The same of those that are sent while the session isn't up (RFC 5880, 6.8.3).
const SHORTEST_INTERVAL_NOT_UP: u32 = 1_000_000;

/// The time between two packets that the answer tells, where it tells this state: that of the neighbour, since
/// answers come as often as the neighbour's packets, but no less than a session of this state may tell.
fn min_tx(state: State, neighbors: u32) -> u32
    ensures { result ≡ min_tx state neighbors }
{
    let shortest = match state {
        State::Up => SHORTEST_INTERVAL,
        _ => SHORTEST_INTERVAL_NOT_UP,
    };
    neighbors.max(shortest)
}

/// The byte of the state and of the flags, of which only F may be set.
fn state_byte(state: State, is_final: bool) -> u8
    ensures { big_bytes 1 result ≡ row (
        field 2 (number_of state) ∷ field 1 0 ∷ field 1 (bit is_final) ∷ field 1 0 ∷ field 1 0 ∷ field 1 0 ∷ field 1 0 ∷ []) }
{
    state.number() * 64 + u8::from(is_final) * 16
}

/// Whether the answer is final (F), as it is to a poll (P).
fn is_final(bytes: &[u8]) -> bool
    requires { 24 ≤ length bytes.now }
    ensures { (own : ℕ) → result ≡ (answer own (control_packet_of bytes.now)).final }
{
    bytes[1] / 32 % 2 == 1
}

/// Writes the control packet that answers one with these bytes, 24 bytes from `at` on, as an end whose session
/// has the discriminator `own` and that keeps nothing of what it heard (RFC 5880, 4.1 and 6.8.7). It tells Init
/// to a neighbour that tells Down, Up to one that tells Init or Up, and Down to one that is held down by an
/// administrator; a poll (P) is answered as final (F).
pub fn write_answer(own: u32, received: &[u8], out: &mut [u8], at: usize)
    requires whole { 24 ≤ length received.now }
    requires room { at + 24 ≤ length out.old }
    ensures { Puts out.old out.new at (answer_text own received.now) }
{
    let state = state_at(received).answered();
    put_u8(out, at, VERSION * 32);
    put_u8(out, at + 1, state_byte(state, is_final(received)));
    put_u8(out, at + 2, DETECT_MULTIPLIER);
    put_u8(out, at + 3, CONTROL_PACKET_LEN as u8);
    put_u32(out, at + 4, own);
    put_u32(out, at + 8, u32_at(received, 4));
    put_u32(out, at + 12, min_tx(state, u32_at(received, 12)));
    put_u32(out, at + 16, SHORTEST_INTERVAL);
    put_u32(out, at + 20, 0);
}
