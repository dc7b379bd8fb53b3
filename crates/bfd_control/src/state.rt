//! The states of a session.

ghost use Rattle.std.specs.Prelude.{◌≡◌, ◌<◌};
ghost use Rattle.bfd_control.specs.Session.{answered_state, is_down, number_of, state_of};

/// The state of a BFD session (RFC 5880, 6.2).
#[derive(Clone, Copy)]
pub(crate) enum State {
    /// It is held down by an administrator.
    AdminDown,
    /// It is down, or has just begun.
    Down,
    /// The other end is heard, and isn't known to hear.
    Init,
    /// Both ends hear each other.
    Up,
}

impl State {
    /// The state of this number in a control packet (RFC 5880, 4.1).
    pub(crate) fn from_number(number: u8) -> State
        requires { number < 4 }
        ensures { result ≡ state_of number }
    {
        match number {
            0 => State::AdminDown,
            1 => State::Down,
            2 => State::Init,
            _ => State::Up,
        }
    }

    /// Its number in a control packet, two bits (RFC 5880, 4.1).
    pub(crate) fn number(self) -> u8
        ensures number { result ≡ number_of self }
        ensures fits { result < 4 }
    {
        match self {
            State::AdminDown => 0,
            State::Down => 1,
            State::Init => 2,
            State::Up => 3,
        }
    }

    /// Whether the session is down, by an administrator or not.
    pub(crate) fn is_down(self) -> bool
        ensures { result ≡ is_down self }
    {
        matches!(self, State::AdminDown | State::Down)
    }

    /// The state that is told in answer to a packet with this one.
    pub(crate) fn answered(self) -> State
        ensures { result ≡ answered_state self }
    {
        match self {
            State::AdminDown => State::Down,
            State::Down => State::Init,
            State::Init | State::Up => State::Up,
        }
    }
}
