//! How long a socket's reads and sends wait.

use libc::net as c;
use libc::types::pollfd;
use std::io;
use std::net::UdpSocket;
use std::os::fd::AsRawFd;
use std::time::Duration;

/// The longest wait for a datagram, in milliseconds. A receiver that nothing arrives at sees after at most two of them
/// that it is told to stop: it looks for that before each read.
const LONGEST_FOR_DATAGRAM: u64 = 50;

/// The longest wait for room to send, in milliseconds.
const LONGEST_FOR_ROOM: i32 = 10;

/// Limits the waits of a socket whose reads and sends wait. Those of a source do at times, and its sink has the same
/// socket, so its sends do then too.
pub(crate) fn limit_waits(socket: &UdpSocket) -> io::Result<()> {
    socket.set_read_timeout(Some(Duration::from_millis(LONGEST_FOR_DATAGRAM)))?;
    socket.set_write_timeout(Some(Duration::from_millis(LONGEST_FOR_ROOM as u64)))
}

/// Waits until there is room to send, for 10 milliseconds at most. False where it can't be waited for, so that a caller
/// doesn't ask again at once.
pub(crate) fn wait_for_room(socket: &UdpSocket) -> bool {
    let mut asked = [pollfd {
        fd: socket.as_raw_fd(),
        events: c::POLLOUT,
        revents: 0,
    }];
    match c::poll(&mut asked, LONGEST_FOR_ROOM) {
        0 => true,
        1 => asked[0].revents & c::POLLOUT != 0,
        _ => false,
    }
}

/// Asks for the largest receive buffer; the system gives what it allows.
pub(crate) fn widen(socket: &UdpSocket) {
    let mut value = [0u8; 16];
    value[..4].copy_from_slice(&i32::MAX.to_ne_bytes());
    let _ = unsafe { c::setsockopt(socket.as_raw_fd(), c::SOL_SOCKET, c::SO_RCVBUF, &value, 4) };
}
