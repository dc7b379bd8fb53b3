//! A connection that is given up after a time.

use libc::net as c;
use libc::types::pollfd;
use std::io::{self, ErrorKind, Read, Write};
use std::net::TcpStream;
use std::os::fd::AsRawFd;
use std::sync::atomic::{AtomicU64, Ordering};
use std::time::{Clock, Instant};

/// How long a client may take, in milliseconds.
const LONGEST: u128 = 5000;

/// The longest wait for a socket, in milliseconds: so long may it take until it is seen that the
/// server is to end.
const SLICE: i32 = 100;

/// What a wait came to.
pub(crate) enum Waited {
    Ready,
    NotYet,
    /// It can't be waited for.
    Failed,
}

/// Waits for an event at a socket, for 100 milliseconds at most.
pub(crate) fn wait_for<S: AsRawFd>(socket: &S, event: i16) -> Waited {
    let mut asked = [pollfd {
        fd: socket.as_raw_fd(),
        events: event,
        revents: 0,
    }];
    match c::poll(&mut asked, SLICE) {
        1 => Waited::Ready,
        0 => Waited::NotYet,
        _ => Waited::Failed,
    }
}

/// A client's connection. Reads and writes wait, but all of them fail once it took 5 seconds, or
/// the word that ends the server isn't 0.
#[derive(Drop)]
pub(crate) struct Connection<'a, R: Clock> {
    clock: &'a R,
    stream: TcpStream,
    since: Instant,
    stop: &'a AtomicU64,
}

impl<'a, R: Clock> Connection<'a, R> {
    pub(crate) fn of(
        clock: &'a R,
        stream: TcpStream,
        stop: &'a AtomicU64,
    ) -> io::Result<Connection<'a, R>> {
        stream.set_nonblocking(true)?;
        let since = Instant::now(clock)?;
        Ok(Connection {
            clock,
            stream,
            since,
            stop,
        })
    }

    // Waits until it is ready.
    fn wait(&self, event: i16) -> io::Result<()> {
        for _ in 0..u64::MAX {
            if self.stop.load(Ordering::SeqCst) != 0 {
                break;
            }
            if self.since.elapsed(self.clock)?.as_millis() >= LONGEST {
                break;
            }
            match wait_for(&self.stream, event) {
                Waited::Ready => return Ok(()),
                Waited::NotYet => {}
                Waited::Failed => break,
            }
        }
        Err(io::Error::from(ErrorKind::TimedOut))
    }
}

/// One who reads from a connection, or writes to it.
#[derive(Drop)]
pub(crate) struct End<'a, R: Clock>(pub(crate) &'a Connection<'a, R>);

impl<R: Clock> Read for End<'_, R> {
    fn read(&mut self, buf: &mut [u8]) -> io::Result<usize> {
        self.0.wait(c::POLLIN)?;
        (&self.0.stream).read(buf)
    }
}

impl<R: Clock> Write for End<'_, R> {
    fn write(&mut self, buf: &[u8]) -> io::Result<usize> {
        self.0.wait(c::POLLOUT)?;
        (&self.0.stream).write(buf)
    }

    fn flush(&mut self) -> io::Result<()> {
        Ok(())
    }
}
