//! Where a link's datagrams come from.

ghost use Rattle.std.specs.Prelude.{◌≡◌, ◌+◌, ◌-◌, ◌^◌, ◌<◌, ℕ, List, Option, None, length};
ghost use Rattle.worker_laws.specs.Forwards.{AddsTo};
ghost use Rattle.worker_parts.specs.Heard.{failures_of, fits, heard};
ghost use Rattle.worker_parts.specs.Buffer.{buffer_len};
ghost use Rattle.udp_devices.specs.Address.{underlay_of};
ghost use Rattle.udp_devices.specs.Arrival.{Arrives, GoesOn};

use crate::address::underlay_of;
use process_packet::Underlay;
use std::io::ErrorKind;
use std::marker::Model;
use std::net::{SocketAddr, UdpSocket};
use std::time::{Clock, SystemTime, UNIX_EPOCH};
use worker_parts::{NextLen, Source};

/// Reads a socket, and the machine's clock. A read waits only where the source was told to wait before it: to wait for
/// a datagram first, and read then, would be a call of the system more for each. It never answers that there will be
/// none any more. Contracts see the address at which the socket was opened, and how often it failed.
pub struct UdpSource<R: Clock + Drop> {
    clock: R,
    socket: UdpSocket,
    local: Underlay,
    failed: u64,
    // Whether the last read failed: the next one may fail at once too, and wouldn't wait.
    fails: bool,
    // Whether the next read is to wait.
    awaits: bool,
    // Whether the socket's reads wait. It is changed only where it has to be, since that is a call of the system too.
    blocks: bool,
}

impl<R: Clock + Drop> Model for UdpSource<R> {
    ghost use Rattle.udp_devices.specs.Devices.{Reading};

    ghost Value = { Reading };

    ghost view = { λ s. record { local = s.local; failed = s.failed } };
}

impl<R: Clock + Drop> Drop for UdpSource<R> {
    fn drop(self) {
        let UdpSource {
            clock: _,
            socket: _,
            local: _,
            failed: _,
            fails: _,
            awaits: _,
            blocks: _,
        } = self;
    }
}

/// The machine's clock, in whole seconds since 1970; none where it can't be read.
fn now_of<R: Clock>(clock: &R) -> Option<u64> {
    let now = SystemTime::now(clock).ok()?;
    let since = now.duration_since(UNIX_EPOCH).ok()?;
    Some(since.as_secs())
}

/// The datagram of this length that was read now, with its source; a failure where the clock can't
/// be read.
fn arrived<R: Clock>(clock: &R, len: usize, from: SocketAddr) -> NextLen
    requires { len < 9218 }
    ensures fits { fits result }
    ensures arrives { Arrives len (underlay_of from) result }
{
    match now_of(clock) {
        Some(now) => NextLen::Datagram {
            len,
            from: underlay_of(from),
            now,
        },
        None => NextLen::Failed,
    }
}

/// What the socket gives at the moment.
fn read_one<R: Clock>(clock: &R, socket: &UdpSocket, buffer: &mut [u8]) -> NextLen
    requires { length buffer.old ≡ buffer_len }
    ensures same { length buffer.new ≡ length buffer.old }
    ensures fits { fits result }
    ensures goes_on { GoesOn result }
{
    match socket.recv_from(buffer) {
        Ok((len, from)) => arrived(clock, len, from),
        Err(error) if error.kind() == ErrorKind::WouldBlock => NextLen::Quiet,
        Err(_) => NextLen::Failed,
    }
}

impl<R: Clock + Drop> UdpSource<R> {
    /// A source over a socket that was opened at this address and doesn't wait.
    pub(crate) fn of(clock: R, socket: UdpSocket, local: Underlay) -> UdpSource<R>
        ensures { result ≡ record { local = local; failed = 0 } }
    {
        UdpSource {
            clock,
            socket,
            local,
            failed: 0,
            fails: false,
            awaits: false,
            blocks: false,
        }
    }

    // The next read waits only where it is to.
    fn choose_mode(&mut self)
        ensures { self.new ≡ self.old }
    {
        if self.blocks && !self.awaits {
            self.blocks = self.socket.set_nonblocking(true).is_err();
        }
        self.awaits = false;
    }

    /// The address at which the socket is; none where the system doesn't tell.
    pub fn address(&self) -> Option<Underlay> {
        match self.socket.local_addr() {
            Ok(address) => Some(underlay_of(address)),
            Err(_) => None,
        }
    }
}

impl<R: Clock + Drop> Source for UdpSource<R> {
    ghost use Rattle.std.specs.Prelude.{◌≡◌};
    ghost use Rattle.std.proofs.Common.{refl, ◌∙◌};

    ghost told = { λ s. None };

    ghost failed = { λ s. s.failed };

    ghost same = { λ a b. b.local ≡ a.local };

    ghost same_self = { λ x. refl };

    ghost same_then = { λ x y z p q. q ∙ p };

    ghost waits = { λ s said. Unit {0} };

    fn next_into(&mut self, buffer: &mut [u8]) -> NextLen
        requires failures { self.old.failed < 2 ^ 64 - 1 }
        requires room { length buffer.old ≡ buffer_len }
        ensures same { length buffer.new ≡ length buffer.old }
        ensures fits { fits result }
        ensures failed { self.new.failed ≡ self.old.failed + failures_of result }
        ensures told { AddsTo None (heard buffer.new result) None }
        ensures device { self.new.local ≡ self.old.local }
        ensures goes_on { GoesOn result }
    {
        self.choose_mode();
        let answer = read_one(&self.clock, &self.socket, buffer);
        self.fails = false;
        if answer == NextLen::Failed {
            self.failed += 1;
            self.fails = true;
        }
        answer
    }

    /// Has the next read wait, for 50 milliseconds at most. False after one that failed.
    fn wait(&mut self) -> bool {
        if self.fails {
            return false;
        }
        if !self.blocks {
            self.blocks = self.socket.set_nonblocking(false).is_ok();
        }
        self.awaits = self.blocks;
        self.awaits
    }

    fn failures(&self) -> u64 {
        self.failed
    }
}
