//! A path between two hosts, tried.

ghost use Rattle.std.specs.Prelude.{◌≤◌, IfOk, length};

use crate::beacon::{Beacon, Carried};
use crate::message::{Reply, SCMP, UDP, reply_of, request};
use crate::packet::{Asked, datagram};
use crate::plan::{Crossing, Plan, Spot, plan_of, refused};
use crate::segment::Place;
use std::alloc::Global;
use std::io;
use std::net::{Net, SocketAddr, UdpSocket};
use std::rt::{Clock, Files};
use std::time::{Duration, Instant};

/// How many seconds an answer is waited for.
const PATIENCE: u64 = 5;

/// A socket of a host, which waits for a few seconds.
fn socket_at<R: Net>(rt: &R, host: Spot) -> io::Result<UdpSocket> {
    let socket = UdpSocket::bind(rt, host.address())?;
    socket.set_read_timeout(Some(Duration::from_secs(PATIENCE)))?;
    Ok(socket)
}

/// A path between two hosts, with the sockets of the hosts and of the core AS's control service.
#[derive(Drop)]
pub struct Probe {
    plan: Plan,
    near: UdpSocket,
    far: UdpSocket,
    core: UdpSocket,
}

/// The probe that these words ask for: the addresses of the two hosts, and the files of the configurations of
/// the routers by which the packet leaves the first AS, enters and leaves the core AS, and enters the last one.
/// Of each its first link is used. The hosts are the control services of their ASes too; the core AS has a
/// control service of its own.
pub fn probe_of<R: Files + Net + Clock + AllocGlobal>(
    rt: &R,
    words: &[String],
) -> io::Result<Probe> {
    if words.len() != 6 {
        return Err(refused("FROM TO FIRST CORE CORE LAST"));
    }
    let near = Spot::named(words[0].as_str())?;
    let far = Spot::named(words[1].as_str())?;
    let plan = plan_of(rt, &words[2..], near, far)?;
    let near = socket_at(rt, near)?;
    let far = socket_at(rt, far)?;
    let core = socket_at(rt, plan.first.core_control)?;
    Ok(Probe {
        plan,
        near,
        far,
        core,
    })
}

/// A datagram that came: its length, its sender, and after how long.
#[derive(Clone, Copy)]
struct Came {
    len: usize,
    from: SocketAddr,
    micros: u128,
}

/// Sends a datagram from a host into the network, and waits for what comes to a host.
fn exchange<R: Clock>(
    rt: &R,
    from: &UdpSocket,
    entry: Spot,
    bytes: &[u8],
    to: &UdpSocket,
    room: &mut [u8],
) -> io::Result<Came>
    ensures { IfOk result (λ came. came.len ≤ length room.new) }
{
    let start = Instant::now(rt)?;
    from.send_to(bytes, entry.address())?;
    let (len, from) = to.recv_from(room)?;
    let micros = start.elapsed(rt)?.as_micros();
    Ok(Came { len, from, micros })
}

/// A host and the router by which it sends.
#[derive(Clone, Copy)]
struct Station<'a> {
    socket: &'a UdpSocket,
    entry: Spot,
}

/// Has a datagram carried from one host to another, and tells how many microseconds that took. It has to arrive
/// byte for byte as it is wanted.
fn carry<R: Clock>(
    rt: &R,
    from: Station<'_>,
    to: Station<'_>,
    carried: Carried,
) -> io::Result<u128> {
    let mut room = [0u8; 1500];
    let came = exchange(
        rt,
        from.socket,
        from.entry,
        carried.sent.as_slice(),
        to.socket,
        &mut room,
    )?;
    if &room[..came.len] != carried.wanted.as_slice() {
        return Err(refused("another datagram came"));
    }
    Ok(came.micros)
}

/// Prints the number of an AS and one of its interfaces.
fn print_interface<R: Print>(rt: &R, place: Place, interface: u16) -> io::Result<()> {
    let Place {
        isd,
        autonomous_system: number,
        ..
    } = place;
    let (high, middle, low) = (number >> 32, number >> 16 & 0xffff, number & 0xffff);
    print!(rt; "{isd}-{high:x}:{middle:x}:{low:x} interface {interface}")
}

/// Prints what became of a beacon.
fn print_beacon<R: Print>(rt: &R, beacon: &Beacon, there: u128, back: u128) -> io::Result<()> {
    let [first, second] = beacon.segment.hops;
    print!(rt; "a beacon crossed from ")?;
    print_interface(rt, beacon.from, first.construction_egress)?;
    print!(rt; " to ")?;
    print_interface(rt, beacon.to, second.construction_ingress)?;
    println!(rt; " in {there} us, its answer back in {back} us")
}

/// Sends a beacon from one control service to another, which answers it, and prints that both came.
fn try_beacon<R: Clock + Print + AllocGlobal>(
    rt: &R,
    from: Station<'_>,
    to: Station<'_>,
    beacon: &Beacon,
) -> io::Result<()> {
    let out = beacon.out(rt.alloc())?;
    let there = carry(rt, from, to, out)?;
    let answer = beacon.answer(rt.alloc())?;
    let back = carry(rt, to, from, answer)?;
    print_beacon(rt, beacon, there, back)
}

/// Prints what a router answered, and after how long.
fn print_reply<R: Print>(rt: &R, sequence: u8, reply: Reply, micros: u128) -> io::Result<()> {
    let Reply {
        isd,
        autonomous_system: [high, middle, low],
        interface,
    } = reply;
    println!(rt;
        "{sequence} {isd}-{high:x}:{middle:x}:{low:x} interface {interface}, after {micros} us"
    )
}

impl Probe {
    /// Sends a beacon over a link each way, first from the core AS, and prints what comes.
    fn cross<R: Clock + Print + AllocGlobal>(
        &self,
        rt: &R,
        crossing: &Crossing,
        other: &UdpSocket,
    ) -> io::Result<()> {
        let core = Station {
            socket: &self.core,
            entry: crossing.core_entry,
        };
        let other = Station {
            socket: other,
            entry: crossing.other_entry,
        };
        try_beacon(rt, core, other, &crossing.down)?;
        try_beacon(rt, other, core, &crossing.up)
    }

    /// Sends a datagram into the network, and waits for what comes to a host.
    fn send<R: Clock + AllocGlobal>(
        &self,
        rt: &R,
        asked: Asked,
        protocol: u8,
        payload: &[u8],
        host: &UdpSocket,
        room: &mut [u8],
    ) -> io::Result<Came>
        ensures { IfOk result (λ came. came.len ≤ length room.new) }
    {
        let bytes = datagram(rt.alloc(), &self.plan.way(), asked, protocol, payload)?;
        exchange(
            rt,
            &self.near,
            self.plan.first.other_entry,
            bytes.as_slice(),
            host,
            room,
        )
    }

    /// Sends one packet from host to host, and prints what arrives.
    fn ping<R: Clock + Print + AllocGlobal>(&self, rt: &R) -> io::Result<()> {
        let payload = b"\x79\x18\x79\x18\x00\x0d\x00\x00hello";
        let mut room = [0u8; 1500];
        let Came { len, from, micros } = self.send(
            rt,
            Asked::Nothing,
            UDP,
            payload,
            &self.far,
            &mut room,
        )?;
        println!(rt; "the packet arrived: {len} bytes by {from}, after {micros} us")
    }

    /// Asks the router at an interface of the path, and prints what it answers.
    fn trace<R: Clock + Print + AllocGlobal>(
        &self,
        rt: &R,
        sequence: u8,
        asked: Asked,
    ) -> io::Result<()> {
        let mut room = [0u8; 1500];
        let came = self.send(rt, asked, SCMP, &request(sequence), &self.near, &mut room)?;
        match reply_of(&room[..came.len]) {
            Some(reply) => print_reply(rt, sequence, reply, came.micros),
            None => Err(refused("another answer")),
        }
    }

    /// Sends beacons over each link, then one packet over the segments that they made, and then asks the router at
    /// each interface of the path, and prints what comes.
    pub fn try_all<R: Clock + Print + AllocGlobal>(&self, rt: &R) -> io::Result<()> {
        self.cross(rt, &self.plan.first, &self.near)?;
        self.cross(rt, &self.plan.last, &self.far)?;
        self.ping(rt)?;
        self.trace(rt, 1, Asked::Leaving)?;
        self.trace(rt, 2, Asked::EnteringCore)?;
        self.trace(rt, 3, Asked::LeavingCore)?;
        self.trace(rt, 4, Asked::Entering)
    }
}
