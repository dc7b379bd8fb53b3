//! One packet through the running router, on this machine's own addresses.

use cli_run::RunFault;
use cmac_core::Cmac;
use hop_check::beacon;
use path_fields::Hop;
use process_packet::{Config, Ip, Underlay};
use router_config::read_config;
use sample_packets::{FIRST, KEY, MAC_AT, PATH_AT, with_bytes};
use std::io::{self, BufReader, Read, Write};
use std::net::{Net, TcpListener, TcpStream, UdpSocket};
use std::process::Abort;
use std::sync::Wait;
use std::test::*;
use std::thread;
use std::thread::Threads;
use std::time::{Clock, Duration, SystemTime, UNIX_EPOCH};
use udp_router::{Metrics, run_router};

/// The router of the first datagram, with its links on this machine.
const CONFIGURATION: &str =
    "version = 1\nisd_as = \"1-ff00:0:110\"\nkey = \"2b7e151628aed2a6abf7158809cf4f3c\"\n\
    internal = \"127.0.0.1:41000\"\nhost_port = 30041\nprocessors = 1\ncapacity = 4\nseed = 0\nlink = [\n\
    {id=1, kind=\"parent\", local=\"127.0.0.1:41001\", remote=\"127.0.0.1:42001\"},\n\
    {id=2, kind=\"child\", local=\"127.0.0.1:41002\", remote=\"127.0.0.1:42002\"}]\n";

/// The identifier of the datagram's segment.
const SEGMENT_ID: u16 = 0x1234;

/// The MAC of its second hop field, for a timestamp.
fn mac_for(timestamp: u32) -> [u8; 6] {
    let mut hops = [Hop {
        reserved_flags: 0,
        ingress_alert: false,
        egress_alert: false,
        expiry: 63,
        construction_ingress: 1,
        construction_egress: 2,
        mac: [0; 6],
    }];
    beacon(&[Cmac::new(&KEY)], SEGMENT_ID, timestamp, &mut hops);
    hops[0].mac
}

/// The datagram, made in the present minute.
fn fresh<R: Clock>(rt: &R) -> io::Result<[u8; 92]> {
    let since = match SystemTime::now(rt)?.duration_since(UNIX_EPOCH) {
        Ok(since) => since,
        Err(_) => return Err(io::Error::from(io::ErrorKind::InvalidData)),
    };
    let timestamp = match u32::try_from(since.as_secs() / 60 * 60) {
        Ok(timestamp) => timestamp,
        Err(_) => return Err(io::Error::from(io::ErrorKind::InvalidData)),
    };
    let dated = with_bytes(FIRST, PATH_AT + 8, &timestamp.to_be_bytes());
    Ok(with_bytes(dated, MAC_AT, &mac_for(timestamp)))
}

/// The most bytes that come back: those of an answer.
const MOST: usize = 1232;

/// The neighbours of both links, and the datagram that link 1's sends.
#[derive(Drop)]
struct Neighbours {
    parent: UdpSocket,
    child: UdpSocket,
    datagram: [u8; 92],
    is_answered: bool,
}

/// The neighbour's socket at an address, which waits for 10 seconds at most.
fn neighbour<R: Net>(rt: &R, at: &str) -> io::Result<UdpSocket> {
    let socket = UdpSocket::bind(rt, at)?;
    socket.set_read_timeout(Some(Duration::from_secs(10)))?;
    Ok(socket)
}

impl Neighbours {
    /// The datagram crosses, or is answered.
    fn new<R: Net>(rt: &R, datagram: [u8; 92], is_answered: bool) -> io::Result<Neighbours> {
        let parent = neighbour(rt, "127.0.0.1:42001")?;
        Ok(Neighbours {
            parent,
            child: neighbour(rt, "127.0.0.1:42002")?,
            datagram,
            is_answered,
        })
    }

    /// The neighbour that waits, and the port of the router's own end of its link.
    fn waiting(&self) -> (&UdpSocket, u16) {
        if self.is_answered {
            (&self.parent, 41001)
        } else {
            (&self.child, 41002)
        }
    }

    /// Sends the datagram, and keeps what comes from the router's own end of the link.
    fn cross(&self, came: &mut Vec<u8>) -> io::Result<()> {
        self.parent.send_to(&self.datagram, "127.0.0.1:41001")?;
        let mut room = [0u8; MOST];
        let (socket, port) = self.waiting();
        let (len, from) = socket.recv_from(&mut room)?;
        if from.port() == port {
            came.extend_from_slice(&room[..len])?;
        }
        Ok(())
    }
}

/// Where the counts are shown.
const SHOWN_AT: &str = "127.0.0.1:41003";

/// What is shown once the datagram has crossed.
const SHOWN: [&str; 6] = [
    "\nrouter_input_pkts_total{interface=\"0\"} 0\nrouter_input_pkts_total{interface=\"1\"} 1\n",
    "\nrouter_input_pkts_total{interface=\"2\"} 0\n",
    "\nrouter_output_pkts_total{interface=\"0\"} 0\nrouter_output_pkts_total{interface=\"1\"} 0\n",
    "\nrouter_output_pkts_total{interface=\"2\"} 1\n",
    "\nrouter_dropped_pkts_total{cause=\"1\",reason=\"short\"} 0\n",
    "\nyewpleat_build_info{version=\"7\"} 1\n",
];

/// Whether a page shows that the datagram has crossed.
fn shows_it(page: &[u8]) -> bool {
    let Ok(text) = str::from_utf8(page) else {
        return false;
    };
    for line in SHOWN {
        if !text.contains(line) {
            return false;
        }
    }
    text.starts_with("HTTP/1.1 200 OK\r\n")
}

/// What is shown now.
fn page_now<R: Net + AllocGlobal>(rt: &R) -> io::Result<Vec<u8>> {
    let mut stream = TcpStream::connect(rt, SHOWN_AT)?;
    stream.write_all(b"GET /metrics HTTP/1.1\r\nHost: router\r\n\r\n")?;
    let mut page = Vec::new(rt.alloc());
    stream.read_to_end(&mut page)?;
    Ok(page)
}

/// Looks until the datagram is shown, since a worker posts what it counted only once it has nothing
/// to do; for some seconds at most. Whether it is.
fn comes_to_be_shown<R: Net + AllocGlobal + Clock>(rt: &R) -> bool {
    for _ in 0..500 {
        if let Ok(page) = page_now(rt) {
            if shows_it(page.as_slice()) {
                return true;
            }
        }
        thread::sleep(rt, Duration::from_millis(10));
    }
    false
}

/// The commands that the router reads: before the first is read, a datagram is sent from the
/// neighbour of link 1 to that link, and what leaves there or by link 2 is waited for, and then,
/// where its counts are shown, that they show it.
#[derive(Drop)]
struct Lead {
    rt: HostRuntime,
    neighbours: Neighbours,
    left: &'static [u8],
    asked: bool,
    came: Vec<u8>,
    is_seen: bool,
}

impl Read for Lead {
    fn read(&mut self, buf: &mut [u8]) -> io::Result<usize> {
        if !self.asked {
            self.asked = true;
            self.neighbours.cross(&mut self.came)?;
            self.is_seen = self.neighbours.is_answered || comes_to_be_shown(&self.rt);
        }
        let count = self.left.len().min(buf.len());
        let (front, rest) = self.left.split_at(count);
        buf[..count].copy_from_slice(front);
        self.left = rest;
        Ok(count)
    }
}

/// What crossed or came back, and what the router wrote.
#[derive(Drop)]
struct Outcome {
    is_seen: bool,
    came: Vec<u8>,
    text: Vec<u8>,
}

/// The commands, and what is sent before the first.
fn commands<R>(rt: &R, host: HostRuntime, datagram: [u8; 92], is_answered: bool) -> BufReader<Lead>
where
    R: Abort + AllocGlobal + Net,
{
    let neighbours = Neighbours::new(rt, datagram, is_answered).expect(rt, "sockets");
    let lead = Lead {
        rt: host,
        neighbours,
        left: b"end\n",
        asked: false,
        came: Vec::new(rt.alloc()),
        is_seen: false,
    };
    BufReader::new(rt.alloc(), lead).expect(rt, "memory")
}

/// Where the counts are shown; not at all while a datagram is answered.
fn metrics_for(is_answered: bool) -> Option<Metrics> {
    if is_answered {
        return None;
    }
    Some(Metrics {
        address: Underlay {
            ip: Ip::V4([127, 0, 0, 1]),
            port: 41003,
        },
        version: "7",
    })
}

/// What the router writes until its commands end.
fn written<R>(rt: R, reader: &mut BufReader<Lead>, metrics: Option<Metrics>) -> Vec<u8>
where
    R: Abort
        + AllocGlobal
        + Net<Listener = TcpListener, Stream = TcpStream>
        + Threads
        + Wait
        + Clock
        + Copy
        + Send
        + Drop
        + 'static,
{
    let config = read_config(rt.alloc(), CONFIGURATION).expect(&rt, "configuration");
    let mut text = Vec::new(rt.alloc());
    let result = run_router(rt, rt.alloc(), config, metrics, reader, &mut text);
    result.expect(&rt, "a router that runs");
    text
}

/// A run of the router, while a datagram crosses or is answered.
fn run_one<R>(rt: R, host: HostRuntime, datagram: [u8; 92], is_answered: bool) -> Outcome
where
    R: Abort
        + AllocGlobal
        + Net<Listener = TcpListener, Stream = TcpStream>
        + Threads
        + Wait
        + Clock
        + Copy
        + Send
        + Drop
        + 'static,
{
    let mut reader = commands(&rt, host, datagram, is_answered);
    let text = written(rt, &mut reader, metrics_for(is_answered));
    let came = reader.get_ref().came.clone().expect(&rt, "memory");
    let is_seen = reader.get_ref().is_seen;
    Outcome {
        is_seen,
        came,
        text,
    }
}

/// Whether it is the datagram as it leaves: one hop further, its identifier chained, and else as it was.
fn left_well(came: &[u8], sent: &[u8; 92]) -> bool {
    let mut wanted = *sent;
    wanted[PATH_AT] = 0x02;
    wanted[PATH_AT + 6] ^= sent[MAC_AT];
    wanted[PATH_AT + 7] ^= sent[MAC_AT + 1];
    came == wanted.as_slice()
}

const CROSSED: &[u8] =
    b"ready\nlink 0 sent 0\nlink 1 sent 0\nlink 2 sent 1\nreceived 1\nsent 1\nanswered 0\n";

/// Where the SCMP message of an answer is.
const MESSAGE_AT: usize = 84;

/// Whether it tells that the MAC of the hop field at byte 60 is wrong, and quotes the whole datagram.
fn answered_well(came: &[u8], sent: &[u8; 92]) -> bool {
    match came.get(MESSAGE_AT..) {
        Some([4, 51, _, _, 0, 0, 0, 60, quote @ ..]) => quote == sent.as_slice(),
        _ => false,
    }
}

const ANSWERED: &[u8] =
    b"ready\nlink 0 sent 0\nlink 1 sent 1\nlink 2 sent 0\nreceived 1\nsent 0\nanswered 1\n";

/// The datagram crosses the router.
fn crosses<R>(rt: R, host: HostRuntime, sent: [u8; 92])
where
    R: Abort
        + AllocGlobal
        + Net<Listener = TcpListener, Stream = TcpStream>
        + Threads
        + Wait
        + Clock
        + Copy
        + Send
        + Drop
        + 'static,
{
    let outcome = run_one(rt, host, sent, false);
    assert!(rt; outcome.is_seen);
    assert!(rt; left_well(outcome.came.as_slice(), &sent));
    assert!(rt; outcome.text.as_slice() == CROSSED);
}

/// The datagram is answered to its sender.
fn is_answered<R>(rt: R, host: HostRuntime, sent: [u8; 92])
where
    R: Abort
        + AllocGlobal
        + Net<Listener = TcpListener, Stream = TcpStream>
        + Threads
        + Wait
        + Clock
        + Copy
        + Send
        + Drop
        + 'static,
{
    let outcome = run_one(rt, host, sent, true);
    assert!(rt; answered_well(outcome.came.as_slice(), &sent));
    assert!(rt; outcome.text.as_slice() == ANSWERED);
}

/// A datagram crosses the router, and one whose MAC is wrong is answered to its sender.
#[test]
fn udp_loopback(rt: HostRuntime) {
    let sent = fresh(&rt).expect(&rt, "clock");
    crosses(rt, rt, sent);
    is_answered(rt, rt, with_bytes(sent, MAC_AT, &[sent[MAC_AT] ^ 1]));
}

/// The port of an address that is taken.
const TAKEN: &str = "41102";

/// The configuration in which a port is the taken one.
fn with_taken<R: Abort + AllocGlobal>(rt: &R, port: &str) -> Config {
    let text = CONFIGURATION
        .replace(rt.alloc(), port, TAKEN)
        .expect(rt, "memory");
    read_config(rt.alloc(), text.as_str()).expect(rt, "configuration")
}

/// Whether the fault of a router one of whose ports is taken names this link, and nothing is written.
fn is_told<R>(rt: R, port: &str, link: u16) -> bool
where
    R: Abort
        + AllocGlobal
        + Net<Listener = TcpListener, Stream = TcpStream>
        + Threads
        + Wait
        + Clock
        + Copy
        + Send
        + Drop
        + 'static,
{
    let config = with_taken(&rt, port);
    let mut reader = b"end\n".as_slice();
    let mut text = Vec::new(rt.alloc());
    let result = run_router(rt, rt.alloc(), config, None, &mut reader, &mut text);
    result == Err(RunFault::Socket(link)) && text.is_empty()
}

/// Where an address is taken, the fault names its link, and nothing is written.
#[test]
fn a_taken_address_is_told(rt: HostRuntime) {
    let taken = UdpSocket::bind(&rt, "127.0.0.1:41102").expect(&rt, "socket");
    assert!(rt; is_told(rt, "41002", 2));
    assert!(rt; is_told(rt, "41000", 0));
    drop(taken);
}
