//! The counts of a running router, shown by a thread of their own.

ghost use Rattle.std.specs.Prelude.{◌≤◌, length};

use counts_page::{Closings, CountsPage};
use metrics_server::{Room, serve};
use packet_ledger::{Book, Look};
use process_packet::Underlay;
use std::alloc::{AllocError, Global};
use std::net::{Net, TcpListener, TcpStream};
use std::rt::Clock;
use std::sync::atomic::{AtomicU64, Ordering};
use std::sync::{Arc, Wait};
use std::thread::{Builder, JoinHandle, Threads};
use std::time::{SystemTime, UNIX_EPOCH};
use udp_devices::socket_address;
use worker_parts::RunBrand;
use worker_threads::STACK;

/// Where the counts of a running router are shown, and which version runs.
#[derive(Clone, Copy)]
pub struct Metrics {
    pub address: Underlay,
    pub version: &'static str,
}

/// A socket at that address, and the version.
#[derive(Drop)]
pub(crate) struct Listening {
    listener: TcpListener,
    version: &'static str,
}

/// Opens a socket at an address. None where it can't be had.
pub(crate) fn listen<R>(rt: &R, metrics: Metrics) -> Option<Listening>
where
    R: Net<Listener = TcpListener, Stream = TcpStream>,
{
    let listener = TcpListener::bind(rt, socket_address(metrics.address)).ok()?;
    listener.set_nonblocking(true).ok()?;
    Some(Listening {
        listener,
        version: metrics.version,
    })
}

/// The thread that shows the counts. It can only be ended.
pub(crate) struct Showing<N: RunBrand, R: Wait + Drop> {
    stop: Arc<AtomicU64, Global>,
    closings: Arc<Closings, Global>,
    thread: JoinHandle<CountsPage<N, R>>,
}

// All that the thread is given but its socket, and what stays here.
#[derive(Drop)]
struct Parts<N: RunBrand, R: Wait + Drop> {
    stop: Arc<AtomicU64, Global>,
    closings: Arc<Closings, Global>,
    theirs: Arc<AtomicU64, Global>,
    page: CountsPage<N, R>,
    room: Room,
}

// Seconds since 1970; 0 where the clock can't be read.
fn seconds_now<R: Clock>(rt: &R) -> u64 {
    match SystemTime::now(rt) {
        Ok(now) => match now.duration_since(UNIX_EPOCH) {
            Ok(since) => since.as_secs(),
            Err(_) => 0,
        },
        Err(_) => 0,
    }
}

fn parts_for<N: RunBrand, R: Wait + Clock + Copy + Drop>(
    rt: R,
    alloc: Global,
    book: Arc<Book<N>, Global>,
    interfaces: &[u16],
    version: &'static str,
) -> Result<Parts<N, R>, AllocError>
    requires { length interfaces.now ≤ N.workers }
{
    let stop = Arc::new(alloc, AtomicU64::new(0))?;
    let theirs = Arc::try_clone(&stop)?;
    let closings = Arc::new(alloc, Closings::new(alloc, interfaces)?)?;
    let noted = Arc::try_clone(&closings)?;
    let start = seconds_now(&rt);
    let page = CountsPage::new(rt, alloc, book, interfaces, noted, version, start)?;
    let room = Room::new(alloc)?;
    Ok(Parts {
        stop,
        closings,
        theirs,
        page,
        room,
    })
}

/// Why the counts can't be shown.
pub(crate) enum ShowFault {
    NoMemory,
    Thread,
}

impl<N, R> Showing<N, R>
where
    N: RunBrand + Send + Sync + 'static,
    R: Threads + Wait + Clock + Copy + Send + Drop + 'static,
{
    /// Shows what is posted into a book to those who connect, for links with these interfaces.
    pub(crate) fn begin(
        rt: R,
        alloc: Global,
        book: Arc<Book<N>, Global>,
        interfaces: &[u16],
        listening: Listening,
    ) -> Result<Showing<N, R>, ShowFault>
        requires { length interfaces.now ≤ N.workers }
    {
        let Listening { listener, version } = listening;
        let Ok(parts) = parts_for(rt, alloc, book, interfaces, version) else {
            return Err(ShowFault::NoMemory);
        };
        let Parts {
            stop,
            closings,
            theirs,
            page,
            room,
        } = parts;
        let builder = Builder::new().stack_size(STACK);
        match builder.spawn(&rt, move || serve(&rt, &listener, &theirs, page, room)) {
            Ok(thread) => Ok(Showing {
                stop,
                closings,
                thread,
            }),
            Err(_) => Err(ShowFault::Thread),
        }
    }
}

impl<N: RunBrand, R: Wait + Drop> Showing<N, R> {
    /// Shows that the link with an interface was closed.
    pub(crate) fn close(&self, interface: u16) {
        self.closings.close(interface);
    }
}

impl<N: RunBrand, R: Threads + Wait + Drop> Showing<N, R> {
    /// Ends it, and gives what it showed last.
    pub(crate) fn end(self, rt: &R) -> Look<N> {
        let Showing {
            stop,
            closings: _,
            thread,
        } = self;
        stop.store(1, Ordering::SeqCst);
        thread.join(rt).into_look()
    }
}
