//! Which links were closed.

ghost use Rattle.std.specs.Prelude.{◌≡◌, ◌≤◌, IfOk, false, length};

use std::alloc::{AllocError, Global};
use std::marker::Model;
use std::sync::atomic::{AtomicU64, Ordering};

// A link's interface, and 1 once it was closed.
#[derive(Drop)]
struct Link {
    interface: u16,
    closed: AtomicU64,
}

/// Which links were closed, in ascending order of their interfaces. Contracts see these.
#[derive(Drop)]
pub struct Closings {
    links: Vec<Link>,
}

impl Model for Closings {
    ghost use Rattle.std.specs.Prelude.{ℕ, List, map};

    ghost Value = { List ℕ };

    ghost view = { λ closings. map (λ link. link.interface) closings.links.items };
}

impl Closings {
    /// Links with these interfaces, none of them closed. At `Err` no memory was left.
    pub fn new(alloc: Global, interfaces: &[u16]) -> Result<Closings, AllocError>
        ensures { IfOk result (λ closings. closings ≡ interfaces.now) }
    {
        let mut links = Vec::with_capacity(alloc, interfaces.len())?;
        for interface in interfaces {
            links.push(Link {
                interface: *interface,
                closed: AtomicU64::new(0),
            })?;
        }
        Ok(Closings { links })
    }

    /// Notes that the link with an interface was closed.
    pub fn close(&self, interface: u16) {
        for link in self.links.as_slice() {
            if link.interface == interface {
                link.closed.store(1, Ordering::SeqCst);
            }
        }
    }

    /// Whether the link at a place was closed; false where there is none.
    pub fn is_closed(&self, place: usize) -> bool
        ensures { length self.now ≤ place → result ≡ false }
    {
        match self.links.get(place) {
            Some(link) => link.closed.load(Ordering::SeqCst) != 0,
            None => false,
        }
    }
}
