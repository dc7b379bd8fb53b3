//! A warning, in words.

use crate::shown::Shown;
use process_packet::Underlay;
use std::fmt;

/// What will hurt in a lawful configuration.
#[derive(Clone, Copy)]
pub enum Warning {
    /// The internal address is unspecified.
    InternalUnspecified {
        internal: Underlay,
    },
    /// There are fewer buffers than a queue holds.
    FewBuffers {
        buffers: u32,
        capacity: u32,
    },
    /// There are more processors than the machine has cores.
    ManyProcessors {
        processors: u8,
        cores: usize,
    },
    /// A link's own address is the internal one.
    LocalIsInternal {
        link: u16,
        local: Underlay,
    },
    /// A link's own address is that of a link before it.
    SameLocal {
        link: u16,
        other: u16,
        local: Underlay,
    },
    /// Both ends of a link are one address.
    RemoteIsLocal {
        link: u16,
        remote: Underlay,
    },
    /// A link's ends are of two IP versions.
    OtherVersion {
        link: u16,
        local: Underlay,
        remote: Underlay,
    },
    /// No host can have the address of a link's other end.
    NoHost {
        link: u16,
        remote: Underlay,
    },
    /// No AS is named at a link's other end.
    NoNeighbor {
        link: u16,
    },
    /// A sibling is at an address of this router.
    OwnSibling {
        sibling: u16,
        at: Underlay,
    },
}

impl Warning {
    /// The words about a link.
    fn write_of_link<W: fmt::Write>(&self, f: &mut fmt::Formatter<W>) -> fmt::Result {
        match self {
            Warning::LocalIsInternal { link, local } => write!(
                f,
                "`local` of link {link} is {}, as `internal` is: only one socket can be bound there",
                Shown(local)
            ),
            Warning::SameLocal { link, other, local } => write!(
                f,
                "`local` of link {link} is {}, as that of link {other} is: only one socket can be bound there",
                Shown(local)
            ),
            Warning::RemoteIsLocal { link, remote } => write!(
                f,
                "`remote` of link {link} is {}, its own `local`: what leaves by it comes back",
                Shown(remote)
            ),
            Warning::OtherVersion {
                link,
                local,
                remote,
            } => write!(
                f,
                "`remote` of link {link} is {}, of another IP version than its `local`, {}: nothing leaves by it",
                Shown(remote),
                Shown(local)
            ),
            Warning::NoHost { link, remote } => write!(
                f,
                "`remote` of link {link} is {}, which no host can have, seen from its `local`: nothing leaves by it",
                Shown(remote)
            ),
            Warning::NoNeighbor { link } => write!(
                f,
                "`neighbor` of link {link} is missing: no beacons cross this link"
            ),
            _ => Ok(()),
        }
    }
}

impl fmt::Display for Warning {
    fn fmt<W: fmt::Write>(&self, f: &mut fmt::Formatter<W>) -> fmt::Result {
        match self {
            Warning::InternalUnspecified { internal } => write!(
                f,
                "`internal` is {}, which is no router's address: answers to senders would come from it",
                Shown(internal)
            ),
            Warning::FewBuffers { buffers, capacity } => write!(
                f,
                "`buffers` is {buffers}, below `capacity`, {capacity}: datagrams are dropped (cause 18) before a queue is full"
            ),
            Warning::ManyProcessors { processors, cores } => write!(
                f,
                "`processors` is {processors}, and this machine has {cores} cores: more than that gain nothing"
            ),
            Warning::OwnSibling { sibling, at } => write!(
                f,
                "`at` of sibling {sibling} is {}, an address of this router: its packets come back",
                Shown(at)
            ),
            other => other.write_of_link(f),
        }
    }
}
