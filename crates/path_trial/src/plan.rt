//! What is to be tried, as the configurations of the routers on the path tell.

ghost use Rattle.std.specs.Prelude.{◌≡◌, length};

use crate::beacon::Beacon;
use crate::packet::Way;
use crate::segment::{End, Place, segment_over};
use process_packet::{Config, Ip, Underlay};
use router_config::{read_config, read_underlay};
use std::net::{IpAddr, Ipv4Addr, SocketAddr};
use std::rt::{Clock, Files};
use std::time::{SystemTime, UNIX_EPOCH};
use std::{fs, io};

/// The service number of control services.
const CONTROL: u16 = 2;

/// What this can't do.
pub fn refused(what: &'static str) -> io::Error {
    io::Error::new(io::ErrorKind::InvalidInput, what)
}

/// An IPv4 address and a port.
#[derive(Clone, Copy, PartialEq, Eq)]
pub struct Spot {
    pub ip: [u8; 4],
    pub port: u16,
}

impl Spot {
    /// The spot of an underlay's address.
    fn of(at: Underlay) -> io::Result<Spot> {
        match at.ip {
            Ip::V4(ip) => Ok(Spot { ip, port: at.port }),
            Ip::V6(_) => Err(refused("no IPv4 address")),
        }
    }

    /// The spot that a word names.
    pub fn named(word: &str) -> io::Result<Spot> {
        match read_underlay(word) {
            Some(at) => Spot::of(at),
            None => Err(refused("no IPv4 address and port")),
        }
    }

    /// Its address, as the system has it.
    pub fn address(self) -> SocketAddr {
        SocketAddr::new(IpAddr::V4(Ipv4Addr::from_octets(self.ip)), self.port)
    }
}

/// The configuration that a file holds.
pub fn config_at<R: Files + AllocGlobal>(rt: &R, path: &str) -> io::Result<Config> {
    let text = fs::read_to_string(rt, path)?;
    match read_config(rt.alloc(), text.as_str()) {
        Ok(config) => Ok(config),
        Err(_) => Err(refused("no configuration")),
    }
}

/// A router's end of its first link.
fn end_of(config: &Config) -> io::Result<End<'_>> {
    match config.links.first() {
        Some(link) => Ok(End {
            key: &config.key,
            interface: link.id,
        }),
        None => Err(refused("no link")),
    }
}

/// Where the control service of a router's AS is.
fn control_service(config: &Config) -> io::Result<Spot> {
    match config
        .services
        .iter()
        .find(|service| service.number == CONTROL)
    {
        Some(service) => Spot::of(service.at),
        None => Err(refused("no control service")),
    }
}

/// The present minute.
fn minute<R: Clock>(rt: &R) -> io::Result<u32> {
    let Ok(since) = SystemTime::now(rt)?.duration_since(UNIX_EPOCH) else {
        return Err(refused("the clock is before 1970"));
    };
    match u32::try_from(since.as_secs() / 60 * 60) {
        Ok(minute) => Ok(minute),
        Err(_) => Err(refused("the clock is after 2106")),
    }
}

/// A router, by what is needed beside it: its end of the link, the control service of its AS, and where it takes
/// packets of its AS.
#[derive(Clone, Copy)]
struct Side<'a> {
    end: End<'a>,
    control: Spot,
    place: Place,
    entry: Spot,
}

fn side_of(config: &Config) -> io::Result<Side<'_>> {
    let control = control_service(config)?;
    Ok(Side {
        end: end_of(config)?,
        control,
        place: Place {
            isd: config.isd,
            autonomous_system: config.autonomous_system,
            host: control.ip,
        },
        entry: Spot::of(config.internal)?,
    })
}

/// A link between the core AS and another: a beacon each way, where the router at each end takes packets of its
/// AS, and the control services.
#[derive(Clone, Copy)]
pub struct Crossing {
    /// From the core AS. Packets take the segment that it makes.
    pub down: Beacon,
    /// To the core AS.
    pub up: Beacon,
    pub core_entry: Spot,
    pub other_entry: Spot,
    pub core_control: Spot,
    pub other_control: Spot,
}

/// The beacon over a link from the one side to the other.
fn beacon_over(first: Side<'_>, second: Side<'_>, segment_id: u16, now: u32) -> Beacon {
    Beacon {
        from: first.place,
        to: second.place,
        segment: segment_over(first.end, second.end, segment_id, now),
    }
}

/// The crossing of the first links of a router of the core AS and one of another AS.
fn crossing_over(core: &Config, other: &Config, at_core: u16, now: u32) -> io::Result<Crossing> {
    let core = side_of(core)?;
    let other = side_of(other)?;
    Ok(Crossing {
        down: beacon_over(core, other, at_core, now),
        up: beacon_over(other, core, at_core ^ 0xffff, now),
        core_entry: core.entry,
        other_entry: other.entry,
        core_control: core.control,
        other_control: other.control,
    })
}

/// The crossing over the routers of two configurations, to this host, which has to be the control service of the
/// other AS.
fn crossing_at<R: Files + AllocGlobal>(
    rt: &R,
    core: &str,
    other: &str,
    host: Spot,
    at_core: u16,
    now: u32,
) -> io::Result<Crossing> {
    let core = config_at(rt, core)?;
    let other = config_at(rt, other)?;
    let crossing = crossing_over(&core, &other, at_core, now)?;
    if crossing.other_control != host {
        return Err(refused("the host isn't the control service of its AS"));
    }
    Ok(crossing)
}

/// What is tried between two hosts: the links of the path between them.
#[derive(Clone, Copy)]
pub struct Plan {
    pub first: Crossing,
    pub last: Crossing,
}

impl Plan {
    /// The way of packets between the hosts.
    pub fn way(&self) -> Way {
        Way {
            from: self.first.down.to,
            to: self.last.down.to,
            up: self.first.down.segment,
            down: self.last.down.segment,
        }
    }
}

/// The plan for two hosts over the routers of these configurations.
pub fn plan_of<R: Files + Clock + AllocGlobal>(
    rt: &R,
    configs: &[String],
    from: Spot,
    to: Spot,
) -> io::Result<Plan>
    requires { length configs.now ≡ 4 }
{
    let now = minute(rt)?;
    let first = crossing_at(
        rt,
        configs[1].as_str(),
        configs[0].as_str(),
        from,
        0x1234,
        now,
    )?;
    let last = crossing_at(
        rt,
        configs[2].as_str(),
        configs[3].as_str(),
        to,
        0x5678,
        now,
    )?;
    Ok(Plan { first, last })
}
