//! The routers that run here.

use process_packet::Config;
use router_config::read_config;
use sample_packets::CONFIGURATION;
use std::alloc::Global;

/// A router, with these lines for its number of processors and the capacity of its pipes.
#[derive(Clone, Copy)]
pub enum Routed {
    /// The first datagram's router, of four links.
    Plain(&'static str),
    /// A router like it, of three links, whose link 2 has two bands.
    TwoBands(&'static str),
}

/// One processor, and pipes of this capacity.
pub const CAPACITY_1: Routed = Routed::Plain("processors = 1\ncapacity = 1\n");

pub const CAPACITY_2: Routed = Routed::Plain("processors = 1\ncapacity = 2\n");

pub const CAPACITY_4: Routed = Routed::Plain("processors = 1\ncapacity = 4\n");

pub const CAPACITY_64: Routed = Routed::Plain("processors = 1\ncapacity = 64\n");

/// The same with few buffers, so that a start takes memory less often.
pub const FEW_BUFFERS: Routed = Routed::Plain("processors = 1\ncapacity = 4\nbuffers = 4\n");

pub const TWO_PROCESSORS: Routed = Routed::Plain("processors = 2\ncapacity = 64\n");

pub const TWO_BANDS_2: Routed = Routed::TwoBands("processors = 1\ncapacity = 2\n");

pub const TWO_BANDS_64: Routed = Routed::TwoBands("processors = 1\ncapacity = 64\n");

/// The configuration of a router; none where there is no memory for it.
pub fn router(alloc: Global, routed: Routed) -> Option<Config> {
    let (text, sizes) = match routed {
        Routed::Plain(sizes) => (CONFIGURATION, sizes),
        Routed::TwoBands(sizes) => (TWO_BANDS, sizes),
    };
    let text = text.replace(alloc, "processors = 1\ncapacity = 4\n", sizes);
    read_config(alloc, text.ok()?.as_str()).ok()
}

/// A router of 33 links, each to a core AS, with 4 processors, whose pipes hold one entry each.
pub fn wide_router(alloc: Global) -> Option<Config> {
    read_config(alloc, WIDE).ok()
}

/// A router like the first datagram's, of three links, whose link 2 has two bands.
const TWO_BANDS: &str =
    "version = 2\nisd_as = \"1-ff00:0:110\"\nkey = \"2b7e151628aed2a6abf7158809cf4f3c\"\n\
    internal = \"10.0.0.1:30000\"\ninternal_bands = 1\nhost_port = 30041\nprocessors = 1\ncapacity = 4\nseed = 0\nlink = [\n\
    {id=1, kind=\"parent\", local=\"10.1.0.1:40000\", remote=\"10.1.0.2:40000\", bands=1},\n\
    {id=2, kind=\"child\", local=\"10.2.0.1:40000\", remote=\"10.2.0.2:40000\", bands=2},\n\
    {id=3, kind=\"core\", local=\"10.3.0.1:40000\", remote=\"10.3.0.2:40000\", bands=1}]\n\
    sibling = []\nservice = []\n";

const WIDE: &str =
    "version = 1\nisd_as = \"1-ff00:0:110\"\nkey = \"2b7e151628aed2a6abf7158809cf4f3c\"\n\
    internal = \"10.0.0.1:30000\"\nhost_port = 30041\nprocessors = 4\ncapacity = 1\nseed = 0\nlink = [\n\
    {id=1, kind=\"core\", local=\"10.1.0.1:40000\", remote=\"10.2.0.1:40000\"},\n\
    {id=2, kind=\"core\", local=\"10.1.0.2:40000\", remote=\"10.2.0.2:40000\"},\n\
    {id=3, kind=\"core\", local=\"10.1.0.3:40000\", remote=\"10.2.0.3:40000\"},\n\
    {id=4, kind=\"core\", local=\"10.1.0.4:40000\", remote=\"10.2.0.4:40000\"},\n\
    {id=5, kind=\"core\", local=\"10.1.0.5:40000\", remote=\"10.2.0.5:40000\"},\n\
    {id=6, kind=\"core\", local=\"10.1.0.6:40000\", remote=\"10.2.0.6:40000\"},\n\
    {id=7, kind=\"core\", local=\"10.1.0.7:40000\", remote=\"10.2.0.7:40000\"},\n\
    {id=8, kind=\"core\", local=\"10.1.0.8:40000\", remote=\"10.2.0.8:40000\"},\n\
    {id=9, kind=\"core\", local=\"10.1.0.9:40000\", remote=\"10.2.0.9:40000\"},\n\
    {id=10, kind=\"core\", local=\"10.1.0.10:40000\", remote=\"10.2.0.10:40000\"},\n\
    {id=11, kind=\"core\", local=\"10.1.0.11:40000\", remote=\"10.2.0.11:40000\"},\n\
    {id=12, kind=\"core\", local=\"10.1.0.12:40000\", remote=\"10.2.0.12:40000\"},\n\
    {id=13, kind=\"core\", local=\"10.1.0.13:40000\", remote=\"10.2.0.13:40000\"},\n\
    {id=14, kind=\"core\", local=\"10.1.0.14:40000\", remote=\"10.2.0.14:40000\"},\n\
    {id=15, kind=\"core\", local=\"10.1.0.15:40000\", remote=\"10.2.0.15:40000\"},\n\
    {id=16, kind=\"core\", local=\"10.1.0.16:40000\", remote=\"10.2.0.16:40000\"},\n\
    {id=17, kind=\"core\", local=\"10.1.0.17:40000\", remote=\"10.2.0.17:40000\"},\n\
    {id=18, kind=\"core\", local=\"10.1.0.18:40000\", remote=\"10.2.0.18:40000\"},\n\
    {id=19, kind=\"core\", local=\"10.1.0.19:40000\", remote=\"10.2.0.19:40000\"},\n\
    {id=20, kind=\"core\", local=\"10.1.0.20:40000\", remote=\"10.2.0.20:40000\"},\n\
    {id=21, kind=\"core\", local=\"10.1.0.21:40000\", remote=\"10.2.0.21:40000\"},\n\
    {id=22, kind=\"core\", local=\"10.1.0.22:40000\", remote=\"10.2.0.22:40000\"},\n\
    {id=23, kind=\"core\", local=\"10.1.0.23:40000\", remote=\"10.2.0.23:40000\"},\n\
    {id=24, kind=\"core\", local=\"10.1.0.24:40000\", remote=\"10.2.0.24:40000\"},\n\
    {id=25, kind=\"core\", local=\"10.1.0.25:40000\", remote=\"10.2.0.25:40000\"},\n\
    {id=26, kind=\"core\", local=\"10.1.0.26:40000\", remote=\"10.2.0.26:40000\"},\n\
    {id=27, kind=\"core\", local=\"10.1.0.27:40000\", remote=\"10.2.0.27:40000\"},\n\
    {id=28, kind=\"core\", local=\"10.1.0.28:40000\", remote=\"10.2.0.28:40000\"},\n\
    {id=29, kind=\"core\", local=\"10.1.0.29:40000\", remote=\"10.2.0.29:40000\"},\n\
    {id=30, kind=\"core\", local=\"10.1.0.30:40000\", remote=\"10.2.0.30:40000\"},\n\
    {id=31, kind=\"core\", local=\"10.1.0.31:40000\", remote=\"10.2.0.31:40000\"},\n\
    {id=32, kind=\"core\", local=\"10.1.0.32:40000\", remote=\"10.2.0.32:40000\"},\n\
    ]\nsibling = []\nservice = []\n";
