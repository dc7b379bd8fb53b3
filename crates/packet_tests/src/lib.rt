//! Tests of the crates of a packet, all by their public functions: of the fields, the ciphers, the header, the
//! path, the rules of one hop, the flow, ports of end hosts, and of nets and walks, over configurations that are read
//! from their text. They are kept apart from these crates, each of which would be proved a second time for its tests.
#![tactic(auto)]

#[cfg(test)]
mod aes;
#[cfg(test)]
mod beacons;
#[cfg(test)]
mod bfd;
#[cfg(test)]
mod cmac;
#[cfg(test)]
mod fields;
#[cfg(test)]
mod flow;
#[cfg(test)]
mod header;
#[cfg(test)]
mod hop;
mod hops;
#[cfg(test)]
mod made;
#[cfg(test)]
mod nets;
#[cfg(test)]
mod one_hop;
#[cfg(test)]
mod path;
#[cfg(test)]
mod ports;
#[cfg(test)]
mod samples;
#[cfg(test)]
mod segments;
#[cfg(test)]
mod sound;
#[cfg(test)]
mod walks;
#[cfg(test)]
mod wires;

pub use hops::hop_between;
