//! The way over the extension headers to the upper layer.

ghost use Rattle.std.specs.Prelude.{◌≡◌, ◌≤◌, length, option_map, IfSome};
ghost use Rattle.scion_packet.specs.Extensions.{skip_extension, upper_layer};
ghost use Rattle.scion_header.specs.Upper.{layer_at, upper_of};

use crate::header::Header;
use crate::upper::{Upper, UpperPlace};

/// The protocol numbers of the two kinds of extensions, and of SCMP.
const HOP_BY_HOP: u8 = 200;

const END_TO_END: u8 = 201;

const SCMP: u8 = 202;

/// The place after an extension of this kind, if one begins at the place, and else the place itself.
/// There is none where the extension isn't wholly there.
fn skip_extension(kind: u8, place: UpperPlace, bytes: &[u8]) -> Option<UpperPlace>
    requires inside { place.at ≤ length bytes.now }
    ensures layer { option_map (layer_at bytes.now) result ≡ skip_extension kind (layer_at bytes.now place) }
    ensures inside { IfSome result (λ p. p.at ≤ length bytes.now) }
{
    if place.protocol != kind {
        return Some(place);
    }
    let extension = &bytes[place.at..];
    if extension.len() < 2 {
        return None;
    }
    let len = 4 * (usize::from(extension[1]) + 1);
    if extension.len() < len {
        return None;
    }
    Some(UpperPlace {
        protocol: extension[0],
        at: place.at + len,
    })
}

/// Where the upper layer begins in the bytes after the header, whose first ones are of the protocol
/// `next_header`: at most one hop-by-hop extension is passed over, and then at most one end-to-end
/// extension. There is none where one of these isn't wholly there
/// (draft-dekater-scion-dataplane, "Extension Headers").
pub fn upper_place(next_header: u8, bytes: &[u8]) -> Option<UpperPlace>
    ensures layer { option_map (layer_at bytes.now) result ≡ upper_layer next_header bytes.now }
    ensures inside { IfSome result (λ p. p.at ≤ length bytes.now) }
{
    let first = UpperPlace {
        protocol: next_header,
        at: 0,
    };
    let second = skip_extension(HOP_BY_HOP, first, bytes)?;
    skip_extension(END_TO_END, second, bytes)
}

/// What the upper layer of a packet is, by the bytes after its header.
pub fn upper_layer(header: &Header, bytes: &[u8]) -> Upper
    ensures { result ≡ upper_of (upper_layer header.now.next_header bytes.now) }
{
    let next_header = header.next_header;
    match upper_place(next_header, bytes) {
        None => Upper::Cut,
        Some(place) => {
            if place.protocol != SCMP {
                return Upper::Other;
            }
            match bytes.get(place.at) {
                Some(kind) => Upper::Scmp(*kind),
                None => Upper::Cut,
            }
        }
    }
}
