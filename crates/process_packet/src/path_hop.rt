//! A hop of a path with its fields, read where it lies: the cost is the same for every path.

ghost use Rattle.std.specs.Prelude.{◌≡◌, ◌<◌, ◌≤◌, slice_index};

use path_fields::{Hop, Info, Meta, read_hop, read_info};

/// A hop of a path: its place, its hop field and the info field of its segment.
#[derive(Clone, Copy)]
pub(crate) struct PathHop {
    /// Its segment.
    pub segment: usize,
    /// Its position in the segment, from 0 on.
    pub position: usize,
    /// How many hops the segment has.
    pub hops: usize,
    /// Its number among all hops of the path.
    pub number: usize,
    /// The segment's info field.
    pub info: Info,
    /// Its hop field.
    pub hop: Hop,
    pub ghost inside: { position < hops },
    pub ghost few_hops: { hops ≤ 64 },
    pub ghost few_segments: { segment < 3 },
    pub ghost few: { number < 64 },
}

/// How many hops a segment has.
// By cases, since an index that is known only when it runs would keep the lengths in memory.
fn hops_of(meta: &Meta, segment: usize) -> usize
    requires { segment < 3 }
    ensures { result ≡ slice_index meta.now.lengths segment }
{
    match segment {
        0 => usize::from(meta.lengths[0]),
        1 => usize::from(meta.lengths[1]),
        _ => usize::from(meta.lengths[2]),
    }
}

impl PathHop {
    ghost use Rattle.std.specs.Prelude.{◌≡◌, ◌+◌, ◌-◌, ◌≤◌, slice_index};
    ghost use Rattle.path_fields.specs.Fields.{hop_field, info_field};
    ghost use Rattle.scion_packet.specs.Lengths.{first_hop, segment_count};
    ghost use Rattle.scion_packet.specs.Path.{path_of, place_at};
    ghost use Rattle.process_packet.specs.PathHop.{IsMetaOf, IsPathHop};
    ghost use Rattle.process_packet.specs.PacketState.{egress_of, ingress_of};

    /// The hop with a number, which is one of the segment.
    pub(crate) fn read(path: &[u8], meta: &Meta, segment: usize, number: usize) -> PathHop
        requires meta { IsMetaOf meta.now path.now }
        requires there { segment < segment_count meta.now.lengths }
        requires begins { first_hop meta.now.lengths segment ≤ number }
        requires ends { number < first_hop meta.now.lengths segment + slice_index meta.now.lengths segment }
        ensures { IsPathHop result (path_of path.now).segments (place_at segment (number - first_hop meta.now.lengths segment)) }
    {
        PathHop {
            segment,
            position: number - meta.first_hop(segment),
            hops: hops_of(meta, segment),
            number,
            info: read_info(path, segment),
            hop: read_hop(path, meta.hops_place() + 12 * number),
        }
    }

    /// The interface by which a packet comes in at this hop, in the direction of travel.
    pub(crate) fn ingress(&self) -> u16
        ensures { result ≡ ingress_of (info_field self.now.info) (hop_field self.now.hop) }
    {
        if self.info.along {
            self.hop.construction_ingress
        } else {
            self.hop.construction_egress
        }
    }

    /// The interface by which it goes out.
    pub(crate) fn egress(&self) -> u16
        ensures { result ≡ egress_of (info_field self.now.info) (hop_field self.now.hop) }
    {
        if self.info.along {
            self.hop.construction_egress
        } else {
            self.hop.construction_ingress
        }
    }
}
