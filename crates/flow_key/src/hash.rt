//! The processor that routes a flow.

ghost use Rattle.std.specs.Prelude.{◌≡◌, ◌<◌, ◌≤◌};
ghost use Rattle.flow_key.specs.Hash.{fnv1a, processor_of};
ghost use Rattle.flow_key.specs.Key.{flow};

use crate::key::FlowKey;

/// Where the hash begins, before the seed is mixed in, and what it multiplies by.
const OFFSET_BASIS: u32 = 2_166_136_261;

const PRIME: u32 = 16_777_619;

/// The 32-bit FNV-1a hash of the bytes, from a value to start at: each byte is mixed in, and then the
/// hash multiplied (draft-eastlake-fnv).
pub fn fnv1a(start: u32, bytes: &[u8]) -> u32
    ensures { result ≡ fnv1a start bytes.now }
{
    bytes.iter().fold(
        start,
        |hash, byte| (hash ^ u32::from(*byte)).wrapping_mul(PRIME),
    )
}

/// The processor of a flow, from 0 on, where there are `n` of them: the same for all its datagrams,
/// whatever their band. Another seed gives other processors.
pub fn processor_of(key: &FlowKey, seed: u32, n: usize) -> usize
    requires some { 1 ≤ n }
    ensures processor { result ≡ processor_of (flow key.now) seed n }
    ensures there { result < n }
{
    let [_, high, middle, low] = key.flow_id.to_be_bytes();
    let hash = fnv1a(OFFSET_BASIS ^ seed, &[high, middle, low, key.host_kinds]);
    fnv1a(hash, key.addresses) as usize % n
}
