//! Blocks of 16 bytes, and what CMAC does with them beside the cipher.

ghost use Rattle.std.specs.Prelude.{◌≡◌, ◌-◌, ◌<◌, ◌∷◌, ◌++◌, length, replicate};
ghost use Rattle.cmac_core.specs.Block.{xor_blocks, doubled, filled};

pub(crate) type Block = [u8; 16];

// The sum of two blocks. The bytes are written out so that the sum needs no loop, and the arguments
// are slices since one of them may be a piece of the message.
#[tactic(auto, unfolding(crate::specs::Block::xor_blocks))]
pub(crate) fn xor_blocks(a: &[u8], b: &[u8]) -> Block
    requires { (length a.now ≡ 16) × (length b.now ≡ 16) }
    ensures { result ≡ xor_blocks a.now b.now }
{
    [
        a[0] ^ b[0],
        a[1] ^ b[1],
        a[2] ^ b[2],
        a[3] ^ b[3],
        a[4] ^ b[4],
        a[5] ^ b[5],
        a[6] ^ b[6],
        a[7] ^ b[7],
        a[8] ^ b[8],
        a[9] ^ b[9],
        a[10] ^ b[10],
        a[11] ^ b[11],
        a[12] ^ b[12],
        a[13] ^ b[13],
        a[14] ^ b[14],
        a[15] ^ b[15],
    ]
}

// A block times x in the field of 2^128 elements (RFC 4493, section 2.3). The bit that the shift
// loses comes back as x^128 modulo the field's polynomial, which is 87 hex.
#[tactic(auto, unfolding(crate::specs::Block::doubled))]
pub(crate) fn doubled(block: Block) -> Block
    ensures { result ≡ doubled block }
{
    let n = u128::from_be_bytes(block);
    ((n << 1) ^ ((n >> 127) * 0x87)).to_be_bytes()
}

// The last part of a message, shorter than a block, filled up by a 1 bit and zeros (RFC 4493, section
// 2.4).
pub(crate) fn filled(part: &[u8]) -> Block
    requires { length part.now < 16 }
    ensures { result ≡ filled part.now }
{
    let mut block = [0; 16];
    block[..part.len()].copy_from_slice(part);
    block[part.len()] = 0x80;
    block
}
