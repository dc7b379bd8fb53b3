//! The tables of 16 bytes, in which one shuffle looks up 16 bytes at once.
//!
//! The bytes that are their own 16th power are a field of 16 elements. They are numbered from 0 to 15 so that the
//! number of a sum is the xor of the numbers. With a byte z that is none of them, where z² + a z + a is 0 for an
//! element a, each byte is k + i z for one pair of elements. Its coordinates are the number of k in the low half of
//! a byte, and that of i in the high half.
//!
//! With j = i + k, the inverse of k + i z is the sum of (1 + z / a + z / a²) / p and (z / a²) / q, where
//! p = 1 / (1 / i + a / k) + j and q = 1 / (1 / j + a / k) + i. So five look-ups give p and q, and two more the
//! S-box's value, whose affine map the last tables have taken in. 1 / 0 is written 0x80, at which a shuffle gives 0.
//! (M. Hamburg, "Accelerating AES with Vector Permute Instructions", CHES 2009.)
//!
//! Proofs compute each table from these definitions.

// At n, the number of 1 over element n.
pub(crate) const INVERSES: [u8; 16] = [
    0x80, 0x01, 0x08, 0x0d, 0x0f, 0x06, 0x05, 0x0e, 0x02, 0x0c, 0x0b, 0x0a, 0x09, 0x03, 0x07, 0x04,
];

// At n, the number of a over element n.
pub(crate) const RATIOS: [u8; 16] = [
    0x80, 0x02, 0x01, 0x0c, 0x08, 0x0b, 0x0d, 0x0a, 0x04, 0x0e, 0x07, 0x05, 0x03, 0x06, 0x09, 0x0f,
];

// At n, the coordinates of the byte n, and of the byte 16 n.
pub(crate) const LOW_COORDINATES: [u8; 16] = [
    0x00, 0x01, 0x37, 0x36, 0xd0, 0xd1, 0xe7, 0xe6, 0xd2, 0xd3, 0xe5, 0xe4, 0x02, 0x03, 0x35, 0x34,
];

pub(crate) const HIGH_COORDINATES: [u8; 16] = [
    0x00, 0xbb, 0x7b, 0xc0, 0xbf, 0x04, 0xc4, 0x7f, 0xc8, 0x73, 0xb3, 0x08, 0x77, 0xcc, 0x0c, 0xb7,
];

// At n, what p with the number n gives of the S-box's value but for its constant, and what q does: as a byte.
pub(crate) const LAST_P: [u8; 16] = [
    0x00, 0xfa, 0x6a, 0x35, 0xbb, 0x2b, 0x5f, 0x41, 0x8e, 0xcf, 0x1e, 0xe4, 0x90, 0x74, 0xd1, 0xa5,
];

pub(crate) const LAST_Q: [u8; 16] = [
    0x00, 0x81, 0x76, 0x99, 0xfd, 0x0a, 0xef, 0x7c, 0x64, 0x18, 0x93, 0x12, 0xf7, 0xe5, 0x8b, 0x6e,
];

// The same in coordinates.
pub(crate) const SUBSTITUTED_P: [u8; 16] = [
    0x00, 0x52, 0x21, 0x11, 0xec, 0x9f, 0x30, 0xbe, 0xfd, 0x43, 0x8e, 0xdc, 0x73, 0xaf, 0xcd, 0x62,
];

pub(crate) const SUBSTITUTED_Q: [u8; 16] = [
    0x00, 0xc9, 0x98, 0xa0, 0xb4, 0xe5, 0x38, 0x7d, 0x14, 0x69, 0x45, 0x8c, 0x51, 0xdd, 0x2c, 0xf1,
];

// Twice that, in coordinates.
pub(crate) const DOUBLED_P: [u8; 16] = [
    0x00, 0x38, 0x1c, 0x21, 0xc7, 0xe3, 0x3d, 0xff, 0xe6, 0x19, 0xc2, 0xfa, 0x24, 0xde, 0xdb, 0x05,
];

pub(crate) const DOUBLED_Q: [u8; 16] = [
    0x00, 0x68, 0x0e, 0xa8, 0x0d, 0x6b, 0xa6, 0x65, 0xa5, 0xc0, 0xc3, 0xab, 0x66, 0xcd, 0x03, 0xce,
];

// ShiftRows moves no lane before the last round: each round leaves the lanes where they are, and knows which byte of
// the state each of them is. After four rounds that is the order of the bytes again. ORDER_n has it for n rounds, modulo
// 4: at a lane, the place of its byte in the state, column after column.
pub(crate) const ORDER_0: [u8; 16] = [0, 1, 2, 3, 4, 5, 6, 7, 8, 9, 10, 11, 12, 13, 14, 15];

pub(crate) const ORDER_1: [u8; 16] = [0, 13, 10, 7, 4, 1, 14, 11, 8, 5, 2, 15, 12, 9, 6, 3];

pub(crate) const ORDER_2: [u8; 16] = [0, 9, 2, 11, 4, 13, 6, 15, 8, 1, 10, 3, 12, 5, 14, 7];

pub(crate) const ORDER_3: [u8; 16] = [0, 5, 10, 15, 4, 9, 14, 3, 8, 13, 2, 7, 12, 1, 6, 11];

// At a lane of the order ORDER_n, the lane of the next row of its column; below the last row comes the first.
pub(crate) const BELOW_0: [u8; 16] = [1, 2, 3, 0, 5, 6, 7, 4, 9, 10, 11, 8, 13, 14, 15, 12];

pub(crate) const BELOW_1: [u8; 16] = [5, 6, 7, 4, 9, 10, 11, 8, 13, 14, 15, 12, 1, 2, 3, 0];

pub(crate) const BELOW_2: [u8; 16] = [9, 10, 11, 8, 13, 14, 15, 12, 1, 2, 3, 0, 5, 6, 7, 4];

pub(crate) const BELOW_3: [u8; 16] = [13, 14, 15, 12, 1, 2, 3, 0, 5, 6, 7, 4, 9, 10, 11, 8];

// At a lane of the order ORDER_n, the lane of the row before.
pub(crate) const ABOVE_0: [u8; 16] = [3, 0, 1, 2, 7, 4, 5, 6, 11, 8, 9, 10, 15, 12, 13, 14];

pub(crate) const ABOVE_1: [u8; 16] = [15, 12, 13, 14, 3, 0, 1, 2, 7, 4, 5, 6, 11, 8, 9, 10];

pub(crate) const ABOVE_2: [u8; 16] = [11, 8, 9, 10, 15, 12, 13, 14, 3, 0, 1, 2, 7, 4, 5, 6];

pub(crate) const ABOVE_3: [u8; 16] = [7, 4, 5, 6, 11, 8, 9, 10, 15, 12, 13, 14, 3, 0, 1, 2];

// At a place of the block, the lane of the order ORDER_1 from which ShiftRows of the last round takes it.
pub(crate) const LAST_SHIFT: [u8; 16] = [0, 9, 2, 11, 4, 13, 6, 15, 8, 1, 10, 3, 12, 5, 14, 7];
