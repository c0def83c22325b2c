//! Bytes as digits in hex, sixteen at a time.

ghost use Rattle.std.specs.Prelude.{◌≡◌, ℕ, ◌+◌, ◌*◌, ◌<◌, ◌≤◌, length, slice_index};
ghost use Rattle.hex.specs.Hex.{encode_lower, lower_digits};
ghost use Rattle.line_fields.specs.Pairs.{ArePrinted};

use std::cmp::min;
use std::simd::prelude::*;

// The bytes of a block.
const BLOCK: usize = 16;

// The digits, in lower case.
const DIGITS: [u8; 16] = *b"0123456789abcdef";

// The places of the digits of pairs, given all first digits before all second digits.
const PAIRS: [usize; 32] = [
    0, 16, 1, 17, 2, 18, 3, 19, 4, 20, 5, 21, 6, 22, 7, 23, 8, 24, 9, 25, 10, 26, 11, 27, 12, 28,
    13, 29, 14, 30, 15, 31,
];

/// Writes the two digits of each byte, in lower case.
pub(crate) fn write_digits(bytes: &[u8], digits: &mut [u8])
    requires { length digits.old ≡ 2 * length bytes.now }
    ensures { digits.new ≡ encode_lower bytes.now }
{
    // Fewer bytes than a block are written one by one.
    for i in write_blocks(bytes, digits)..bytes.len() {
        digits[2 * i] = DIGITS[(bytes[i] / 16) as usize];
        digits[2 * i + 1] = DIGITS[(bytes[i] % 16) as usize];
    }
}

// Writes the digits of all bytes, or of none if there are fewer than a block, and returns for how many it wrote them.
fn write_blocks(bytes: &[u8], digits: &mut [u8]) -> usize
    requires { length digits.old ≡ 2 * length bytes.now }
    ensures printed { ArePrinted bytes.now digits.new result }
    ensures most { result ≤ length bytes.now }
    ensures len { length digits.new ≡ length digits.old }
{
    let mut written = 0;
    if bytes.len() < BLOCK {
        return written;
    }
    while written < bytes.len() {
        // The last block overlaps the one before it.
        let start = min(written, bytes.len() - BLOCK);
        let block = block_digits(u8x16::from_slice(&bytes[start..]));
        block.copy_to_slice(&mut digits[2 * start..]);
        written = start + BLOCK;
    }
    written
}

// The digits of 16 bytes.
#[inline(always)]
fn block_digits(bytes: u8x16) -> u8x32
    ensures len { length result ≡ 32 }
    ensures printed { ArePrinted bytes result 16 }
{
    let first = digits_of(bytes >> u8x16::splat(4));
    let second = digits_of(bytes & u8x16::splat(15));
    first.shuffle(second, PAIRS)
}

// The digit of each value below 16.
#[inline(always)]
fn digits_of(values: u8x16) -> u8x16
    ensures len { length result ≡ 16 }
    ensures digits { (k : ℕ) → k < 16 → slice_index values k < 16
        → slice_index result k ≡ slice_index lower_digits (slice_index values k) }
{
    // The letters begin 39 places after the point where the digits would continue.
    let letters = values
        .simd_gt(u8x16::splat(9))
        .select(u8x16::splat(39), u8x16::splat(0));
    values + u8x16::splat(b'0') + letters
}
