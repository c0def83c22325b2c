//! Bytes in hex, sixteen at a time.

ghost use Rattle.std.specs.Prelude.{◌≡◌, ℕ, ◌+◌, ◌*◌, ◌<◌, ◌≤◌, length, slice_index, IsTrue, Some};
ghost use Rattle.hex.specs.Hex.{hex_digit_value};
ghost use Rattle.line_fields.specs.Pairs.{AreSpelled};

use std::cmp::min;
use std::simd::prelude::*;

// The bytes of a block.
const BLOCK: usize = 16;

// The places of the first digits of pairs, and of the second ones.
const FIRST: [usize; 16] = [0, 2, 4, 6, 8, 10, 12, 14, 16, 18, 20, 22, 24, 26, 28, 30];

const SECOND: [usize; 16] = [1, 3, 5, 7, 9, 11, 13, 15, 17, 19, 21, 23, 25, 27, 29, 31];

/// Writes the bytes that a text spells, and returns how many it wrote. That is all of them, or those of the blocks
/// before the first block with a byte that is not a digit; none if the text is shorter than a block.
pub(crate) fn write_blocks(text: &[u8], bytes: &mut [u8]) -> usize
    requires { length text.now ≡ 2 * length bytes.old }
    ensures spelled { AreSpelled text.now bytes.new result }
    ensures most { result ≤ length bytes.new }
    ensures len { length bytes.new ≡ length bytes.old }
{
    let mut written = 0;
    if bytes.len() < BLOCK {
        return written;
    }
    while written < bytes.len() {
        // The last block overlaps the one before it.
        let start = min(written, bytes.len() - BLOCK);
        let (block, is_hex) = block_bytes(u8x32::from_slice(&text[2 * start..]));
        if !is_hex {
            break;
        }
        block.copy_to_slice(&mut bytes[start..]);
        written = start + BLOCK;
    }
    written
}

// The bytes of 32 digits, and whether all are digits.
#[inline(always)]
fn block_bytes(digits: u8x32) -> (u8x16, bool)
    ensures len { length result.0 ≡ 16 }
    ensures spelled { IsTrue result.1 → AreSpelled digits result.0 16 }
{
    let high = values(digits.swizzle(FIRST));
    let low = values(digits.swizzle(SECOND));
    (high * u8x16::splat(16) + low, are_below_16(high, low))
}

// The value of each digit; 16 or more for a byte that is not a digit.
#[inline(always)]
fn values(digits: u8x16) -> u8x16
    ensures len { length result ≡ 16 }
    ensures values { (k : ℕ) → k < 16 → slice_index result k < 16
        → hex_digit_value (slice_index digits k) ≡ Some (slice_index result k) }
{
    // Only the digits 0 to 9 make a sum from 246 on, and only the letters a difference below 6.
    let sum = digits + u8x16::splat(246 - b'0');
    let difference = (digits & u8x16::splat(0xdf)) - u8x16::splat(b'A');
    let number = sum.simd_max(u8x16::splat(6)) - u8x16::splat(246);
    let letter = difference.simd_min(u8x16::splat(245)) + u8x16::splat(10);
    number.simd_min(letter)
}

#[inline(always)]
fn are_below_16(high: u8x16, low: u8x16) -> bool
    requires { (length high ≡ 16) × (length low ≡ 16) }
    ensures { IsTrue result → (k : ℕ) → k < 16 → (slice_index high k < 16) × (slice_index low k < 16) }
{
    high.simd_max(low).simd_ge(u8x16::splat(16)).to_bitmask() == 0
}
