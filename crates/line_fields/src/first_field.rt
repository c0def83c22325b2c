//! The first field of a text: where it ends, and the number that it spells.

ghost use Rattle.std.specs.Prelude.{◌≡◌, ◌<◌, ◌≤◌, ℕ, length, slice_index, take, IfSome};
ghost use Rattle.std.specs.Fmt.{decimal};
ghost use Rattle.std.specs.Int.{IsInRange};
ghost use Rattle.std.specs.Str.Parse.{digits_value};
ghost use Rattle.line_fields.specs.FirstField.{field_len};

use memchr::memchr;
use std::simd::prelude::*;

// How many bytes of a field are examined one by one, before its end is searched.
const SHORT: usize = 16;

// How many digits of a number are read without a test of its size.
const MAX_DIGITS: usize = 19;

// How many bytes are read at once if a number may begin there.
const BLOCK: usize = 8;

// The weights of digits: the eight that begin `n` places before the first zero are those of `n` digits.
const WEIGHTS: [u32; 16] = [
    10_000_000, 1_000_000, 100_000, 10_000, 1000, 100, 10, 1, 0, 0, 0, 0, 0, 0, 0, 0,
];

/// The length of the first field of a text, which ends at a space or at the text's end. The end of a long field is
/// found sooner if the caller says that it is long.
#[inline(always)]
pub(crate) fn field_len(text: &[u8], is_long: bool) -> usize
    ensures { result ≡ field_len text.now }
{
    if is_long {
        return long_field_len(text);
    }
    for (len, byte) in text.iter().enumerate() {
        if *byte == b' ' {
            return len;
        }
        if len == SHORT {
            return long_field_len(text);
        }
    }
    text.len()
}

// The same length, by a search that costs a call.
#[inline(never)]
fn long_field_len(text: &[u8]) -> usize
    ensures { result ≡ field_len text.now }
{
    memchr(b' ', text).unwrap_or(text.len())
}

/// The number that the first field of a text spells, if it has one digit.
#[inline(always)]
pub(crate) fn one_digit(text: &[u8]) -> Option<u64>
    ensures place { IfSome result (λ n. field_len text.now ≡ 1) }
    ensures value { IfSome result (λ n. take 1 text.now ≡ decimal n) }
{
    let [digit, ..] = text else {
        return None;
    };
    if *digit < b'0' || *digit > b'9' || (text.len() > 1 && text[1] != b' ') {
        return None;
    }
    Some(u64::from(*digit - b'0'))
}

/// The number that the first field of a text spells, and its count of digits. The count is 0 if the field spells no
/// number, or has more than 19 digits.
#[inline(never)]
pub(crate) fn plain_number(text: &[u8]) -> (u64, usize)
    ensures place { 0 < result.1 → field_len text.now ≡ result.1 }
    ensures value { 0 < result.1 → take result.1 text.now ≡ decimal result.0 }
{
    if text.len() < BLOCK || text[0] == b'0' {
        return any_number(text);
    }
    let (value, count) = front_number(text);
    if count == BLOCK {
        return any_number(text);
    }
    if text[count] != b' ' {
        return (0, 0);
    }
    (u64::from(value), count)
}

// The number that the digits at the front of a text spell, and their count, which is 8 if there are 8 or more.
#[inline(always)]
fn front_number(text: &[u8]) -> (u32, usize)
    requires { 8 ≤ length text.now }
    ensures most { result.1 ≤ 8 }
    ensures digits { result.1 < 8 → (k : ℕ) → k < result.1 → IsInRange 48 57 (slice_index text.now k) }
    ensures value { result.1 < 8 → result.0 ≡ digits_value 10 (take result.1 text.now) }
{
    let values = u8x8::from_slice(text) - u8x8::splat(b'0');
    let others = values.simd_gt(u8x8::splat(9)).to_bitmask();
    if others == 0 {
        return (0, BLOCK);
    }
    let count = others.trailing_zeros() as usize;
    let weighted = values.cast::<u32>() * u32x8::from_slice(&WEIGHTS[BLOCK - count..]);
    (weighted.reduce_sum(), count)
}

// The same as `plain_number`, digit by digit.
#[inline(never)]
fn any_number(text: &[u8]) -> (u64, usize)
    ensures place { 0 < result.1 → field_len text.now ≡ result.1 }
    ensures value { 0 < result.1 → take result.1 text.now ≡ decimal result.0 }
{
    let most = text.len().min(MAX_DIGITS);
    let mut value: u64 = 0;
    let mut count: usize = 0;
    while count < most && text[count] >= b'0' && text[count] <= b'9' {
        value = value * 10 + u64::from(text[count] - b'0');
        count += 1;
    }
    if count < text.len() && text[count] != b' ' {
        return (0, 0);
    }
    if count > 1 && text[0] == b'0' {
        return (0, 0);
    }
    (value, count)
}
