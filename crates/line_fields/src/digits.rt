//! The digits of a field: a number in decimal, and bytes in hex.

ghost use Rattle.std.specs.Prelude.{◌≡◌, ◌≢◌, ◌*◌, ◌<◌, ◌≤◌, ◌^◌, ℕ, length, unwrap_or, IfOk, IfSome, IfNone, Some};
ghost use Rattle.std.specs.Prelude.{None, Ok, List, ◌++◌, true, false, option_map};
ghost use Rattle.std.specs.Bool.{MatchBool};
ghost use Rattle.std.specs.Fmt.{decimal};
ghost use Rattle.std.specs.Result.{result_ok};
ghost use Rattle.hex.specs.Hex.{decode_of, hex_digit_value, pair_value};

use crate::blocks::write_blocks;
use case_forms::OutOfMemory;
use std::alloc::Global;

// The value for a byte that is not a digit.
const NO_DIGIT: u8 = 16;

// The value of each byte as a digit in hex, in either case.
const DIGITS: [u8; 256] = [
    16, 16, 16, 16, 16, 16, 16, 16, 16, 16, 16, 16, 16, 16, 16, 16, 16, 16, 16, 16, 16, 16, 16, 16,
    16, 16, 16, 16, 16, 16, 16, 16, 16, 16, 16, 16, 16, 16, 16, 16, 16, 16, 16, 16, 16, 16, 16, 16,
    0, 1, 2, 3, 4, 5, 6, 7, 8, 9, 16, 16, 16, 16, 16, 16, 16, 10, 11, 12, 13, 14, 15, 16, 16, 16,
    16, 16, 16, 16, 16, 16, 16, 16, 16, 16, 16, 16, 16, 16, 16, 16, 16, 16, 16, 16, 16, 16, 16, 10,
    11, 12, 13, 14, 15, 16, 16, 16, 16, 16, 16, 16, 16, 16, 16, 16, 16, 16, 16, 16, 16, 16, 16, 16,
    16, 16, 16, 16, 16, 16, 16, 16, 16, 16, 16, 16, 16, 16, 16, 16, 16, 16, 16, 16, 16, 16, 16, 16,
    16, 16, 16, 16, 16, 16, 16, 16, 16, 16, 16, 16, 16, 16, 16, 16, 16, 16, 16, 16, 16, 16, 16, 16,
    16, 16, 16, 16, 16, 16, 16, 16, 16, 16, 16, 16, 16, 16, 16, 16, 16, 16, 16, 16, 16, 16, 16, 16,
    16, 16, 16, 16, 16, 16, 16, 16, 16, 16, 16, 16, 16, 16, 16, 16, 16, 16, 16, 16, 16, 16, 16, 16,
    16, 16, 16, 16, 16, 16, 16, 16, 16, 16, 16, 16, 16, 16, 16, 16, 16, 16, 16, 16, 16, 16, 16, 16,
    16, 16, 16, 16, 16, 16, 16, 16, 16, 16, 16, 16, 16, 16,
];

/// The number with these decimal digits, without sign and leading zeros. `None` if they are not such a number below
/// 2^64.
pub fn decimal_value(text: &[u8]) -> Option<u64>
    ensures found { IfSome result (λ n. text.now ≡ decimal n) }
    ensures none { IfNone result ((n : ℕ) → n < 2 ^ 64 → text.now ≢ decimal n) }
{
    let [first, ..] = text else {
        return None;
    };
    if *first == b'0' && text.len() > 1 {
        return None;
    }
    let mut value: u64 = 0;
    for byte in text {
        if *byte < b'0' || *byte > b'9' {
            return None;
        }
        value = value.checked_mul(10)?.checked_add(u64::from(*byte - b'0'))?;
    }
    Some(value)
}

/// The bytes that a text spells in hex, with digits of either case. `None` if it spells none. The error means that
/// memory ran out.
pub fn hex_bytes(alloc: Global, text: &[u8]) -> Result<Option<Vec<u8>>, OutOfMemory>
    ensures { IfOk result (λ read. option_map (λ bytes. bytes.items) read ≡ result_ok (decode_of text.now)) }
{
    if text.len() % 2 == 1 {
        return Ok(None);
    }
    let mut bytes = vec![in alloc; 0u8; text.len() / 2]?;
    if !write_bytes(text, bytes.as_mut_slice()) {
        return Ok(None);
    }
    Ok(Some(bytes))
}

/// Appends the bytes that a text spells in hex, with digits of either case. False if it spells none; then nothing is
/// appended. The error means that memory ran out.
pub fn hex_onto(text: &[u8], bytes: &mut Vec<u8>) -> Result<bool, OutOfMemory>
    ensures spelled { result ≡ Ok true → (more : List ℕ) × (decode_of text.now ≡ Ok more)
        × (bytes.new.items ≡ bytes.old.items ++ more) }
    ensures none { result ≡ Ok false → result_ok (decode_of text.now) ≡ None }
    ensures same { result ≢ Ok true → bytes.new.items ≡ bytes.old.items }
{
    if text.len() % 2 == 1 {
        return Ok(false);
    }
    let from = bytes.len();
    bytes.resize(from + text.len() / 2, 0)?;
    let (_before, more) = bytes.as_mut_slice().split_at_mut(from);
    if !write_bytes(text, more) {
        bytes.truncate(from);
        return Ok(false);
    }
    Ok(true)
}

// Writes the bytes that a text spells, if it spells bytes.
fn write_bytes(text: &[u8], bytes: &mut [u8]) -> bool
    requires { length text.now ≡ 2 * length bytes.old }
    ensures { MatchBool result (result_ok (decode_of text.now) ≡ Some bytes.new) (result_ok (decode_of text.now)
        ≡ None) }
{
    // A short text is read byte by byte, and so is a block with a byte that is not a digit, up to that byte.
    for i in write_blocks(text, bytes)..bytes.len() {
        let Some(byte) = byte_of(text[2 * i], text[2 * i + 1]) else {
            return false;
        };
        bytes[i] = byte;
    }
    true
}

// The byte of two digits.
fn byte_of(high: u8, low: u8) -> Option<u8>
    ensures { (i : ℕ) → result ≡ result_ok (pair_value high low i) }
{
    let high = digit(high);
    let low = digit(low);
    if high == NO_DIGIT || low == NO_DIGIT {
        return None;
    }
    Some(high * 16 + low)
}

// The value of a digit in hex.
fn digit(byte: u8) -> u8
    ensures value { result ≡ unwrap_or (hex_digit_value byte) 16 }
    ensures most { result ≤ 16 }
{
    DIGITS[byte as usize]
}
