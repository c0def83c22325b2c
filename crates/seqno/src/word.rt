//! A number on the wire, from a position and back (RFC 9293, 3.4).

ghost use Rattle.std.specs.Prelude.{◌≡◌, ◌<◌, ◌^◌, ℕ, Option};
ghost use Rattle.seqno.specs.Near.{near_position};
ghost use Rattle.seqno.specs.Numbers.{number_of, Reads};

/// A sequence or acknowledgment number, as a segment carries it: modulo 2^32.
#[derive(Clone, Copy, PartialEq, Eq)]
pub struct Word(pub u32);

/// How many numbers there are.
const TURN: u64 = 1 << 32;

/// A number fewer places ahead than this reads as a position ahead; any other reads as one before.
const HALF_TURN: u64 = 1 << 31;

/// The number of a position if position 0 has the number `base`.
pub fn number(base: Word, pos: u64) -> Word
    ensures { result ≡ number_of base pos }
{
    let turned = (pos % TURN) as u32;
    Word(base.0.wrapping_add(turned))
}

/// The position that a number reads as: less than 2^31 above `near`, or at most 2^31 below it (RFC 9293, 3.4). `base`
/// is the number of position 0, and `near` is below 2^63. `None` means that the position would be below 0.
pub fn read_near(near: u64, base: Word, w: Word) -> Option<u64>
    requires { near < 2 ^ 63 }

    ensures reads { Reads near base w result }

    // Exactly one answer is possible.
    ensures only { (read : Option ℕ) → Reads near base w read → result ≡ read }

    ensures found { result ≡ near_position near base w }
{
    let ahead = u64::from(w.0.wrapping_sub(number(base, near).0));
    if ahead < HALF_TURN {
        Some(near + ahead)
    } else {
        near.checked_sub(TURN - ahead)
    }
}
