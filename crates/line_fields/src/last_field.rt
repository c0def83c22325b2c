//! The last field of a line, whose digits are read later.

ghost use Rattle.std.specs.Prelude.{◌≡◌, IfSome, List, ℕ, Ok};
ghost use Rattle.hex.specs.Hex.{decode_of};
ghost use Rattle.line_fields.specs.HexFields.{EndsInHex};

use crate::fields::Fields;

impl<'a> Fields<'a> {
    /// All that is left of the line, if it isn't empty. If it spells bytes in hex, it is the next field and the last.
    #[inline(always)]
    pub fn last_digits(&self) -> Option<&'a [u8]>
        ensures { IfSome result (λ digits. (bytes : List ℕ) → decode_of digits.now ≡ Ok bytes
            → EndsInHex bytes self.now) }
    {
        if self.at >= self.text.len() {
            return None;
        }
        let (_before, rest) = self.text.split_at(self.at);
        Some(rest)
    }
}
