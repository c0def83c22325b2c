//! The flags of a segment to build: letters of `ARSF` in this order, or `-` if none is set.

ghost use Rattle.std.specs.Prelude.{◌≡◌, [], ◌∷◌, ◌++◌, OnOk};
ghost use Rattle.line_fields.specs.Reading.{Gives};
ghost use Rattle.line_fields.specs.Spelling.{plain, printed_behind};
ghost use Rattle.witness.specs.Flags.{behind_letter, letters_named, flags_text, flags_field};

use case_forms::{Flags, OutOfMemory};
use line_fields::{FaultKind, Fields, TextFault, push_space, push_word};

// Whether a text begins with this letter, and the text after it.
fn behind_letter(letter: u8, text: &[u8]) -> (bool, &[u8])
    ensures set { result.0 ≡ (behind_letter letter text.now).0 }
    ensures rest { result.1.now ≡ (behind_letter letter text.now).1 }
{
    match text {
        [first, rest @ ..] if *first == letter => (true, rest),
        _ => (false, text),
    }
}

// The flags spelled by these letters, at least one.
fn letters_named(text: &[u8]) -> Option<Flags>
    ensures { result ≡ letters_named text.now }
{
    let (ack, rest) = behind_letter(b'A', text);
    let (rst, rest) = behind_letter(b'R', rest);
    let (syn, rest) = behind_letter(b'S', rest);
    let (fin, rest) = behind_letter(b'F', rest);
    if text.is_empty() || !rest.is_empty() {
        return None;
    }
    Some(Flags { ack, rst, syn, fin })
}

// The next field, which names flags. Another letter, another order and a repeated letter are Field.
#[tactic(auto, unfolding(crate::specs::Flags::flags_field))]
pub(crate) fn flags(fields: &mut Fields) -> Result<Flags, TextFault>
    ensures { Gives (λ flags. (flags, fields.new)) result (flags_field fields.old) }
{
    let word = fields.next()?;
    if word.is("-") {
        return Ok(Flags {
            ack: false,
            rst: false,
            syn: false,
            fin: false,
        });
    }
    match letters_named(word.text) {
        Some(flags) => Ok(flags),
        None => Err(word.fault(FaultKind::Field)),
    }
}

// The text of flags.
fn flags_text(flags: Flags) -> &'static str
    ensures { result.now ≡ flags_text flags }
{
    match (flags.ack, flags.rst, flags.syn, flags.fin) {
        (false, false, false, false) => "-",
        (false, false, false, true) => "F",
        (false, false, true, false) => "S",
        (false, false, true, true) => "SF",
        (false, true, false, false) => "R",
        (false, true, false, true) => "RF",
        (false, true, true, false) => "RS",
        (false, true, true, true) => "RSF",
        (true, false, false, false) => "A",
        (true, false, false, true) => "AF",
        (true, false, true, false) => "AS",
        (true, false, true, true) => "ASF",
        (true, true, false, false) => "AR",
        (true, true, false, true) => "ARF",
        (true, true, true, false) => "ARS",
        (true, true, true, true) => "ARSF",
    }
}

// Writes flags after a space.
pub(crate) fn push_flags(out: &mut Vec<u8>, flags: Flags) -> Result<(), OutOfMemory>
    ensures { OnOk result (out.new.items ≡ out.old.items ++ printed_behind (plain (flags_text flags) ∷ [])) }
{
    push_space(out)?;
    push_word(out, flags_text(flags))
}
