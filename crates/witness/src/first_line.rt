//! The first line of a witness.

ghost use Rattle.std.specs.Prelude.{◌≡◌, ◌↔◌, IsTrue};
ghost use Rattle.line_fields.specs.Lines.{Ends};
ghost use Rattle.witness.specs.FirstLine.{first_text, begins_witness};

use case_forms::Version;
use line_fields::{first_text, without_line_end};

/// Whether a line, given with its end, is exactly the first line of a witness of this version, ended with LF or CR LF.
#[tactic(auto, using(crate::proofs::TextLaw::other_begins))]
#[inline(always)]
pub fn begins_witness(version: Version, raw: &[u8]) -> bool
    ensures value { result ≡ begins_witness version raw.now }
    ensures exact { IsTrue result ↔ Ends raw.now (first_text version) }
{
    // All other lines are told by their first byte.
    match raw {
        [b'w', ..] => is_first_line(version, raw),
        _ => false,
    }
}

// The same for any line.
fn is_first_line(version: Version, raw: &[u8]) -> bool
    ensures value { result ≡ begins_witness version raw.now }
    ensures exact { IsTrue result ↔ Ends raw.now (first_text version) }
{
    let (text, ended) = without_line_end(raw);
    ended && text == first_text(version).as_bytes()
}
