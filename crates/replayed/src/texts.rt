//! The two texts of a case, and their lines.

use bstr::ByteSlice;
use line_fields::without_line_end;
use trace_reader::version_named;
use witness::begins_witness;

/// The texts of a case, which is cut before the line that begins its witness.
#[derive(Clone, Copy)]
pub struct Texts<'t> {
    pub trace: &'t [u8],
    /// Empty if no line begins a witness.
    pub witness: &'t [u8],
}

impl<'t> Texts<'t> {
    /// Cuts a case.
    pub fn new(case: &'t [u8]) -> Texts<'t> {
        let version = version_named(case);
        let mut at: usize = 0;
        for raw in case.lines_with_terminator() {
            if begins_witness(version, raw) {
                break;
            }
            at = at.saturating_add(raw.len());
        }
        let trace = case.get(..at).unwrap_or(case);
        let witness = case.get(at..).unwrap_or(&[]);
        Texts { trace, witness }
    }
}

/// The line with this number, counted from 1, without its end. None: the text has no such line.
pub fn line_at(text: &[u8], number: u64) -> Option<&[u8]> {
    let place = usize::try_from(number.checked_sub(1)?).ok()?;
    let raw = text.lines_with_terminator().nth(place)?;
    Some(without_line_end(raw).0)
}
