//! The lines of a text: their ends, their limits, and lines with a fixed text.

ghost use Rattle.std.specs.Prelude.{◌≡◌};
ghost use Rattle.bstr.specs.Text.{without_terminator};
ghost use Rattle.line_fields.specs.Reading.{Gives};
ghost use Rattle.line_fields.specs.Lines.{is_ended, line_text, line_rest, expect_line};

use crate::fault::{FaultKind, TextFault};
use crate::fields::{Fields, is_text};
use case_forms::Span;

// How many bytes a line may have, not counting its end.
pub(crate) const MAX_LINE: usize = 140_000;

// The number of the last line that a text may have.
const MAX_LINES: u64 = 10_000_000;

/// A line's text, and whether it has an end, which is LF or CR LF.
pub fn without_line_end(raw: &[u8]) -> (&[u8], bool)
    ensures content { result.0.now ≡ without_terminator raw.now }
    ensures ended { result.1 ≡ is_ended raw.now }
{
    match raw {
        [line @ .., b'\r', b'\n'] => (line, true),
        [line @ .., b'\n'] => (line, true),
        _ => (raw, false),
    }
}

/// The text of the line with that number, whose bytes are given with the line's end. LineTooLong, Cut and TooManyLines
/// are tested in this order, each at the whole line.
#[tactic(auto, unfolding(crate::specs::Lines::line_text))]
pub fn checked_line(number: u64, raw: &[u8]) -> Result<&[u8], TextFault>
    ensures { Gives (λ text. text.now) result (line_text number raw.now) }
{
    let (text, ended) = without_line_end(raw);
    let span = Span {
        line: number,
        start: 0,
        stop: text.len(),
    };
    if text.len() > MAX_LINE {
        return Err(TextFault {
            kind: FaultKind::LineTooLong,
            span,
        });
    }
    if !ended {
        return Err(TextFault {
            kind: FaultKind::Cut,
            span,
        });
    }
    if number > MAX_LINES {
        return Err(TextFault {
            kind: FaultKind::TooManyLines,
            span,
        });
    }
    Ok(text)
}

/// The fields of the line with that number, whose bytes are given with the line's end, with the faults of
/// `checked_line`.
#[tactic(auto, unfolding(crate::specs::Lines::line_rest))]
pub fn checked_fields(number: u64, raw: &[u8]) -> Result<Fields<'_>, TextFault>
    ensures { Gives (λ fields. fields) result (line_rest number raw.now) }
{
    let text = checked_line(number, raw)?;
    Ok(Fields::new(number, text))
}

/// Checks that the text of a line is exactly this one. Any other text is Header, at the whole line.
#[tactic(auto, unfolding(crate::specs::Lines::expect_line))]
pub fn expect_line(number: u64, wanted: &str, raw: &[u8]) -> Result<(), TextFault>
    ensures { Gives (λ u. u) result (expect_line number wanted.now raw.now) }
{
    let text = checked_line(number, raw)?;
    if is_text(text, wanted) {
        return Ok(());
    }
    let span = Span {
        line: number,
        start: 0,
        stop: text.len(),
    };
    Err(TextFault {
        kind: FaultKind::Header,
        span,
    })
}
