//! The first line of a trace, read as the version that it names.

ghost use Rattle.std.specs.Prelude.{◌≡◌, ◌≢◌, Err, IfOk};
ghost use Rattle.counted.specs.Counting.{one_more};
ghost use Rattle.line_fields.specs.Reading.{Gives};
ghost use Rattle.line_fields.specs.Rows.{with_rest, Reads};
ghost use Rattle.case_lines.specs.CaseLines.{KeepsWitness};
ghost use Rattle.case_lines.specs.TextLeft.{rows_left, witness_left, text_failures};
ghost use Rattle.trace_reader.specs.Headers.{first_version, first_line};

use case_forms::Version;
use case_lines::{TextLines, first_text};
use line_fields::{FaultKind, SourceFault, Span, TextFault, checked_line, is_text};
use std::io::BufRead;

// The version with this first line; for versions 4 to 6, the one with two hosts. Any other text is Header, at the
// whole line.
#[tactic(auto, unfolding(crate::specs::Headers::first_version))]
fn first_version(raw: &[u8]) -> Result<Version, TextFault>
    ensures { Gives (λ version. version) result (first_version raw.now) }
{
    let text = checked_line(1, raw)?;
    if is_text(text, first_text(Version::One)) {
        return Ok(Version::One);
    }
    if is_text(text, first_text(Version::Two)) {
        return Ok(Version::Two);
    }
    if is_text(text, first_text(Version::Three)) {
        return Ok(Version::Three);
    }
    if is_text(text, first_text(Version::Four)) {
        return Ok(Version::Four);
    }
    if is_text(text, first_text(Version::Five)) {
        return Ok(Version::Five);
    }
    if is_text(text, first_text(Version::Six)) {
        return Ok(Version::Six);
    }
    let span = Span {
        line: 1,
        start: 0,
        stop: text.len(),
    };
    Err(TextFault {
        kind: FaultKind::Header,
        span,
    })
}

/// The version that the first line names.
pub(crate) fn first_line<A: BufRead>(text: &mut TextLines<A>) -> Result<Version, SourceFault>
    ensures line { Reads with_rest first_line (rows_left A.remaining text.old)
        (rows_left A.remaining text.new) result }
    ensures witness { IfOk result (λ x.
        KeepsWitness (witness_left A.remaining text.old) (witness_left A.remaining text.new)) }
    ensures read { result ≡ Err SourceFault.Read → text_failures text.new ≡ one_more (text_failures text.old) }
    ensures same { result ≢ Err SourceFault.Read → text_failures text.new ≡ text_failures text.old }
{
    text.require_line(1)?;
    let version = first_version(text.raw())?;
    Ok(version)
}
