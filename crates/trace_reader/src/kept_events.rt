//! An event line that is kept: what is kept of it is read into its place, if it is written as usual.

ghost use Rattle.std.specs.Prelude.{◌≡◌, IfSome, IfNone, IfOk, IfErr, OnErr};
ghost use Rattle.line_fields.specs.Reading.{Fails};
ghost use Rattle.trace_reader.specs.EventLines.{line_of};
ghost use Rattle.trace_reader.specs.Plain.{IsAppended};

use crate::events::event_line;
use crate::plain::plain_line;
use case_forms::Version;
use case_lines::KeptLines;
use line_fields::TextFault;
use std::alloc::Global;

/// Appends the event line with that number, as `event_line` reads it, and returns its moment. The lines change only if
/// there is no fault.
#[inline(always)]
pub(crate) fn keep_event_line(
    alloc: Global,
    version: Version,
    before: u64,
    number: u64,
    raw: &[u8],
    lines: &mut KeptLines,
) -> Result<u64, TextFault>
    ensures kept { IfOk result (λ moment.
        IsAppended (line_of version (before, number) raw.now) moment lines.old lines.new) }
    ensures fault { IfErr result (λ e. Fails e.kind e (line_of version (before, number) raw.now)) }
    ensures left { OnErr result (lines.new ≡ lines.old) }
{
    match keep_plain(version, before, number, raw, lines) {
        Some(moment) => Ok(moment),
        None => keep_exactly(alloc, version, before, number, raw, lines),
    }
}

// The same for a line that is written as usual. `None`: it isn't, or memory ran out; then the lines don't change.
#[inline(always)]
fn keep_plain(
    version: Version,
    before: u64,
    number: u64,
    raw: &[u8],
    lines: &mut KeptLines,
) -> Option<u64>
    ensures kept { IfSome result (λ moment.
        IsAppended (line_of version (before, number) raw.now) moment lines.old lines.new) }
    ensures left { IfNone result (lines.new ≡ lines.old) }
{
    let line = plain_line(version, before, number, raw)?;
    match lines.push_spelled(number, line.record, line.digits) {
        Ok(true) => Some(line.record.moment),
        Ok(false) | Err(_) => None,
    }
}

// The same for any line.
#[inline(never)]
fn keep_exactly(
    alloc: Global,
    version: Version,
    before: u64,
    number: u64,
    raw: &[u8],
    lines: &mut KeptLines,
) -> Result<u64, TextFault>
    ensures kept { IfOk result (λ moment.
        IsAppended (line_of version (before, number) raw.now) moment lines.old lines.new) }
    ensures fault { IfErr result (λ e. Fails e.kind e (line_of version (before, number) raw.now)) }
    ensures left { OnErr result (lines.new ≡ lines.old) }
{
    let line = event_line(alloc, version, before, number, raw)?;
    let moment = line.moment;
    lines.push(line)?;
    Ok(moment)
}
