//! The next line of a text whose lines are read on request.

ghost use Rattle.std.specs.Prelude.{◌≡◌, ◌≢◌, ◌⊎◌, ◌<◌, ◌+◌, ◌^◌, Err, true, false, OnOk};
ghost use Rattle.counted.specs.Counting.{left_of, line_of, failures_of, one_more};
ghost use Rattle.line_fields.specs.declared.fault.TextFault.{TextFault};
ghost use Rattle.line_fields.specs.Rows.{rows_of, TakesRow, HasNoRow, next_text, needed_text, FailsAt};

use crate::fault::{FaultKind, SourceFault, TextFault};
use crate::lines::{MAX_LINE, without_line_end};
use case_forms::Span;
use counted::Counted;
use std::alloc::Global;
use std::io::BufRead;

/// Reads the next line with its end, of a text whose next line has this number; the answer is whether there is one. The
/// source's `line` gives it. A line that is too long isn't kept. The error is a failed read, or that memory ran out.
#[inline(always)]
pub fn next_line<B: BufRead>(
    source: &mut Counted<B>,
    alloc: Global,
    number: u64,
) -> Result<bool, SourceFault>
    ensures line { result ≡ Ok true → TakesRow (rows_of (left_of B.remaining source.old))
        (rows_of (left_of B.remaining source.new)) (line_of source.new) }
    ensures none { result ≡ Ok false → HasNoRow (rows_of (left_of B.remaining source.old))
        (rows_of (left_of B.remaining source.new)) }
    ensures fault { (e : TextFault) → result ≡ Err (SourceFault.Text e)
        → FailsAt (next_text number) e (rows_of (left_of B.remaining source.old)) }
    ensures long { (e : TextFault) → result ≡ Err (SourceFault.Text e)
        → (e.kind ≡ FaultKind.LineTooLong) ⊎ (e.kind ≡ FaultKind.OutOfMemory) }
    ensures read { result ≡ Err SourceFault.Read → failures_of source.new ≡ one_more (failures_of source.old) }
    ensures same { result ≢ Err SourceFault.Read → failures_of source.new ≡ failures_of source.old }
{
    // An end has at most two bytes.
    match source.next_line(alloc, MAX_LINE + 2) {
        Ok(None) => Ok(false),
        Ok(Some(0)) => Ok(true),
        Ok(Some(before)) => {
            let (text, _) = without_line_end(source.line());
            Err(SourceFault::Text(TextFault {
                kind: FaultKind::LineTooLong,
                span: Span {
                    line: number,
                    start: 0,
                    stop: before as usize + text.len(),
                },
            }))
        }
        Err(counted::ReadFault::Read) => Err(SourceFault::Read),
        Err(counted::ReadFault::OutOfMemory) => Err(SourceFault::Text(TextFault::out_of_memory())),
    }
}

/// Reads the next line with its end, which must exist; the source's `line` gives it. A missing one is Header at its
/// number, columns 0 to 0.
pub fn require_line<B: BufRead>(
    source: &mut Counted<B>,
    alloc: Global,
    number: u64,
) -> Result<(), SourceFault>
    ensures line { OnOk result (TakesRow (rows_of (left_of B.remaining source.old))
        (rows_of (left_of B.remaining source.new)) (line_of source.new)) }
    ensures fault { (e : TextFault) → result ≡ Err (SourceFault.Text e)
        → FailsAt (needed_text number) e (rows_of (left_of B.remaining source.old)) }
    ensures read { result ≡ Err SourceFault.Read → failures_of source.new ≡ one_more (failures_of source.old) }
    ensures same { result ≢ Err SourceFault.Read → failures_of source.new ≡ failures_of source.old }
{
    if next_line(source, alloc, number)? {
        return Ok(());
    }
    Err(SourceFault::Text(TextFault::missing_line(number)))
}

/// What the line after a line of this moment and this number is read with: the moment below which it falls, and its own
/// number.
#[inline(always)]
pub fn after_line(moment: u64, number: u64) -> (u64, u64)
    requires { number + 1 < 2 ^ 64 }
    ensures { result ≡ (moment, number + 1) }
{
    (moment, number + 1)
}
