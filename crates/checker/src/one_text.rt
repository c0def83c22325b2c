//! A case in one text, judged while it is read.
//!
//! The witness comes after the whole trace, so the lines of the trace are kept until steps take them. The steps are
//! read as they come.

ghost use Rattle.std.specs.Prelude.{◌≡◌, ◌≢◌, [], true, false, Err, Ok, IfErr, IfOk, IfSome, Some, None};
ghost use Rattle.case_forms.specs.declared.trace.Trace.{Trace};
ghost use Rattle.case_forms.specs.declared.steps.Witness.{Witness};
ghost use Rattle.counted.specs.Counting.{left_of, failures_of, one_more};
ghost use Rattle.case_lines.specs.CaseLines.{has_met, KeepsWitness};
ghost use Rattle.trace_reader.specs.TraceText.{first_place};
ghost use Rattle.trace_reader.specs.TraceLeft.{fault_of, place_of, end_of_text, trace_left, lines_left, rows_behind};
ghost use Rattle.trace_reader.specs.TraceLeft.{kept_of, reader_failures, AreAt, IsBegun, IsFresh, IsReadThrough};
ghost use Rattle.trace_reader.specs.TraceLeft.{KeepsLine};
ghost use Rattle.line_fields.specs.Left.{Yields};
ghost use Rattle.checker.specs.Ahead.{IsAll, TraceFails};
ghost use Rattle.checker.specs.Meaning.{Means};
ghost use Rattle.checker.specs.OneText.{GivesText, AreInText, steps_behind, trace_with};
ghost use Rattle.checker.specs.Streaming.{Tells};

use crate::ahead::Ahead;
use crate::case::{CaseFault, trace_fault, witness_fault};
use crate::laws::verdict_means;
use crate::verdicts::judge;
use case_forms::Header;
use case_lines::KeptLines;
use counted::Counted;
use line_fields::{SourceFault, TextFault};
use std::alloc::Global;
use std::io::BufRead;
use trace_reader::TraceReader;
use verdict::Verdict;
use witness::StepReader;

/// The answer of `check_case` to the text that a reader gives, however its bytes come in pieces: the trace's fault,
/// else the witness's, else the verdict on the case. The fault is `Read` only if the reader's `failures()` grew in the
/// call. The reader is returned.
///
/// No clause says when it stops reading or how much it keeps; tests do. After the first fault or a failed read, it
/// reads nothing more. It keeps one line of the text, and of the trace what its lines hold until steps take them.
pub fn check_reader<R: BufRead>(
    alloc: Global,
    source: Counted<R>,
) -> (Result<Verdict, CaseFault>, Counted<R>)
    // The answer is that of the case, if the bytes are known.
    ensures exact { GivesText result.0 (left_of R.remaining source) }

    // What the verdict says of the trace and the witness of the case, and what follows from a yes.
    ensures means { (t : Trace) (w : Witness) → AreInText (left_of R.remaining source) t w → IfOk result.0 (Means t w) }

    // A failed read is counted, and nothing else.
    ensures read { result.0 ≡ Err CaseFault.Read → failures_of result.1 ≡ one_more (failures_of source) }
    ensures same { result.0 ≢ Err CaseFault.Read → failures_of result.1 ≡ failures_of source }
{
    verdict_means();
    judge_text(alloc, source)
}

// The trace's fault, else the witness's, else the verdict.
fn judge_text<R: BufRead>(
    alloc: Global,
    source: Counted<R>,
) -> (Result<Verdict, CaseFault>, Counted<R>)
    ensures exact { GivesText result.0 (left_of R.remaining source) }
    ensures read { result.0 ≡ Err CaseFault.Read → failures_of result.1 ≡ one_more (failures_of source) }
    ensures same { result.0 ≢ Err CaseFault.Read → failures_of result.1 ≡ failures_of source }
{
    let mut trace = TraceReader::of_case(alloc, source);
    match read_trace(alloc, &mut trace) {
        Ok((header, lines)) => {
            if trace.has_met_witness() {
                judge_lines(alloc, &header, lines, trace.into_source())
            } else {
                let missing = witness_fault(TextFault::missing_line(1));
                (Err(missing), trace.into_source())
            }
        }
        Err(fault) => (Err(fault), trace.into_source()),
    }
}

// The header and the event lines of a trace, of which nothing was read.
fn read_trace<R: BufRead>(
    alloc: Global,
    trace: &mut TraceReader<R>,
) -> Result<(Header, KeptLines), CaseFault>
    requires working { fault_of trace.old ≡ None }
    requires fresh { IsFresh trace.old }
    ensures whole { IfOk result (λ read. IfSome (trace_left R.remaining trace.old) (λ whole.
        whole ≡ Ok (trace_with read.0 read.1))) }
    ensures at { IfOk result (λ read. AreAt (first_place read.0) read.1) }
    ensures ended { IfOk result (λ read. IsReadThrough trace.new) }
    ensures witness { IfOk result (λ read.
        KeepsWitness (rows_behind R.remaining trace.old) (rows_behind R.remaining trace.new)) }
    ensures fault { IfErr result (λ e. TraceFails e (trace_left R.remaining trace.old)) }
    ensures read { result ≡ Err CaseFault.Read → reader_failures trace.new ≡ one_more (reader_failures trace.old) }
    ensures same { result ≢ Err CaseFault.Read → reader_failures trace.new ≡ reader_failures trace.old }
{
    let header = match trace.header() {
        Ok(header) => header,
        Err(SourceFault::Text(fault)) => return Err(trace_fault(fault)),
        Err(SourceFault::Read) => return Err(CaseFault::Read),
    };
    let lines = read_lines(alloc, trace)?;
    Ok((header, lines))
}

// The event lines of a trace whose header was read.
fn read_lines<R: BufRead>(alloc: Global, trace: &mut TraceReader<R>) -> Result<KeptLines, CaseFault>
    requires working { fault_of trace.old ≡ None }
    requires begun { IsBegun trace.old }
    requires none { kept_of trace.old ≡ [] }
    ensures all { IfOk result (λ lines. IsAll (lines_left R.remaining trace.old) lines) }
    ensures at { IfOk result (λ lines. AreAt (place_of trace.old) lines) }
    ensures ended { IfOk result (λ lines. IsReadThrough trace.new) }
    ensures witness { IfOk result (λ lines.
        KeepsWitness (rows_behind R.remaining trace.old) (rows_behind R.remaining trace.new)) }
    ensures fault { IfErr result (λ e. TraceFails e (lines_left R.remaining trace.old)) }
    ensures read { result ≡ Err CaseFault.Read → reader_failures trace.new ≡ one_more (reader_failures trace.old) }
    ensures same { result ≢ Err CaseFault.Read → reader_failures trace.new ≡ reader_failures trace.old }
{
    let mut lines = KeptLines::new(alloc);
    while keep_next(trace, &mut lines)? {}
    Ok(lines)
}

// Appends the next event line of a trace whose header was read. False at the end.
#[inline(always)]
fn keep_next<R: BufRead>(
    trace: &mut TraceReader<R>,
    lines: &mut KeptLines,
) -> Result<bool, CaseFault>
    requires working { fault_of trace.old ≡ None }
    requires begun { IsBegun trace.old }
    requires none { kept_of trace.old ≡ [] }
    ensures next { result ≡ Ok true →
        KeepsLine (lines_left R.remaining trace.old) (lines_left R.remaining trace.new) (place_of trace.old)
        (place_of trace.new) lines.old lines.new }
    ensures end { result ≡ Ok false
        → Yields (lines_left R.remaining trace.old) (lines_left R.remaining trace.new) None }
    ensures ended { result ≡ Ok false → IsReadThrough trace.new }
    ensures left { result ≡ Ok false → lines.new ≡ lines.old }
    ensures witness { IfOk result (λ more.
        KeepsWitness (rows_behind R.remaining trace.old) (rows_behind R.remaining trace.new)) }
    ensures working { IfOk result (λ more. fault_of trace.new ≡ None) }
    ensures begun { IsBegun trace.new }
    ensures none { kept_of trace.new ≡ [] }
    ensures fault { IfErr result (λ e. TraceFails e (lines_left R.remaining trace.old)) }
    ensures read { result ≡ Err CaseFault.Read → reader_failures trace.new ≡ one_more (reader_failures trace.old) }
    ensures same { result ≢ Err CaseFault.Read → reader_failures trace.new ≡ reader_failures trace.old }
{
    match trace.keep_next(lines) {
        Ok(more) => Ok(more),
        Err(SourceFault::Text(fault)) => Err(trace_fault(fault)),
        Err(SourceFault::Read) => Err(CaseFault::Read),
    }
}

// The verdict on these lines after their header, and on the steps of a witness whose first line was read; or the first
// fault of these steps.
fn judge_lines<R: BufRead>(
    alloc: Global,
    header: &Header,
    lines: KeptLines,
    source: Counted<R>,
) -> (Result<Verdict, CaseFault>, Counted<R>)
    requires { AreAt (first_place header.now) lines }
    ensures tells { Tells header.now (Some (Ok lines))
        (steps_behind header.now.version (left_of R.remaining source)) result.0 }
    ensures read { result.0 ≡ Err CaseFault.Read → failures_of result.1 ≡ one_more (failures_of source) }
    ensures same { result.0 ≢ Err CaseFault.Read → failures_of result.1 ≡ failures_of source }
{
    let before = source.failures();
    let mut lines = match Ahead::of_lines(alloc, header, lines) {
        Ok(lines) => lines,
        Err(_) => return (Err(CaseFault::OutOfMemory), source),
    };
    let mut steps = StepReader::behind_first_line(alloc, header.version, source);
    let answer = judge(alloc, header, &mut lines, &mut steps);
    let source = steps.into_source();
    match answer {
        // Lines in memory are read without fail.
        Err(CaseFault::Read) if source.failures() == before => {
            (Err(CaseFault::OutOfMemory), source)
        }
        answer => (answer, source),
    }
}
