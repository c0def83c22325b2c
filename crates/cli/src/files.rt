//! A case in two files.

ghost use Rattle.std.specs.Prelude.{◌≡◌, ◌≢◌, ◌⊎◌, ◌<◌, ◌^◌, Err, IfSome, codes};
ghost use Rattle.std.specs.Io.KnownBytes.{Appends};
ghost use Rattle.checker.specs.Cases.{texts_result};
ghost use Rattle.counted.specs.Counting.{left_of, failures_of};
ghost use Rattle.answers.specs.Output.{line_of, status_of};
ghost use Rattle.cli.specs.Output.{Ends};

use crate::lines::{answer_bad_device, answer_bad_memory, say};
use answers::{line_of, status_of};
use checker::{CaseFault, check_streams};
use counted::Counted;
use std::alloc::Global;
use std::fs;
use std::io::{BufRead, BufReader, Write};
use std::rt::Files;
use verdict::Verdict;

/// How many bytes of an input are requested at once; otherwise a pipe would be read byte by byte.
pub const INPUT_BYTES: usize = 64 * 1024;

/// Answers a case whose trace and witness are two texts: writes the line of the trace's fault, else of the witness's,
/// else of the verdict, and returns its status, as `run` does for a case in one text. Both are read while the case is
/// judged, and the readers are returned. The three counts of failures must be below 2^50 before the call; those of new
/// ends are.
pub fn run_files<A: BufRead, B: BufRead, W: Write>(
    alloc: Global,
    a: Counted<A>,
    b: Counted<B>,
    w: &mut Counted<W>,
) -> (u8, Counted<A>, Counted<B>)
    requires trace { failures_of a < 2 ^ 50 }
    requires witness { failures_of b < 2 ^ 50 }
    requires writer { failures_of w.old < 2 ^ 50 }
    ensures check { result.0 ≢ 5 → IfSome (left_of A.remaining a) (λ xs. IfSome (left_of B.remaining b) (λ ys.
        Ends (status_of (texts_result xs ys)) (line_of (texts_result xs ys)) result.0 (left_of W.contents w.old)
        (left_of W.contents w.new))) }

    // The status is 5 only if a count of failures grew. The line says so if no write failed.
    ensures device { result.0 ≡ 5 → (failures_of a < failures_of result.1) ⊎ (failures_of b < failures_of result.2)
        ⊎ (failures_of w.old < failures_of w.new) }
    ensures told { result.0 ≡ 5 → failures_of w.new ≡ failures_of w.old →
        Appends (left_of W.contents w.old) (left_of W.contents w.new) (codes "bad device\n") }
    ensures quiet_trace { result.0 ≢ 5 → failures_of result.1 ≡ failures_of a }
    ensures quiet_witness { result.0 ≢ 5 → failures_of result.2 ≡ failures_of b }
    ensures quiet_writer { result.0 ≢ 5 → failures_of w.new ≡ failures_of w.old }
{
    let (answer, a, b) = check_streams(alloc, a, b);
    let status = tell_case(alloc, &answer, w);
    (status, a, b)
}

/// Answers a case in the files with these names: the trace's, which is opened first, and the witness's.
pub(crate) fn check_files<W: Write, H: Files>(
    rt: &H,
    alloc: Global,
    trace: &str,
    witness: &str,
    w: &mut Counted<W>,
) -> u8
    requires { failures_of w.old < 2 ^ 50 }
    ensures told { result ≡ 5 → failures_of w.new ≡ failures_of w.old →
        Appends (left_of W.contents w.old) (left_of W.contents w.new) (codes "bad device\n") }
    ensures quiet { result ≢ 5 → failures_of w.new ≡ failures_of w.old }
{
    let (Ok(trace), Ok(witness)) = (fs::open(rt, trace), fs::open(rt, witness)) else {
        return answer_bad_device(w);
    };
    let Ok(lines) = BufReader::with_capacity(alloc, INPUT_BYTES, trace) else {
        return answer_bad_memory(w);
    };
    let Ok(steps) = BufReader::with_capacity(alloc, INPUT_BYTES, witness) else {
        return answer_bad_memory(w);
    };
    let (status, _, _) = run_files(alloc, Counted::new(lines), Counted::new(steps), w);
    status
}

/// Writes the line of a case's answer, and returns its status, or 5 if a write failed.
pub(crate) fn tell_case<W: Write>(
    alloc: Global,
    answer: &Result<Verdict, CaseFault>,
    w: &mut Counted<W>,
) -> u8
    requires { failures_of w.old < 2 ^ 50 }
    ensures said { result ≢ 5 → Ends (status_of answer.now) (line_of answer.now) result (left_of W.contents w.old)
        (left_of W.contents w.new) }
    ensures unread { answer.now ≡ Err CaseFault.Read → result ≡ 5 }
    ensures told { answer.now ≡ Err CaseFault.Read → failures_of w.new ≡ failures_of w.old →
        Appends (left_of W.contents w.old) (left_of W.contents w.new) (codes "bad device\n") }
    ensures device { answer.now ≢ Err CaseFault.Read → result ≡ 5 → failures_of w.old < failures_of w.new }
    ensures quiet { result ≢ 5 → failures_of w.new ≡ failures_of w.old }
{
    match answer {
        Err(CaseFault::Read) => answer_bad_device(w),
        Err(CaseFault::OutOfMemory) => answer_bad_memory(w),
        answer => match line_of(alloc, answer) {
            Ok(line) => say(w, line.as_slice(), status_of(answer)),
            Err(_) => answer_bad_memory(w),
        },
    }
}
