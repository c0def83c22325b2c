//! The commands that open no file.

ghost use Rattle.std.specs.Prelude.{Err, ◌≡◌, ◌≢◌, ◌⊎◌, ◌<◌, ◌^◌, true, false, IfSome, codes};
ghost use Rattle.std.specs.Io.KnownBytes.{Appends};
ghost use Rattle.checker.specs.Cases.{case_result};
ghost use Rattle.checker.specs.OneText.{GivesText};
ghost use Rattle.counted.specs.Counting.{left_of, failures_of, one_more};
ghost use Rattle.answer_stream.specs.Endings.{TellsBefore};
ghost use Rattle.answers.specs.Output.{line_of, status_of};
ghost use Rattle.cli.specs.Endings.{EndsFor};
ghost use Rattle.cli.specs.HexText.{segment_in};
ghost use Rattle.cli.specs.Output.{Ends};
ghost use Rattle.cli.specs.Requests.{answers_many, is_command, reads_input, records, IsWhole};
ghost use Rattle.cli.specs.SegmentText.{segment_line, segment_status};
ghost use Rattle.cli.specs.declared.request.Request.{Request};

use crate::argument::{ArgumentFault, read_segment};
use crate::files::tell_case;
use crate::lines::{answer_bad_memory, answer_bad_usage, say};
use crate::record::answer_record;
use crate::request::{Command, Request};
use crate::segment_line::{segment_line, segment_status};
use answer_stream::answer_cases;
use checker::{CaseFault, check_reader};
use counted::Counted;
use std::alloc::Global;
use std::io::{BufRead, Write};
use std::sync::Wait;
use std::thread::Threads;
use verdict::Verdict;

/// Does what a command says, which reads at most `r` and writes to `w`.
pub(crate) fn run_command<R: BufRead + Send, W: Write + Send, H: Threads + Wait + Sync>(
    rt: &H,
    alloc: Global,
    command: Command<'_>,
    r: &mut Counted<R>,
    w: &mut Counted<W>,
) -> u8
    requires few { (failures_of r.old < 2 ^ 50) × (failures_of w.old < 2 ^ 50) }
    requires whole { IsWhole (Request.Command command) }
    ensures ends { result ≢ 5 → EndsFor (Request.Command command.entry) (left_of R.remaining r.old) result
        (left_of W.contents w.old) (left_of W.contents w.new) }
    ensures unread { reads_input (Request.Command command.entry) ≡ false → r.new ≡ r.old }
    ensures device { records (Request.Command command.entry) ≡ false → result ≡ 5 →
        (failures_of r.old < failures_of r.new) ⊎ (failures_of w.old < failures_of w.new) }
    ensures told { answers_many (Request.Command command.entry) ≡ false → result ≡ 5 →
        failures_of w.new ≡ failures_of w.old →
        Appends (left_of W.contents w.old) (left_of W.contents w.new) (codes "bad device\n") }
    ensures told_many { answers_many (Request.Command command.entry) ≡ true → result ≡ 5 →
        failures_of w.new ≡ failures_of w.old →
        ∥ TellsBefore (left_of R.remaining r.old) (codes "bad device\n") (left_of W.contents w.old)
        (left_of W.contents w.new) ∥₁ }
    ensures quiet { result ≢ 5 → (failures_of r.new ≡ failures_of r.old) × (failures_of w.new ≡ failures_of w.old) }
{
    match command {
        Command::Check => check(alloc, r, w),
        Command::Many(workers) => answer_cases(rt, alloc, workers, r, w),
        Command::Record(plan) => answer_record(rt, alloc, plan, w),
        Command::Segment(text) => show(alloc, text, w),
    }
}

/// Does what is requested if it is a command, as `run_command`; all else is bad usage here.
pub(crate) fn run_if_command<R: BufRead + Send, W: Write + Send, H: Threads + Wait + Sync>(
    rt: &H,
    alloc: Global,
    request: Request<'_>,
    r: &mut Counted<R>,
    w: &mut Counted<W>,
) -> u8
    requires few { (failures_of r.old < 2 ^ 50) × (failures_of w.old < 2 ^ 50) }
    requires whole { IsWhole request }
    ensures ends { is_command request.entry ≡ true → result ≢ 5 →
        EndsFor request.entry (left_of R.remaining r.old) result (left_of W.contents w.old) (left_of W.contents w.new) }
    ensures usage { is_command request.entry ≡ false → result ≢ 5 →
        Ends 3 (codes "bad usage\n") result (left_of W.contents w.old) (left_of W.contents w.new) }
    ensures unread { reads_input request.entry ≡ false → r.new ≡ r.old }
    ensures device { records request.entry ≡ false → result ≡ 5 →
        (failures_of r.old < failures_of r.new) ⊎ (failures_of w.old < failures_of w.new) }
    ensures told { answers_many request.entry ≡ false → result ≡ 5 → failures_of w.new ≡ failures_of w.old →
        Appends (left_of W.contents w.old) (left_of W.contents w.new) (codes "bad device\n") }
    ensures told_many { answers_many request.entry ≡ true → result ≡ 5 → failures_of w.new ≡ failures_of w.old →
        ∥ TellsBefore (left_of R.remaining r.old) (codes "bad device\n") (left_of W.contents w.old)
        (left_of W.contents w.new) ∥₁ }
    ensures quiet { result ≢ 5 → (failures_of r.new ≡ failures_of r.old) × (failures_of w.new ≡ failures_of w.old) }
{
    match request {
        Request::Command(command) => run_command(rt, alloc, command, r, w),
        Request::Help(_) | Request::Files(..) | Request::Unknown => answer_bad_usage(w),
    }
}

/// Answers a case, which is judged while it is read.
pub(crate) fn check<R: BufRead, W: Write>(
    alloc: Global,
    r: &mut Counted<R>,
    w: &mut Counted<W>,
) -> u8
    requires { (failures_of r.old < 2 ^ 50) × (failures_of w.old < 2 ^ 50) }
    ensures check { result ≢ 5 →
        IfSome (left_of R.remaining r.old) (λ text.
        Ends (status_of (case_result text)) (line_of (case_result text)) result (left_of W.contents w.old)
        (left_of W.contents w.new)) }
    ensures device { result ≡ 5 → (failures_of r.old < failures_of r.new) ⊎ (failures_of w.old < failures_of w.new) }
    ensures told { result ≡ 5 → failures_of w.new ≡ failures_of w.old →
        Appends (left_of W.contents w.old) (left_of W.contents w.new) (codes "bad device\n") }
    ensures quiet { result ≢ 5 → (failures_of r.new ≡ failures_of r.old) × (failures_of w.new ≡ failures_of w.old) }
{
    let answer = judge(alloc, r);
    tell_case(alloc, &answer, w)
}

// The answer to the case that a reader gives.
fn judge<R: BufRead>(alloc: Global, r: &mut Counted<R>) -> Result<Verdict, CaseFault>
    ensures exact { GivesText result (left_of R.remaining r.old) }
    ensures read { result ≡ Err CaseFault.Read → failures_of r.new ≡ one_more (failures_of r.old) }
    ensures same { result ≢ Err CaseFault.Read → failures_of r.new ≡ failures_of r.old }
{
    let (answer, lent) = check_reader(alloc, r.lent());
    let counts = lent.counts();
    drop(lent);
    r.count_on(counts);
    answer
}

/// Writes the segment of a hex text, or its fault.
pub(crate) fn show<W: Write>(alloc: Global, text: &str, w: &mut Counted<W>) -> u8
    requires { failures_of w.old < 2 ^ 50 }
    ensures segment { result ≢ 5 →
        Ends (segment_status (segment_in text.now)) (segment_line (segment_in text.now)) result
        (left_of W.contents w.old) (left_of W.contents w.new) }
    ensures device { result ≡ 5 → failures_of w.old < failures_of w.new }
    ensures quiet { result ≢ 5 → failures_of w.new ≡ failures_of w.old }
{
    match read_segment(alloc, text) {
        Err(ArgumentFault::OutOfMemory) => answer_bad_memory(w),
        answer => match segment_line(alloc, &answer) {
            Ok(line) => say(w, line.as_slice(), segment_status(&answer)),
            Err(_) => answer_bad_memory(w),
        },
    }
}
