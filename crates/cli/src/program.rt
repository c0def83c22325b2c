//! The whole run of the program.

ghost use Rattle.std.specs.Prelude.{◌≡◌, ◌≢◌, ◌⊎◌, ◌<◌, ◌^◌, ℕ, List, true, false, IfSome, codes, map};
ghost use Rattle.std.specs.Io.KnownBytes.{Appends};
ghost use Rattle.checker.specs.Cases.{case_result};
ghost use Rattle.counted.specs.Counting.{left_of, failures_of};
ghost use Rattle.answer_stream.specs.Endings.{EndsMany, TellsBefore};
ghost use Rattle.answers.specs.Output.{line_of, status_of};
ghost use Rattle.cli.specs.CommandLine.{AsksCheck, AsksNothing, AsksSegment};
ghost use Rattle.cli.specs.Endings.{EndsFor};
ghost use Rattle.cli.specs.HexText.{segment_in};
ghost use Rattle.cli.specs.ManyWords.{AsksMany};
ghost use Rattle.cli.specs.Output.{Ends};
ghost use Rattle.cli.specs.RecordWords.{AsksRecord};
ghost use Rattle.cli.specs.Recorded.{EndsRecord};
ghost use Rattle.cli.specs.Requests.{answers_many, may_be_refused, reads_input, IsWhole};
ghost use Rattle.cli.specs.SegmentText.{segment_line, segment_status};
ghost use Rattle.two_hosts.specs.declared.plan.Plan.{Plan};

use crate::commands::{check, run_command, run_if_command, show};
use crate::files::check_files;
use crate::lines::{answer_bad_memory, answer_bad_usage};
use crate::request::{Command, Request, request_of};
use counted::Counted;
use help::{Program, Topic, help_page, print_help};
use std::alloc::Global;
use std::io::{BufRead, Write};
use std::rt::Files;
use std::sync::Wait;
use std::thread::Threads;

/// Does what is requested, and returns the status: what `run_all` does if it is a command; what `run_files` does with
/// two named files, or 5 if one can't be opened; 0 if help or the version is printed; 3 if the words are unknown. If
/// memory runs out, it is 4. Both counts of failures must be below 2^50 before the call; those of new ends are.
pub fn run_request<R: BufRead + Send, W: Write + Send, H: Files + Threads + Wait + Sync>(
    rt: &H,
    alloc: Global,
    request: Request<'_>,
    r: &mut Counted<R>,
    w: &mut Counted<W>,
) -> u8
    requires few { (failures_of r.old < 2 ^ 50) × (failures_of w.old < 2 ^ 50) }
    requires whole { IsWhole request }
    ensures ends { result ≢ 5 → EndsFor request.entry (left_of R.remaining r.old) result (left_of W.contents w.old)
        (left_of W.contents w.new) }
    ensures unread { reads_input request.entry ≡ false → r.new ≡ r.old }

    // If nothing else can be refused, the status is 5 only if a count of failures grew. The last line says so if no
    // write failed; for `many`, answers to some of the first cases, perhaps none, come before it.
    ensures device { may_be_refused request.entry ≡ false → result ≡ 5 →
        (failures_of r.old < failures_of r.new) ⊎ (failures_of w.old < failures_of w.new) }
    ensures told { answers_many request.entry ≡ false → result ≡ 5 → failures_of w.new ≡ failures_of w.old →
        Appends (left_of W.contents w.old) (left_of W.contents w.new) (codes "bad device\n") }
    ensures told_many { answers_many request.entry ≡ true → result ≡ 5 → failures_of w.new ≡ failures_of w.old →
        ∥ TellsBefore (left_of R.remaining r.old) (codes "bad device\n") (left_of W.contents w.old)
        (left_of W.contents w.new) ∥₁ }
    ensures quiet { result ≢ 5 → (failures_of r.new ≡ failures_of r.old) × (failures_of w.new ≡ failures_of w.old) }
{
    match request {
        Request::Help(topic) => show_help(alloc, topic, w),
        Request::Files(trace, witness) => check_files(rt, alloc, trace, witness, w),
        Request::Command(command) => run_command(rt, alloc, command, r, w),
        Request::Unknown => answer_bad_usage(w),
    }
}

// Writes help, or the version.
fn show_help<W: Write>(alloc: Global, topic: Topic<'_>, w: &mut Counted<W>) -> u8
    requires { failures_of w.old < 2 ^ 50 }
    ensures help { result ≢ 5 → (text : List ℕ) × Ends 0 text result (left_of W.contents w.old)
        (left_of W.contents w.new) }
    ensures device { result ≡ 5 → failures_of w.old < failures_of w.new }
    ensures quiet { result ≢ 5 → failures_of w.new ≡ failures_of w.old }
{
    match help_page(alloc, Program::Tcpwit, topic) {
        Ok(text) => print_help(w, text.as_str()),
        Err(_) => answer_bad_memory(w),
    }
}

/// Does what the words after the program's name request, and returns the status: 0 if the case is explained or the
/// segment is printed, 1 if the case isn't explained, 2 if its text or the segment is refused, 3 if the words are
/// neither `check` alone nor `segment` with one word that doesn't begin with a dash, 4 if memory ran out, and 5 if a
/// read or a write failed, or `Counted` refused it. One line is written, which says the same; only `check` reads.
/// Writing `bad memory` takes no memory. Both counts of failures must be below 2^50 before the call; those of new ends
/// are.
pub fn run<R: BufRead, W: Write>(
    alloc: Global,
    words: &[&str],
    r: &mut Counted<R>,
    w: &mut Counted<W>,
) -> u8
    requires { (failures_of r.old < 2 ^ 50) × (failures_of w.old < 2 ^ 50) }
    ensures check { AsksCheck (map (λ word. word.now) words.now) → result ≢ 5 →
        IfSome (left_of R.remaining r.old) (λ text.
        Ends (status_of (case_result text)) (line_of (case_result text)) result (left_of W.contents w.old)
        (left_of W.contents w.new)) }
    ensures segment { (text : List ℕ) → AsksSegment (map (λ word. word.now) words.now) text → result ≢ 5 →
        Ends (segment_status (segment_in text)) (segment_line (segment_in text)) result (left_of W.contents w.old)
        (left_of W.contents w.new) }
    ensures usage { AsksNothing (map (λ word. word.now) words.now) → result ≢ 5 →
        Ends 3 (codes "bad usage\n") result (left_of W.contents w.old) (left_of W.contents w.new) }
    ensures unread { ¬ AsksCheck (map (λ word. word.now) words.now) → r.new ≡ r.old }

    // The status is 5 only if a count of failures grew. The line says so if no write failed.
    ensures device { result ≡ 5 → (failures_of r.old < failures_of r.new) ⊎ (failures_of w.old < failures_of w.new) }
    ensures told { result ≡ 5 → failures_of w.new ≡ failures_of w.old →
        Appends (left_of W.contents w.old) (left_of W.contents w.new) (codes "bad device\n") }
    ensures quiet { result ≢ 5 → (failures_of r.new ≡ failures_of r.old) × (failures_of w.new ≡ failures_of w.old) }
{
    match request_of(alloc, words) {
        Ok(Request::Command(Command::Check)) => check(alloc, r, w),
        Ok(Request::Command(Command::Segment(text))) => show(alloc, text, w),
        Ok(
            Request::Command(Command::Many(_) | Command::Record(_))
            | Request::Help(_)
            | Request::Files(..)
            | Request::Unknown,
        ) => answer_bad_usage(w),
        Err(_) => answer_bad_memory(w),
    }
}

/// Does what the words after the program's name request. For `many`, the cases of the input are checked by so many
/// threads while it is read, a line is written for each in their order, and the result is the greatest of their
/// statuses, or 0 if there are none. For `record`, two hosts talk, and what was recorded is written as a case; the
/// status is 0 if all rounds ended, and 1 if a limit was met. All other words do what they do in `run`. Both counts of
/// failures must be below 2^50 before the call; those of new ends are.
pub fn run_all<R: BufRead + Send, W: Write + Send, H: Threads + Wait + Sync>(
    rt: &H,
    alloc: Global,
    words: &[&str],
    r: &mut Counted<R>,
    w: &mut Counted<W>,
) -> u8
    requires { (failures_of r.old < 2 ^ 50) × (failures_of w.old < 2 ^ 50) }
    ensures many { (n : ℕ) → AsksMany (map (λ word. word.now) words.now) n → result ≢ 5 →
        IfSome (left_of R.remaining r.old) (λ text. EndsMany text result (left_of W.contents w.old)
        (left_of W.contents w.new)) }
    ensures check { AsksCheck (map (λ word. word.now) words.now) → result ≢ 5 →
        IfSome (left_of R.remaining r.old) (λ text.
        Ends (status_of (case_result text)) (line_of (case_result text)) result (left_of W.contents w.old)
        (left_of W.contents w.new)) }
    ensures segment { (text : List ℕ) → AsksSegment (map (λ word. word.now) words.now) text → result ≢ 5 →
        Ends (segment_status (segment_in text)) (segment_line (segment_in text)) result (left_of W.contents w.old)
        (left_of W.contents w.new) }
    ensures recorded { (plan : Plan) → AsksRecord (map (λ word. word.now) words.now) plan → result ≢ 5 →
        EndsRecord plan result (left_of W.contents w.old) (left_of W.contents w.new) }
    ensures usage { AsksNothing (map (λ word. word.now) words.now)
        → ((n : ℕ) → ¬ AsksMany (map (λ word. word.now) words.now) n) →
        ((plan : Plan) → ¬ AsksRecord (map (λ word. word.now) words.now) plan) → result ≢ 5 →
        Ends 3 (codes "bad usage\n") result (left_of W.contents w.old) (left_of W.contents w.new) }
    ensures unread { ¬ AsksCheck (map (λ word. word.now) words.now)
        → ((n : ℕ) → ¬ AsksMany (map (λ word. word.now) words.now) n) → r.new ≡ r.old }

    // Except for a recording, for which a thread may also be refused, the status is 5 only if a count of failures grew.
    // The last line says so if no write failed; for `many`, answers to some of the first cases, perhaps none, come
    // before it.
    ensures device { ((plan : Plan) → ¬ AsksRecord (map (λ word. word.now) words.now) plan) → result ≡ 5 →
        (failures_of r.old < failures_of r.new) ⊎ (failures_of w.old < failures_of w.new) }
    ensures told { ((n : ℕ) → ¬ AsksMany (map (λ word. word.now) words.now) n) → result ≡ 5 →
        failures_of w.new ≡ failures_of w.old →
        Appends (left_of W.contents w.old) (left_of W.contents w.new) (codes "bad device\n") }
    ensures told_many { (n : ℕ) → AsksMany (map (λ word. word.now) words.now) n → result ≡ 5 →
        failures_of w.new ≡ failures_of w.old →
        ∥ TellsBefore (left_of R.remaining r.old) (codes "bad device\n") (left_of W.contents w.old)
        (left_of W.contents w.new) ∥₁ }
    ensures quiet { result ≢ 5 → (failures_of r.new ≡ failures_of r.old) × (failures_of w.new ≡ failures_of w.old) }
{
    match request_of(alloc, words) {
        Ok(request) => run_if_command(rt, alloc, request, r, w),
        Err(_) => answer_bad_memory(w),
    }
}
