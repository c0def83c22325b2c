//! The workers, and the call that starts them.

ghost use Rattle.std.specs.Prelude.{◌≡◌, ◌≢◌, ◌<◌, ◌^◌};
ghost use Rattle.counted.specs.Counting.{left_of, failures_of};
ghost use Rattle.answer_stream.specs.Outcomes.{Tells};
ghost use Rattle.answer_stream.specs.declared.work.Outcome.{Outcome};

use crate::batch::{Batch, TakenCases};
use crate::printer::Printer;
use crate::source::Source;
use crate::state::State;
use crate::stream::{Lent, Stream};
use counted::Counted;
use std::alloc::Global;
use std::io::{BufRead, Write};
use std::marker::Brand;
use std::sync::{Condvar, Mutex, Wait};
use std::thread;
use std::thread::Threads;

/// How a run on the cases of an input ended.
#[derive(Clone, Copy)]
pub(crate) enum Outcome {
    /// All cases were answered, with this greatest status, or 0 if there are none.
    All(u8),
    /// A read failed. The cases before it were answered.
    ReadFailed,
    /// There was no memory for a case or the list of answers. Cases before it were answered.
    OutOfMemory,
    /// A write failed.
    WriteFailed,
}

// What the workers share.
struct Shared<'a, 'b, B: BufRead, W: Write, S: Stream> {
    source: Mutex<Source<'a, B, S>>,
    printer: Mutex<Printer<'b, W, S>>,
    // Answers were taken.
    moved: Condvar,
}

// Takes the next cases. Returns whether there is one.
fn take<B: BufRead, S: Stream, H: Wait>(
    rt: &H,
    alloc: Global,
    source: &Mutex<Source<'_, B, S>>,
    cases: &mut TakenCases<S>,
) -> bool {
    let mut source = source.lock(rt);
    cases.take(alloc, &mut source)
}

// Prints answers, or leaves them to the worker that prints the one before them. Returns whether to go on.
fn give<W: Write, S: Stream, H: Wait>(
    rt: &H,
    printer: &Mutex<Printer<'_, W, S>>,
    moved: &Condvar,
    batch: Batch<S>,
) -> bool {
    let first = batch.first;
    let mut printer = moved.wait_while(rt, printer.lock(rt), |p| p.is_full(first));
    printer.take(batch);
    let goes_on = !printer.is_stopped();
    drop(printer);
    moved.notify_all();
    goes_on
}

// What one worker does.
fn work<B: BufRead, W: Write, S: Stream, H: Wait>(
    rt: &H,
    alloc: Global,
    shared: &Shared<'_, '_, B, W, S>,
) {
    let mut cases = TakenCases::new(alloc);
    for _ in rt.forever() {
        if !take(rt, alloc, &shared.source, &mut cases) {
            return;
        }
        let batch = cases.answer(alloc);
        if !give(rt, &shared.printer, &shared.moved, batch) {
            return;
        }
    }
}

// How the run ended, once all workers have ended.
fn outcome_of<B: BufRead, W: Write, S: Stream>(
    source: &Source<'_, B, S>,
    printer: &Printer<'_, W, S>,
) -> Outcome
    ensures tells { Tells result S.input S.contents (left_of W.contents printer.now.at.now) }
    ensures reader { result ≢ Outcome.ReadFailed → result ≢ Outcome.WriteFailed →
        failures_of source.now.at.now ≡ S.reads }
    ensures read { result ≡ Outcome.ReadFailed → S.reads < failures_of source.now.at.now }
    ensures writer { result ≢ Outcome.WriteFailed → failures_of printer.now.at.now ≡ S.writes }
    ensures write { result ≡ Outcome.WriteFailed → S.writes < failures_of printer.now.at.now }
{
    if printer.failed {
        return Outcome::WriteFailed;
    }
    match source.state {
        State::Failed => Outcome::ReadFailed,
        State::Ended if source.taken == printer.next => Outcome::All(printer.greatest),
        State::Open | State::Ended | State::OutOfMemory => Outcome::OutOfMemory,
    }
}

// Starts the workers, or works alone if there is no memory to start them.
fn work_all<B: BufRead + Send, W: Write + Send, S: Stream + Send + Sync, H: Threads + Wait + Sync>(
    rt: &H,
    alloc: Global,
    workers: usize,
    shared: &Shared<'_, '_, B, W, S>,
) {
    let started = thread::map_indices(rt, alloc, workers, &|_| work(rt, alloc, shared));
    if started.is_err() {
        work(rt, alloc, shared);
    }
}

// Answers the cases of the ends that `S` names.
fn answer_named<
    'a,
    'b,
    B: BufRead + Send,
    W: Write + Send,
    S: Stream + Send + Sync,
    H: Threads + Wait + Sync,
>(
    rt: &H,
    alloc: Global,
    workers: usize,
    r: Lent<'a, Counted<B>>,
    w: Lent<'b, Counted<W>>,
) -> (Outcome, Lent<'a, Counted<B>>, Lent<'b, Counted<W>>)
    requires references { (r.at.ghost_name ≡ S.reader) × (w.at.ghost_name ≡ S.writer) }
    requires bytes { (S.input ≡ left_of B.remaining r.at.now) × (S.contents ≡ left_of W.contents w.at.now) }
    requires failures { (failures_of r.at.now ≡ S.reads) × (failures_of w.at.now ≡ S.writes) }
    requires few { (S.reads < 2 ^ 50) × (S.writes < 2 ^ 50) }
    ensures references { (result.1.at.ghost_name ≡ S.reader) × (result.2.at.ghost_name ≡ S.writer) }
    ensures tells { Tells result.0 S.input S.contents (left_of W.contents result.2.at.now) }
    ensures reader { result.0 ≢ Outcome.ReadFailed → result.0 ≢ Outcome.WriteFailed →
        failures_of result.1.at.now ≡ S.reads }
    ensures read { result.0 ≡ Outcome.ReadFailed → S.reads < failures_of result.1.at.now }
    ensures writer { result.0 ≢ Outcome.WriteFailed → failures_of result.2.at.now ≡ S.writes }
    ensures write { result.0 ≡ Outcome.WriteFailed → S.writes < failures_of result.2.at.now }
{
    let shared = Shared {
        source: Mutex::new(Source::<B, S>::new(alloc, r)),
        printer: Mutex::new(Printer::<W, S>::new(alloc, w)),
        moved: Condvar::new(),
    };
    work_all(rt, alloc, workers, &shared);
    let Shared {
        source,
        printer,
        moved: _,
    } = shared;
    let source = source.into_inner();
    let printer = printer.into_inner();
    let outcome = outcome_of(&source, &printer);
    (outcome, source.into_lent(), printer.into_lent())
}

/// Answers the cases of an input by this many threads.
pub(crate) fn answer_all<B: BufRead + Send, W: Write + Send, H: Threads + Wait + Sync>(
    rt: &H,
    alloc: Global,
    workers: usize,
    r: &mut Counted<B>,
    w: &mut Counted<W>,
) -> Outcome
    requires { (failures_of r.old < 2 ^ 50) × (failures_of w.old < 2 ^ 50) }
    ensures tells { Tells result (left_of B.remaining r.old) (left_of W.contents w.old) (left_of W.contents w.new) }
    ensures reader { result ≢ Outcome.ReadFailed → result ≢ Outcome.WriteFailed →
        failures_of r.new ≡ failures_of r.old }
    ensures read { result ≡ Outcome.ReadFailed → failures_of r.old < failures_of r.new }
    ensures writer { result ≢ Outcome.WriteFailed → failures_of w.new ≡ failures_of w.old }
    ensures write { result ≡ Outcome.WriteFailed → failures_of w.old < failures_of w.new }
{
    let (outcome, _, _) = answer_named::<B, W, Brand, H>(
        rt,
        alloc,
        workers,
        Lent::new(r),
        Lent::new(w),
    );
    outcome
}
