//! The run on the cases of an input, with its status.

ghost use Rattle.std.specs.Prelude.{◌≡◌, ◌≢◌, ◌⊎◌, ◌<◌, ◌^◌, IfNone, IfSome, codes};
ghost use Rattle.std.specs.Io.KnownBytes.{Appends};
ghost use Rattle.counted.specs.Counting.{left_of, failures_of};
ghost use Rattle.answer_stream.specs.Endings.{EndsMany, TellsBefore};

use crate::printer::write_lines;
use crate::work::{Outcome, answer_all};
use answers::{DEVICE, MEMORY};
use counted::Counted;
use std::alloc::Global;
use std::io::{BufRead, Write};
use std::sync::Wait;
use std::thread::Threads;

/// Answers the cases of an input by this many threads, 1 to 64, and returns the greatest of their statuses, or 0 if
/// there are none. Each case gets one line, in their order. The lines are written and flushed in batches, each as soon
/// as its cases and those before them are checked; a batch ends before its worker would wait for input. If a thread
/// can't be started, the others or the calling thread do its work. A case for which memory runs out while it is checked
/// has that as its answer. If a read fails, or memory runs out for a text or for the lines of answers, the answers to
/// the cases before it are followed by a line that says so, and the status is 5 or 4. It is 5, too, if a write failed.
/// Both counts of failures must be below 2^50 before the call; those of new ends are.
pub fn answer_cases<B: BufRead + Send, W: Write + Send, H: Threads + Wait + Sync>(
    rt: &H,
    alloc: Global,
    workers: usize,
    r: &mut Counted<B>,
    w: &mut Counted<W>,
) -> u8
    requires { (failures_of r.old < 2 ^ 50) × (failures_of w.old < 2 ^ 50) }
    ensures many { result ≢ 5 →
        IfSome (left_of B.remaining r.old) (λ text. EndsMany text result (left_of W.contents w.old)
        (left_of W.contents w.new)) }

    // The status is 5 only if a count of failures grew. The last line says so if no write failed.
    ensures device { result ≡ 5 → (failures_of r.old < failures_of r.new) ⊎ (failures_of w.old < failures_of w.new) }
    ensures told { result ≡ 5 → failures_of w.new ≡ failures_of w.old →
        ∥ TellsBefore (left_of B.remaining r.old) (codes "bad device\n") (left_of W.contents w.old)
        (left_of W.contents w.new) ∥₁ }
    ensures quiet { result ≢ 5 → (failures_of r.new ≡ failures_of r.old) × (failures_of w.new ≡ failures_of w.old) }
{
    match answer_all(rt, alloc, workers, r, w) {
        Outcome::All(status) => status,
        Outcome::ReadFailed => {
            let _ = write_lines(w, b"bad device\n", DEVICE);
            DEVICE
        }
        Outcome::OutOfMemory => match write_lines(w, b"bad memory\n", MEMORY) {
            Some(status) => status,
            None => DEVICE,
        },
        Outcome::WriteFailed => DEVICE,
    }
}
