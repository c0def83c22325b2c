//! A line of output, and the statuses of a run.

ghost use Rattle.std.specs.Prelude.{◌≡◌, ◌≢◌, ◌<◌, ◌^◌, codes};
ghost use Rattle.std.specs.Io.KnownBytes.{Appends};
ghost use Rattle.counted.specs.Counting.{left_of, failures_of};

use answers::{DEVICE, MEMORY};
use counted::Counted;
use std::io::Write;

/// A segment is printed, or no case has a greater status.
pub(crate) const YES: u8 = 0;
/// The words are no command of the program.
pub(crate) const USAGE: u8 = 3;

/// Writes a line, and returns this status, or 5 if the writer failed.
pub(crate) fn say<W: Write>(w: &mut Counted<W>, line: &[u8], status: u8) -> u8
    requires { failures_of w.old < 2 ^ 50 }
    ensures said { result ≢ 5 → (result ≡ status)
        × Appends (left_of W.contents w.old) (left_of W.contents w.new) line.now ×
        (failures_of w.new ≡ failures_of w.old) }
    ensures device { status ≢ 5 → result ≡ 5 → failures_of w.old < failures_of w.new }
    ensures told { status ≡ 5 → failures_of w.new ≡ failures_of w.old
        → Appends (left_of W.contents w.old) (left_of W.contents w.new) line.now }
{
    if w.write_all(line).is_err() || w.flush().is_err() {
        return DEVICE;
    }
    status
}

/// Answers words that are no command of the program.
pub(crate) fn answer_bad_usage<W: Write>(w: &mut Counted<W>) -> u8
    requires { failures_of w.old < 2 ^ 50 }
    ensures said { result ≢ 5 → (result ≡ 3) ×
        Appends (left_of W.contents w.old) (left_of W.contents w.new) (codes "bad usage\n") ×
        (failures_of w.new ≡ failures_of w.old) }
    ensures device { result ≡ 5 → failures_of w.old < failures_of w.new }
{
    say(w, b"bad usage\n", USAGE)
}

/// Answers that memory ran out, without taking any: writes one line and returns the status 4, or 5 if a write failed.
/// The count of failures must be below 2^50 before the call.
pub fn answer_bad_memory<W: Write>(w: &mut Counted<W>) -> u8
    requires { failures_of w.old < 2 ^ 50 }
    ensures said { result ≢ 5 → (result ≡ 4) ×
        Appends (left_of W.contents w.old) (left_of W.contents w.new) (codes "bad memory\n") ×
        (failures_of w.new ≡ failures_of w.old) }
    ensures device { result ≡ 5 → failures_of w.old < failures_of w.new }
{
    say(w, b"bad memory\n", MEMORY)
}

/// Answers that a device failed, for example because a file can't be opened or read: writes one line and returns the
/// status 5. The count of failures must be below 2^50 before the call.
pub(crate) fn answer_bad_device<W: Write>(w: &mut Counted<W>) -> u8
    requires { failures_of w.old < 2 ^ 50 }
    ensures status { result ≡ 5 }
    ensures told { failures_of w.new ≡ failures_of w.old →
        Appends (left_of W.contents w.old) (left_of W.contents w.new) (codes "bad device\n") }
{
    let _ = say(w, b"bad device\n", DEVICE);
    DEVICE
}
