//! How help is printed.

ghost use Rattle.std.specs.Prelude.{◌≡◌, ◌≢◌, ◌<◌, ◌^◌};
ghost use Rattle.std.specs.Io.KnownBytes.{Appends};
ghost use Rattle.counted.specs.Counting.{left_of, failures_of};

use counted::Counted;
use std::io::Write;

// The text was printed.
const DONE: u8 = 0;

// A write failed.
const DEVICE: u8 = 5;

/// Writes a text and flushes. The status is 0, or 5 if a write failed. The count of failures has to be below 2^50
/// before, as that of a new writer is.
pub fn print_help<W: Write>(w: &mut Counted<W>, text: &str) -> u8
    requires { failures_of w.old < 2 ^ 50 }
    ensures said { result ≢ 5 → (result ≡ 0)
        × Appends (left_of W.contents w.old) (left_of W.contents w.new) text.now
        × (failures_of w.new ≡ failures_of w.old) }
    ensures device { result ≡ 5 → failures_of w.old < failures_of w.new }
{
    if w.write_all(text.as_bytes()).is_err() || w.flush().is_err() {
        return DEVICE;
    }
    DONE
}
