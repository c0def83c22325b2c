//! Writing bytes by place, and a mark for each: a byte, 1 once the place was received and 0 before.

ghost use Rattle.std.specs.Prelude.{◌≡◌, ◌+◌, ◌-◌, ◌<◌, ◌≤◌, ◌^◌, ◌∷◌, [], ◌++◌, ◌&&◌, ◌==◌, if◌then◌else◌, false, not};
ghost use Rattle.std.specs.Prelude.{None, OnOk, OnErr, drop, length, nat_le, replicate, take};
ghost use Rattle.std.specs.List.{list_any};
ghost use Rattle.streams.specs.Cells.{cells_of, put_all};
ghost use Rattle.streams.specs.Views.{ends, marked_bytes, leading_received};

use super::byte_queue::{ByteQueue, grow_both};
use std::alloc::AllocError;

/// The part of these bytes, from this place on, that is before a FIN received after this many places.
pub(crate) fn part_kept<'a>(known: usize, ended: bool, at: usize, bytes: &'a [u8]) -> &'a [u8]
    ensures { result.now ≡ (if ended then take (known - at) bytes.now else bytes.now) }
{
    if !ended {
        return bytes;
    }
    let most = known.saturating_sub(at);
    &bytes[..most.min(bytes.len())]
}

/// Whether a FIN after these bytes is kept, if this many places are known.
pub(crate) fn end_kept(known: usize, ended: bool, at: usize, bytes: &[u8], fin: bool) -> bool
    requires { at + length bytes.now < 2 ^ 63 }
    ensures { result ≡ (fin && not ended && nat_le known (at + length bytes.now)) }
{
    fin && !ended && known <= at + bytes.len()
}

// Writes one byte and its mark, if the place has none yet. The first `ready` places have no marks.
fn write_byte(values: &mut ByteQueue, marks: &mut ByteQueue, ready: usize, at: usize, byte: u8)
    requires place { at < length marks.old }
    requires same { length values.old ≡ ready + length marks.old }
    requires small { length values.old < 2 ^ 63 }
    ensures cells { marked_bytes marks.new (drop ready values.new)
        ≡ put_all (marked_bytes marks.old (drop ready values.old)) at (cells_of (byte ∷ [])) }
    ensures ready { take ready values.new ≡ take ready values.old }
    ensures values { length values.new ≡ length values.old }
    ensures marks { length marks.new ≡ length marks.old }
{
    if marks.as_slice()[at] == 1 {
        return;
    }
    values.set(ready + at, byte);
    marks.set(at, 1);
}

/// Writes these bytes from a place on, each if none was received there yet, and makes room for them. The first `ready`
/// places have no marks.
pub(crate) fn place(
    values: &mut ByteQueue,
    marks: &mut ByteQueue,
    ready: usize,
    at: usize,
    bytes: &[u8],
) -> Result<(), AllocError>
    requires same { length values.old ≡ ready + length marks.old }
    requires small { at + length bytes.now < 2 ^ 63 }
    ensures cells { OnOk result (marked_bytes marks.new (drop ready values.new)
        ≡ put_all (marked_bytes marks.old (drop ready values.old)
        ++ replicate (at + length bytes.now - length marks.old) None) at (cells_of bytes.now)) }
    ensures ready { OnOk result (take ready values.new ≡ take ready values.old) }
    ensures same { OnOk result (length values.new ≡ ready + length marks.new) }
    ensures small { OnOk result (length values.new < 2 ^ 63) }
    ensures values_err { OnErr result (values.new ≡ values.old) }
    ensures marks_err { OnErr result (marks.new ≡ marks.old) }
{
    let end = at + bytes.len();
    grow_both(values, marks, end.saturating_sub(marks.len()))?;
    write(values, marks, ready, at, bytes);
    Ok(())
}

// Writes these bytes from a place on, each if none was received there yet. Usually none was, and they are written in
// one piece.
fn write(values: &mut ByteQueue, marks: &mut ByteQueue, ready: usize, at: usize, bytes: &[u8])
    requires place { at + length bytes.now ≤ length marks.old }
    requires same { length values.old ≡ ready + length marks.old }
    requires small { length values.old < 2 ^ 63 }
    ensures cells { marked_bytes marks.new (drop ready values.new)
        ≡ put_all (marked_bytes marks.old (drop ready values.old)) at (cells_of bytes.now) }
    ensures ready { take ready values.new ≡ take ready values.old }
    ensures values { length values.new ≡ length values.old }
    ensures marks { length marks.new ≡ length marks.old }
{
    if marks.as_slice()[at..at + bytes.len()].contains(&1) {
        write_bytes(values, marks, ready, at, bytes);
        return;
    }
    write_piece(values, marks, ready, at, bytes);
}

// Writes these bytes from a place on, if none was received there yet, in one piece.
fn write_piece(values: &mut ByteQueue, marks: &mut ByteQueue, ready: usize, at: usize, bytes: &[u8])
    requires place { at + length bytes.now ≤ length marks.old }
    requires same { length values.old ≡ ready + length marks.old }
    requires small { length values.old < 2 ^ 63 }
    requires none { list_any (λ mark. mark == 1) (take (length bytes.now) (drop at marks.old)) ≡ false }
    ensures cells { marked_bytes marks.new (drop ready values.new)
        ≡ put_all (marked_bytes marks.old (drop ready values.old)) at (cells_of bytes.now) }
    ensures ready { take ready values.new ≡ take ready values.old }
    ensures values { length values.new ≡ length values.old }
    ensures marks { length marks.new ≡ length marks.old }
{
    values.overwrite(ready + at, bytes);
    marks.overfill(at, bytes.len(), 1);
}

// Writes these bytes from a place on, each if none was received there yet.
fn write_bytes(values: &mut ByteQueue, marks: &mut ByteQueue, ready: usize, at: usize, bytes: &[u8])
    requires place { at + length bytes.now ≤ length marks.old }
    requires same { length values.old ≡ ready + length marks.old }
    requires small { length values.old < 2 ^ 63 }
    ensures cells { marked_bytes marks.new (drop ready values.new)
        ≡ put_all (marked_bytes marks.old (drop ready values.old)) at (cells_of bytes.now) }
    ensures ready { take ready values.new ≡ take ready values.old }
    ensures values { length values.new ≡ length values.old }
    ensures marks { length marks.new ≡ length marks.old }
{
    for (i, byte) in bytes.iter().enumerate() {
        write_byte(values, marks, ready, at + i, *byte);
    }
}

/// How many places at the front were received: their marks are 1.
pub(crate) fn leading_received(marks: &ByteQueue) -> usize
    ensures { result ≡ leading_received marks.now }
{
    let marks = marks.as_slice();
    let mut count = 0;
    while count < marks.len() && marks[count] == 1 {
        count += 1;
    }
    count
}

/// How many places a FIN fills before the first gap: one if there is a FIN and no gap.
pub(crate) fn ends(fin: bool, marks: &ByteQueue) -> usize
    ensures value { result ≡ ends fin marks.now }
    ensures small { result ≤ 1 }
{
    if fin && marks.len() == 0 {
        return 1;
    }
    0
}
