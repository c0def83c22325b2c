//! Lines in three pieces of memory.

ghost use Rattle.std.specs.Prelude.{◌≡◌, ◌≢◌, ◌≤◌, ◌+◌, ◌↔◌, ℕ, List, [], ◌∷◌, ◌++◌, ◌<◌, ◌^◌, true, false};
ghost use Rattle.std.specs.Prelude.{length, drop, Ok};
ghost use Rattle.std.specs.Prelude.{IfOk, IsTrue, OnOk, OnErr};
ghost use Rattle.case_lines.specs.Lines.{IsPlain, Takes, Follows};
ghost use Rattle.case_lines.specs.Records.{has_bytes, lens_of, len_count, first_len, line_of};
ghost use Rattle.case_lines.specs.Spelled.{is_seen, IsSpelled};
ghost use Rattle.segment.specs.declared.fields.Segment.{Segment};
ghost use Rattle.segment.specs.Layout.{IsSegment};

use crate::record::{KeptEvent, Record, bytes_of, line_into, record_of};
use case_forms::{Line, OutOfMemory};
use line_fields::hex_onto;
use segment::is_segment;
use std::alloc::{AllocError, Global};
use std::marker::Model;

/// How many lines a chunk has at most.
const MOST_LINES: usize = 2048;

/// How many bytes the lines of a chunk have at most, unless it is a single line that has more.
const MOST_BYTES: usize = 65_536;

/// How many bytes a line has at most. No text has a line with so many.
const LONGEST: usize = 0xffff_ffff;

/// Lines in order, whose numbers follow one another. They are appended at the end, until the chunk is full, and taken
/// from the front.
#[derive(Drop)]
pub(crate) struct Chunk {
    /// The number of the first line that is left, any if there is none.
    number: u64,
    /// Each line without its number and its bytes.
    records: Vec<Record>,
    /// How many bytes each line has that can have some.
    lens: Vec<u32>,
    /// The bytes of the lines, one line's after another's.
    bytes: Vec<u8>,
    /// How many of the lines were taken.
    taken: usize,
    /// How many lengths were kept for them.
    measured: usize,
    /// How many bytes they had.
    read: usize,
}

impl Model for Chunk {
    ghost use Rattle.std.specs.Prelude.{List};
    ghost use Rattle.case_forms.specs.declared.trace.Line.{Line};
    ghost use Rattle.case_lines.specs.Records.{IsCounted, lines_left};

    ghost Value = { List Line };

    ghost view = { λ c. lines_left c.number c.records.items c.lens.items c.bytes.items c.taken c.measured c.read };

    ghost invariant = { λ c. IsCounted c.number c.records.items c.lens.items c.bytes.items c.taken c.measured c.read };
}

impl Chunk {
    /// No lines, and no memory for any.
    #[inline(always)]
    pub(crate) fn new(alloc: Global) -> Chunk
        ensures { result ≡ [] }
    {
        Chunk {
            number: 0,
            records: Vec::new(alloc),
            lens: Vec::new(alloc),
            bytes: Vec::new(alloc),
            taken: 0,
            measured: 0,
            read: 0,
        }
    }

    /// What the memory is from.
    #[inline(always)]
    pub(crate) fn allocator(&self) -> Global {
        *self.records.allocator()
    }

    /// Whether there is no line.
    #[inline(always)]
    pub(crate) fn is_empty(&self) -> bool
        ensures { IsTrue result ↔ (self.now ≡ []) }
    {
        self.taken == self.records.len()
    }

    /// Whether a line with this number and so many bytes may be appended to a chunk that has lines. To an empty one,
    /// any line may.
    #[inline(always)]
    pub(crate) fn has_room(&self, number: u64, count: usize) -> bool
        requires { count < 2 ^ 63 }
        ensures { IsTrue result → Follows self.now number }
    {
        self.is_next(number)
            && self.records.len() < MOST_LINES
            && self.bytes.len() + count <= MOST_BYTES
    }

    // Whether the number is the one after those of the lines that are left.
    #[inline(always)]
    fn is_next(&self, number: u64) -> bool
        ensures { IsTrue result → Follows self.now number }
    {
        let left = self.records.len() - self.taken;
        self.number + left as u64 == number
    }

    /// Gives back the memory that no line needs.
    pub(crate) fn shrink(&mut self)
        ensures { self.new ≡ self.old }
    {
        self.records.shrink_to_fit();
        self.lens.shrink_to_fit();
        self.bytes.shrink_to_fit();
    }

    /// Appends a line. If memory runs out, the lines don't change. A line of 4 GiB counts as one that there is no
    /// memory for.
    #[inline(always)]
    pub(crate) fn push(&mut self, line: &Line) -> Result<(), OutOfMemory>
        requires plain { IsPlain line.now }
        requires follows { Follows self.old line.now.number }
        ensures ok { OnOk result (self.new ≡ self.old ++ line.now ∷ []) }
        ensures err { OnErr result (self.new ≡ self.old) }
    {
        let left = self.records.len() - self.taken;
        let record = record_of(line);
        let bytes = bytes_of(&line.event);
        self.records.reserve(1)?;
        keep_bytes(&mut self.lens, &mut self.bytes, record.event, bytes)?;
        self.records.push_reserved(record);
        self.number = line.number - left as u64;
        Ok(())
    }

    /// Appends the line of a record, with this number, whose bytes these digits spell. False if they spell none, or too
    /// many, or no segment; then, and if memory runs out, the lines don't change.
    #[inline(always)]
    pub(crate) fn push_spelled(
        &mut self,
        number: u64,
        kept: Record,
        digits: &[u8],
    ) -> Result<bool, OutOfMemory>
        requires number { number ≤ 10000000 }
        requires follows { Follows self.old number }
        ensures kept { result ≡ Ok true → (bytes : List ℕ) × IsSpelled kept.event digits.now bytes
            × (self.new ≡ self.old ++ line_of number kept bytes ∷ []) }
        ensures same { result ≢ Ok true → self.new ≡ self.old }
    {
        let left = self.records.len() - self.taken;
        self.records.reserve(1)?;
        if !keep_spelled(&mut self.lens, &mut self.bytes, kept.event, digits)? {
            return Ok(false);
        }
        self.records.push_reserved(kept);
        self.number = number - left as u64;
        Ok(true)
    }

    /// Makes the first line the item, and removes it; the item is None if there is none. Once no line is left, the
    /// memory is freed. If memory runs out, the lines and the item don't change.
    #[inline(always)]
    pub(crate) fn next_into(&mut self, item: &mut Option<Line>) -> Result<(), OutOfMemory>
        ensures ok { OnOk result (Takes self.old self.new item.new) }
        ensures err { OnErr result (self.new ≡ self.old) }
        ensures kept { OnErr result (item.new ≡ item.old) }
    {
        if self.taken == self.records.len() {
            *item = None;
            return Ok(());
        }
        let first = self.records[self.taken];
        let end = self.read + len_at(self.lens.as_slice(), self.measured, first.event);
        let bytes = &self.bytes[self.read..end];
        line_into(self.allocator(), self.number, &first, bytes, item)?;
        self.number += 1;
        self.taken += 1;
        self.measured += first.event.len_count();
        self.read = end;
        self.free();
        Ok(())
    }

    // Frees the memory if no line is left.
    #[inline(always)]
    fn free(&mut self)
        ensures { self.new ≡ self.old }
    {
        if self.taken == self.records.len() {
            *self = Chunk::new(self.allocator());
        }
    }
}

// How many bytes the first line has that is left, if this is its event and so many lengths are kept for the lines
// before it.
#[inline(always)]
fn len_at(lens: &[u32], measured: usize, event: KeptEvent) -> usize
    requires { measured + len_count event ≤ length lens.now }
    ensures { result ≡ first_len event (drop measured lens.now) }
{
    if event.has_bytes() {
        lens[measured] as usize
    } else {
        0
    }
}

// Appends the bytes of an event, and their number if it can have some. If memory runs out, nothing changes.
#[inline(always)]
fn keep_bytes(
    lens: &mut Vec<u32>,
    bytes: &mut Vec<u8>,
    event: KeptEvent,
    more: &[u8],
) -> Result<(), OutOfMemory>
    requires { has_bytes event ≡ false → more.now ≡ [] }
    ensures lens { OnOk result (lens.new.items ≡ lens.old.items ++ lens_of event (length more.now)) }
    ensures bytes { OnOk result (bytes.new.items ≡ bytes.old.items ++ more.now) }
    ensures same_lens { OnErr result (lens.new.items ≡ lens.old.items) }
    ensures same_bytes { OnErr result (bytes.new.items ≡ bytes.old.items) }
{
    if !event.has_bytes() {
        return Ok(());
    }
    let Ok(len) = u32::try_from(more.len()) else {
        return Err(AllocError);
    };
    lens.reserve(1)?;
    reserve_bytes(bytes, more.len())?;
    bytes.extend_from_slice(more)?;
    lens.push_reserved(len);
    Ok(())
}

// Appends the bytes that digits spell, and their number, if an event of this kind has some. False if they spell none,
// or too many, or no segment; then, and if memory runs out, nothing changes.
#[inline(always)]
fn keep_spelled(
    lens: &mut Vec<u32>,
    bytes: &mut Vec<u8>,
    event: KeptEvent,
    digits: &[u8],
) -> Result<bool, OutOfMemory>
    ensures kept { result ≡ Ok true → (more : List ℕ) × IsSpelled event digits.now more
        × (lens.new.items ≡ lens.old.items ++ lens_of event (length more))
        × (bytes.new.items ≡ bytes.old.items ++ more) }
    ensures same_lens { result ≢ Ok true → lens.new.items ≡ lens.old.items }
    ensures same_bytes { result ≢ Ok true → bytes.new.items ≡ bytes.old.items }
{
    if !event.has_bytes() {
        return Ok(true);
    }
    keep_digits(lens, bytes, event, digits)
}

// The same for an event of a kind that has bytes.
#[inline(never)]
fn keep_digits(
    lens: &mut Vec<u32>,
    bytes: &mut Vec<u8>,
    event: KeptEvent,
    digits: &[u8],
) -> Result<bool, OutOfMemory>
    requires { has_bytes event ≡ true }
    ensures kept { result ≡ Ok true → (more : List ℕ) × IsSpelled event digits.now more
        × (lens.new.items ≡ lens.old.items ++ length more ∷ []) × (bytes.new.items ≡ bytes.old.items ++ more) }
    ensures same_lens { result ≢ Ok true → lens.new.items ≡ lens.old.items }
    ensures same_bytes { result ≢ Ok true → bytes.new.items ≡ bytes.old.items }
{
    let from = bytes.len();
    lens.reserve(1)?;
    reserve_bytes(bytes, digits.len() / 2)?;
    if !hex_onto(digits, bytes)? {
        return Ok(false);
    }
    let len = bytes.len() - from;
    if len > LONGEST || !may_be_of(event, &bytes[from..]) {
        bytes.truncate(from);
        return Ok(false);
    }
    lens.push_reserved(len as u32);
    Ok(true)
}

// Whether an event of this kind can have these bytes: those of a segment have to encode one.
#[inline(always)]
fn may_be_of(event: KeptEvent, bytes: &[u8]) -> bool
    ensures { result ≡ true → is_seen event ≡ true → (s : Segment) × IsSegment bytes.now s }
{
    !event.is_seen() || is_segment(bytes)
}

// Reserves room for so many more bytes. The room is at least doubled, but only up to as many bytes as a chunk has.
#[inline(always)]
fn reserve_bytes(bytes: &mut Vec<u8>, count: usize) -> Result<(), OutOfMemory>
    requires { count < 2 ^ 63 }
    ensures { bytes.new.items ≡ bytes.old.items }
{
    if count <= bytes.capacity() - bytes.len() {
        return Ok(());
    }
    let doubled = 2 * bytes.capacity().min(MOST_BYTES / 2);
    let room = doubled.saturating_sub(bytes.len());
    bytes.reserve_exact(count.max(room))
}
