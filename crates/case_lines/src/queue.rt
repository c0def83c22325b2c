//! The lines in order, in chunks.

ghost use Rattle.std.specs.Prelude.{◌≡◌, ◌≢◌, ◌↔◌, ◌≤◌, ◌<◌, ◌^◌, ℕ, List, [], ◌∷◌, ◌++◌, IsTrue, Ok, OnOk};
ghost use Rattle.std.specs.Prelude.{OnErr, true};
ghost use Rattle.case_lines.specs.Chunks.{AreFilled, joined};
ghost use Rattle.case_lines.specs.Lines.{IsPlain, Takes, Follows};
ghost use Rattle.case_lines.specs.Records.{line_of};
ghost use Rattle.case_lines.specs.Spelled.{IsSpelled};

use crate::chunk::Chunk;
use crate::record::{Record, bytes_of};
use case_forms::{Line, OutOfMemory};
use std::alloc::{AllocError, Global};
use std::collections::VecDeque;
use std::marker::Model;
use std::mem::replace;

/// Event lines of a trace, kept in order until they are taken.
#[derive(Drop)]
pub struct KeptLines {
    /// The first lines, which are taken next.
    first: Chunk,
    /// The lines after those, in full chunks.
    middle: VecDeque<Chunk>,
    /// The last lines. Further lines go here.
    last: Chunk,
}

impl Model for KeptLines {
    ghost use Rattle.std.specs.Prelude.{List, ◌++◌};
    ghost use Rattle.case_forms.specs.declared.trace.Line.{Line};
    ghost use Rattle.case_lines.specs.Chunks.{AreFilled, joined};

    ghost Value = { List Line };

    ghost view = { λ k. k.first ++ joined k.middle.items ++ k.last };

    ghost invariant = { λ k. AreFilled k.middle.items };
}

impl KeptLines {
    /// No lines.
    pub fn new(alloc: Global) -> KeptLines
        ensures { result ≡ [] }
    {
        KeptLines {
            first: Chunk::new(alloc),
            middle: VecDeque::new(alloc),
            last: Chunk::new(alloc),
        }
    }

    /// Whether there is no line.
    #[inline(always)]
    pub fn is_empty(&self) -> bool
        ensures { IsTrue result ↔ (self.now ≡ []) }
    {
        self.first.is_empty() && has_none(&self.middle) && self.last.is_empty()
    }

    /// Appends a line. If memory runs out, the lines don't change. A line with 4 GiB of bytes, which no text has,
    /// counts as one that there is no memory for.
    #[inline(always)]
    pub fn push(&mut self, line: Line) -> Result<(), OutOfMemory>
        requires { IsPlain line }
        ensures ok { OnOk result (self.new ≡ self.old ++ line ∷ []) }
        ensures err { OnErr result (self.new ≡ self.old) }
    {
        let count = bytes_of(&line.event).len();
        make_room(&mut self.middle, &mut self.last, line.number, count)?;
        self.last.push(&line)
    }

    /// Appends the line of a record, with this number, whose bytes these digits spell in hex, if an event of its kind
    /// has bytes. False if they spell none, or 4 GiB, or those of a segment don't encode one. Then, and if memory runs
    /// out, the lines don't change.
    #[inline(always)]
    pub fn push_spelled(
        &mut self,
        number: u64,
        kept: Record,
        digits: &[u8],
    ) -> Result<bool, OutOfMemory>
        requires { number ≤ 10000000 }
        ensures kept { result ≡ Ok true → (bytes : List ℕ) × IsSpelled kept.event digits.now bytes
            × (self.new ≡ self.old ++ line_of number kept bytes ∷ []) }
        ensures same { result ≢ Ok true → self.new ≡ self.old }
    {
        make_room(&mut self.middle, &mut self.last, number, digits.len() / 2)?;
        self.last.push_spelled(number, kept, digits)
    }

    /// Makes the first line the item, and removes it; the item is None if there is none. The error means that memory
    /// ran out; the lines and the item then don't change.
    #[inline(always)]
    pub fn take_first(&mut self, item: &mut Option<Line>) -> Result<(), OutOfMemory>
        ensures ok { OnOk result (Takes self.old self.new item.new) }
        ensures err { OnErr result (self.new ≡ self.old) }
        ensures kept { OnErr result (item.new ≡ item.old) }
    {
        if self.first.is_empty() {
            self.first = next_chunk(&mut self.middle, &mut self.last);
        }
        self.first.next_into(item)
    }
}

// Whether there is no chunk.
#[tactic(auto, using(std::proofs::lemmas::List::nil_from_length))]
#[inline(always)]
fn has_none(chunks: &VecDeque<Chunk>) -> bool
    ensures { IsTrue result ↔ (chunks.now.items ≡ []) }
{
    chunks.is_empty()
}

// Makes the last chunk one to which a line with this number and so many bytes may be appended.
#[inline(always)]
fn make_room(
    middle: &mut VecDeque<Chunk>,
    last: &mut Chunk,
    number: u64,
    count: usize,
) -> Result<(), OutOfMemory>
    requires filled { AreFilled middle.old.items }
    requires count { count < 2 ^ 63 }
    ensures filled { AreFilled middle.new.items }
    ensures lines { joined middle.new.items ++ last.new ≡ joined middle.old.items ++ last.old }
    ensures room { OnOk result (Follows last.new number) }
{
    if last.has_room(number, count) {
        return Ok(());
    }
    begin_chunk(middle, last)
}

// An empty chunk becomes the last, unless the last one is empty.
#[inline(never)]
fn begin_chunk(middle: &mut VecDeque<Chunk>, last: &mut Chunk) -> Result<(), OutOfMemory>
    requires { AreFilled middle.old.items }
    ensures filled { AreFilled middle.new.items }
    ensures lines { joined middle.new.items ++ last.new ≡ joined middle.old.items ++ last.old }
    ensures empty { OnOk result (last.new ≡ []) }
{
    if last.is_empty() {
        return Ok(());
    }
    last.shrink();
    let alloc = last.allocator();
    match middle.push_back(replace(last, Chunk::new(alloc))) {
        Ok(()) => Ok(()),
        Err(failed) => {
            *last = failed.value;
            Err(AllocError)
        }
    }
}

// The first of these chunks, which is removed. It is empty only if all of them are.
#[inline(never)]
fn next_chunk(middle: &mut VecDeque<Chunk>, last: &mut Chunk) -> Chunk
    requires { AreFilled middle.old.items }
    ensures filled { AreFilled middle.new.items }
    ensures lines { result ++ joined middle.new.items ++ last.new ≡ joined middle.old.items ++ last.old }
    ensures empty { result ≡ [] → joined middle.new.items ++ last.new ≡ [] }
{
    match middle.pop_front() {
        Some(chunk) => chunk,
        None => {
            let alloc = last.allocator();
            replace(last, Chunk::new(alloc))
        }
    }
}
