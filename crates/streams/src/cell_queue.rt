//! What was received and waits, from one place on: a byte for each place in one piece of memory, and from the first gap
//! on a mark for each place that was received.

ghost use Rattle.std.specs.Prelude.{◌≡◌, ◌+◌, ◌-◌, ◌≤◌, ◌<◌, ◌^◌, [], nat_lt, OnOk, OnErr, IfOk, length, take};
ghost use Rattle.std.specs.Prelude.{drop, slice_get};
ghost use Rattle.streams.specs.Cells.{front, is_fin, leading, put_all};
ghost use Rattle.streams.specs.Received.{body_kept, starts};

use super::byte_places::{end_kept, ends, leading_received, part_kept, place};
use super::byte_queue::ByteQueue;
use std::alloc::{AllocError, Global};
use std::marker::Model;

/// Cells by place. The bytes before the first gap are read, compared and dropped as one piece. If there is no gap,
/// bytes that arrive in order are appended with one copy.
#[derive(Drop)]
pub(crate) struct CellQueue {
    /// A byte for each place up to the furthest that was received; its value is meaningless if none was.
    values: ByteQueue,
    /// How many of them are before the first gap.
    ready: usize,
    /// For each of the others, 1 if a byte was received there, and another value if none was.
    marks: ByteQueue,
    /// Whether a FIN was received. It is after the last byte: nothing is accepted after a FIN, and no FIN below a byte.
    fin: bool,
    /// How many places are before the first gap: the bytes, and the FIN if no gap comes before it.
    front: usize,
}

impl Model for CellQueue {
    ghost use Rattle.std.specs.Prelude.{◌≡◌, ◌+◌, ◌++◌, length, take, drop, List, Option};
    ghost use Rattle.streams.specs.declared.cell.Cell.{Cell};
    ghost use Rattle.streams.specs.Views.{bytes_then, ends, fin_alone, marked_bytes, leading_received};

    ghost Value = { List (Option Cell) };

    ghost view = { λ q. bytes_then (take q.ready q.values)
        (marked_bytes q.marks (drop q.ready q.values) ++ fin_alone q.fin) };

    ghost invariant = { λ q. (length q.values ≡ q.ready + length q.marks) × (leading_received q.marks ≡ 0)
        × (q.front ≡ q.ready + ends q.fin q.marks) };
}

impl CellQueue {
    /// No cells.
    pub(crate) fn new(alloc: Global) -> Self
        ensures { result ≡ [] }
    {
        CellQueue {
            values: ByteQueue::new(alloc),
            ready: 0,
            marks: ByteQueue::new(alloc),
            fin: false,
            front: 0,
        }
    }

    /// How many places are before the first gap.
    pub(crate) fn ready(&self) -> usize
        ensures value { result ≡ length (front self.now) }
        ensures small { result ≤ length self.now }
    {
        self.front
    }

    /// Whether the last place before the first gap has a FIN.
    pub(crate) fn is_ended(&self) -> bool
        ensures { result ≡ is_fin (slice_get self.now (length (front self.now) - 1)) }
    {
        self.front > self.ready
    }

    /// Whether a byte is at the front.
    pub(crate) fn has_leading(&self) -> bool
        ensures { result ≡ nat_lt 0 (length (leading self.now)) }
    {
        self.ready > 0
    }

    /// Whether the queue begins with these bytes. Uses no memory.
    pub(crate) fn starts_with(&self, bytes: &[u8]) -> bool
        ensures { result ≡ starts bytes.now (leading self.now) }
    {
        begins(&self.values.as_slice()[..self.ready], bytes)
    }

    /// A copy of the first bytes: at most `most`, or as many as there are. The error means that memory ran out.
    pub(crate) fn read(&self, alloc: Global, most: usize) -> Result<Vec<u8>, AllocError>
        ensures { IfOk result (λ bytes. bytes.items ≡ take most (leading self.now)) }
    {
        let count = most.min(self.ready);
        Vec::from_slice(alloc, &self.values.as_slice()[..count])
    }

    /// Accepts these bytes from this place on, which is not before the first gap, and a FIN after them if there is one.
    /// Places that were received earlier don't change. Nothing is accepted at or after a FIN, and no FIN at or below a
    /// place that was received.
    pub(crate) fn keep(&mut self, at: usize, bytes: &[u8], fin: bool) -> Result<(), AllocError>
        requires at { length (front self.old) ≤ at }
        requires small { at + length bytes.now + 1 < 2 ^ 63 }
        ensures ok { OnOk result (self.new ≡ put_all self.old at (body_kept self.old at bytes.now fin)) }
        ensures err { OnErr result (self.new ≡ self.old) }
    {
        let at = at - self.ready;
        if at == 0 && self.marks.len() == 0 {
            self.values.append(bytes)?;
            self.ready += bytes.len();
            self.fin = fin;
            self.front = self.ready + ends(fin, &self.marks);
            return Ok(());
        }
        let known = self.marks.len();
        let bytes = part_kept(known, self.fin, at, bytes);
        let end = end_kept(known, self.fin, at, bytes, fin);
        if bytes.is_empty() && !end {
            return Ok(());
        }
        place(&mut self.values, &mut self.marks, self.ready, at, bytes)?;
        let count = leading_received(&self.marks);
        self.marks.drop_front(count);
        self.ready += count;
        self.fin = self.fin || end;
        self.front = self.ready + ends(self.fin, &self.marks);
        Ok(())
    }

    /// How many places `keep` would fill, or find filled.
    pub(crate) fn kept_count(&self, at: usize, bytes: &[u8], fin: bool) -> usize
        requires at { length (front self.now) ≤ at }
        requires small { at + length bytes.now + 1 < 2 ^ 63 }
        ensures { result ≡ length (body_kept self.now at bytes.now fin) }
    {
        let at = at - self.ready;
        let known = self.marks.len();
        let part = part_kept(known, self.fin, at, bytes);
        let end = end_kept(known, self.fin, at, part, fin);
        if end { part.len() + 1 } else { part.len() }
    }

    /// Removes this many bytes from the front.
    pub(crate) fn drop_front(&mut self, count: usize)
        requires { count ≤ length (leading self.old) }
        ensures { self.new ≡ drop count self.old }
    {
        self.values.drop_front(count);
        self.ready -= count;
        self.front -= count;
    }
}

// Whether the first begins with the second.
#[tactic(auto, using(crate::proofs::Thens::begins_is))]
fn begins(all: &[u8], bytes: &[u8]) -> bool
    ensures { result ≡ starts bytes.now all.now }
{
    all.starts_with(bytes)
}
