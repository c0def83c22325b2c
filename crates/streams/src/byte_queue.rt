//! Bytes appended at the end and removed from the front, in one piece of memory.

ghost use Rattle.std.specs.Prelude.{◌≡◌, ◌+◌, ◌≤◌, ◌<◌, ◌^◌, ◌++◌, [], length, drop, replicate, set, OnOk, OnErr};
ghost use Rattle.streams.specs.Lists.{over};

use std::alloc::{AllocError, Global};
use std::marker::Model;

/// Bytes in order, which are read and copied as a slice.
#[derive(Drop)]
pub(crate) struct ByteQueue {
    /// The removed bytes and the remaining ones.
    bytes: Vec<u8>,
    /// How many of them were removed.
    gone: usize,
}

impl Model for ByteQueue {
    ghost use Rattle.std.specs.Prelude.{List, ℕ, ◌≤◌, drop, length};

    ghost Value = { List ℕ };

    ghost view = { λ q. drop q.gone q.bytes.items };

    // At most as many removed bytes are kept as bytes remain.
    ghost invariant = { λ q. q.gone ≤ length (drop q.gone q.bytes.items) };
}

impl ByteQueue {
    /// An empty queue.
    pub(crate) fn new(alloc: Global) -> Self
        ensures { result ≡ [] }
    {
        ByteQueue {
            bytes: Vec::new(alloc),
            gone: 0,
        }
    }

    /// How many bytes there are.
    pub(crate) fn len(&self) -> usize
        ensures value { result ≡ length self.now }
        ensures small { result < 2 ^ 63 }
    {
        self.bytes.len() - self.gone
    }

    /// The bytes in their order.
    pub(crate) fn as_slice(&self) -> &[u8]
        ensures { result.now ≡ self.now }
    {
        &self.bytes[self.gone..]
    }

    /// Appends these bytes, all or none. The error means that memory ran out.
    pub(crate) fn append(&mut self, bytes: &[u8]) -> Result<(), AllocError>
        ensures ok { OnOk result (self.new ≡ self.old ++ bytes.now) }
        ensures err { OnErr result (self.new ≡ self.old) }
    {
        self.bytes.extend_from_slice(bytes)
    }

    /// Writes the byte at this place.
    pub(crate) fn set(&mut self, place: usize, byte: u8)
        requires { place < length self.old }
        ensures { self.new ≡ set self.old place byte }
    {
        self.bytes[self.gone + place] = byte;
    }

    /// Writes these bytes from this place on.
    pub(crate) fn overwrite(&mut self, place: usize, bytes: &[u8])
        requires { place + length bytes.now ≤ length self.old }
        ensures { self.new ≡ over place self.old bytes.now }
    {
        let start = self.gone + place;
        self.bytes[start..start + bytes.len()].copy_from_slice(bytes);
    }

    /// Writes this byte at this many places from this one on.
    pub(crate) fn overfill(&mut self, place: usize, count: usize, byte: u8)
        requires { place + count ≤ length self.old }
        ensures { self.new ≡ over place self.old (replicate count byte) }
    {
        let start = self.gone + place;
        self.bytes[start..start + count].fill(byte);
    }

    /// Removes the first bytes, this many. The rest is moved to the beginning once at most as many bytes remain as were
    /// removed, so each removed byte costs at most one move.
    pub(crate) fn drop_front(&mut self, count: usize)
        requires { count ≤ length self.old }
        ensures { self.new ≡ drop count self.old }
    {
        let gone = self.gone + count;
        let left = self.bytes.len() - gone;
        if gone < left {
            self.gone = gone;
            return;
        }
        self.bytes.copy_within(gone.., 0);
        self.bytes.truncate(left);
        self.gone = 0;
    }
}

/// Appends this many zeros to both queues, or to none.
pub(crate) fn grow_both(
    first: &mut ByteQueue,
    second: &mut ByteQueue,
    count: usize,
) -> Result<(), AllocError>
    requires { count < 2 ^ 63 }
    ensures first { OnOk result (first.new ≡ first.old ++ replicate count 0) }
    ensures second { OnOk result (second.new ≡ second.old ++ replicate count 0) }
    ensures small { length first.new < 2 ^ 63 }
    ensures first_err { OnErr result (first.new ≡ first.old) }
    ensures second_err { OnErr result (second.new ≡ second.old) }
{
    first.bytes.reserve(count)?;
    let end = second.bytes.len() + count;
    second.bytes.resize(end, 0)?;
    let end = first.bytes.len() + count;
    first.bytes.resize(end, 0)
}
