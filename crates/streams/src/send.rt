//! What an endpoint sends (RFC 9293, 3.10.2): the bytes that its sends accepted, until they are acknowledged.
//!
//! The buffer keeps the bytes from the oldest that may be retransmitted. Discarded bytes show as 0. `specs/Sent`
//! defines each call.

ghost use Rattle.std.specs.Prelude.{◌≡◌, ℕ, ◌+◌, ◌<◌, ◌^◌, List, [], ◌++◌, OnOk, OnErr, IfOk, length, take, drop};
ghost use Rattle.streams.specs.Sent.{end_of, piece};
ghost use Rattle.streams.specs.Forgetting.{below};

use super::byte_queue::ByteQueue;
use std::alloc::{AllocError, Global};
use std::marker::Model;

/// The accepted bytes that may still be sent or retransmitted.
#[derive(Drop)]
pub struct SendBuffer {
    /// The bytes, from data byte `gone` on.
    bytes: ByteQueue,
    /// How many bytes were discarded.
    gone: u64,
}

impl Model for SendBuffer {
    ghost use Rattle.std.specs.Prelude.{ℕ, ◌++◌, ◌+◌, ◌<◌, ◌^◌, List, length, replicate};

    ghost Value = { List ℕ };

    ghost view = { λ a. replicate a.gone 0 ++ a.bytes };

    ghost invariant = { λ a. a.gone + length a.bytes < 2 ^ 63 };
}

impl SendBuffer {
    /// An empty buffer: nothing was accepted.
    pub fn new(alloc: Global) -> Self
        ensures { result ≡ [] }
    {
        SendBuffer {
            bytes: ByteQueue::new(alloc),
            gone: 0,
        }
    }

    /// The position after the last accepted byte.
    pub fn end(&self) -> u64
        ensures { result ≡ end_of self.now }
    {
        1 + self.gone + self.bytes.len() as u64
    }

    /// Accepts these bytes, all or none. The error means that memory ran out.
    pub fn accept(&mut self, bytes: &[u8]) -> Result<(), AllocError>
        requires { length self.old + length bytes.now < 2 ^ 63 }
        ensures ok { OnOk result (self.new ≡ self.old ++ bytes.now) }
        ensures err { OnErr result (self.new ≡ self.old) }
    {
        self.bytes.append(bytes)
    }

    /// A copy of the bytes from this position on, for a segment: this many, or as many as there are. The error means
    /// that memory ran out.
    pub fn piece(&self, alloc: Global, position: u64, count: usize) -> Result<Vec<u8>, AllocError>
        ensures { IfOk result (λ bytes. bytes.items ≡ piece self.now position count) }
    {
        let start = position.saturating_sub(1);
        let zeros = self.gone.saturating_sub(start).min(count as u64) as usize;
        let mut piece = Vec::from_elem(alloc, 0, zeros)?;
        piece.extend_from_slice(part(
            self.bytes.as_slice(),
            start.saturating_sub(self.gone),
            count - zeros,
        ))?;
        Ok(piece)
    }

    /// Discards the bytes below this position, all of which were acknowledged.
    pub fn forget_below(&mut self, snd_una: u64)
        ensures { self.new ≡ below snd_una self.old }
    {
        let count = snd_una.saturating_sub(1).saturating_sub(self.gone);
        let count = count.min(self.bytes.len() as u64);
        self.bytes.drop_front(count as usize);
        self.gone += count;
    }
}

// The part of these bytes from a place on: this many, or as many as there are.
fn part(bytes: &[u8], start: u64, count: usize) -> &[u8]
    ensures { result.now ≡ take count (drop start bytes.now) }
{
    let start = start.min(bytes.len() as u64) as usize;
    let rest = &bytes[start..];
    &rest[..count.min(rest.len())]
}
