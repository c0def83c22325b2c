//! What an endpoint received from its peer (RFC 9293, 3.10.7.4): bytes may arrive out of order and wait for those
//! before them.
//!
//! The buffer keeps what was received, from the first undelivered byte up to the furthest position received. So memory
//! grows with the waiting bytes and the gaps among them, not with the stream. A delivered byte is discarded and shows
//! as 0. `specs/Received` defines each call.

ghost use Rattle.std.specs.Prelude.{◌≡◌, ◌+◌, ◌≤◌, ◌<◌, ◌^◌, nat_lt, OnOk, OnErr, IfOk, length, take};
ghost use Rattle.streams.specs.Received.{body_kept, empty, is_ended, kept, met, next, starts, told, waiting};
ghost use Rattle.streams.specs.Forgetting.{forgotten};

use super::cell_queue::CellQueue;
use std::alloc::{AllocError, Global};
use std::marker::Model;

/// The cells that were received and not delivered.
#[derive(Drop)]
pub struct ReceiveBuffer {
    /// What was received, by position, from `gone` on.
    cells: CellQueue,
    /// How many positions were discarded: the SYN's and those of the delivered bytes.
    gone: u64,
}

impl Model for ReceiveBuffer {
    ghost use Rattle.std.specs.Prelude.{◌≡◌, ◌++◌, ◌-◌, ◌+◌, ◌<◌, ◌^◌, length};
    ghost use Rattle.streams.specs.Received.{Receiving};
    ghost use Rattle.streams.specs.Views.{gone_cells};

    ghost Value = { Receiving };

    ghost view = { λ a. record { taken = gone_cells a.gone ++ a.cells; delivered = a.gone - 1 } };

    ghost invariant = { λ a. (a.gone + length a.cells < 2 ^ 63) × (a.gone ≡ 0 → length a.cells ≡ 0) };
}

impl ReceiveBuffer {
    /// An empty buffer: nothing was received.
    pub fn new(alloc: Global) -> Self
        ensures { result ≡ empty }
    {
        ReceiveBuffer {
            cells: CellQueue::new(alloc),
            gone: 0,
        }
    }

    /// The next position expected (RCV.NXT): 0 before the SYN was received.
    pub fn next(&self) -> u64
        ensures value { result ≡ next self.now }
        ensures small { result < 2 ^ 63 }
    {
        self.gone + self.cells.ready() as u64
    }

    /// Whether the peer's FIN and everything before it were received.
    pub fn is_ended(&self) -> bool
        ensures { result ≡ is_ended self.now }
    {
        self.cells.is_ended()
    }

    /// Whether a read could return bytes now.
    pub fn has_waiting(&self) -> bool
        ensures { result ≡ nat_lt 0 (length (waiting self.now)) }
    {
        self.cells.has_leading()
    }

    /// Whether these bytes are the next that a read may return. Uses no memory.
    pub fn starts_with(&self, bytes: &[u8]) -> bool
        ensures { result ≡ starts bytes.now (waiting self.now) }
    {
        self.cells.starts_with(bytes)
    }

    /// The next bytes that a read may return: `most` of them, or as many as there are. They stay until they are
    /// delivered. The error means that memory ran out.
    pub fn read(&self, alloc: Global, most: usize) -> Result<Vec<u8>, AllocError>
        ensures { IfOk result (λ bytes. bytes.items ≡ take most (waiting self.now)) }
    {
        let bytes = self.cells.read(alloc, most)?;
        Ok(bytes)
    }

    /// Receives the SYN, if nothing was received yet.
    pub fn take_syn(&mut self)
        requires { self.old ≡ empty }
        ensures { self.new ≡ met }
    {
        self.gone = 1;
    }

    /// Accepts these bytes from this position on, which is not below the next, and a FIN after them if there is one.
    /// Positions that were received earlier don't change. Nothing is accepted at or after a FIN, and no FIN at or below
    /// a position that was received. If memory runs out, nothing changes.
    pub fn keep(&mut self, position: u64, bytes: &[u8], fin: bool) -> Result<(), AllocError>
        requires met { 1 ≤ next self.old }
        requires next { next self.old ≤ position }
        requires small { position + length bytes.now + 1 < 2 ^ 63 }
        ensures ok { OnOk result (self.new ≡ kept self.old position bytes.now fin) }
        ensures faded { OnOk result (forgotten self.new ≡ self.new) }
        ensures err { OnErr result (self.new ≡ self.old) }
    {
        let at = (position - self.gone) as usize;
        if bytes.is_empty() && !fin {
            return Ok(());
        }
        self.cells.keep(at, bytes, fin)?;
        Ok(())
    }

    /// How many positions `keep` would accept, those included that were received earlier.
    pub fn kept_count(&self, position: u64, bytes: &[u8], fin: bool) -> u64
        requires next { next self.now ≤ position }
        requires small { position + length bytes.now + 1 < 2 ^ 63 }
        ensures value { result ≡ length (body_kept self.now.taken position bytes.now fin) }
        ensures small { result ≤ length bytes.now + 1 }
    {
        let at = (position - self.gone) as usize;
        self.cells.kept_count(at, bytes, fin) as u64
    }

    /// Delivers the next waiting bytes, this many, and discards them.
    pub fn deliver(&mut self, count: usize)
        requires { count ≤ length (waiting self.old) }
        ensures { self.new ≡ forgotten (told self.old count) }
    {
        self.cells.drop_front(count);
        self.gone += count as u64;
    }
}
