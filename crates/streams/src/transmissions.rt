//! When each position of a stream was first built, and whether it was retransmitted (RFC 6298, 3).
//!
//! The positions of one segment are kept as one run, the retransmitted ones as separate ranges, so a segment doesn't
//! walk over earlier ones. Acknowledged positions are discarded: they show as sent once, at the moment 0.
//! `specs/Transmissions` defines each call.

ghost use Rattle.std.specs.Prelude.{◌≡◌, ◌+◌, ◌<◌, ◌^◌, [], OnOk, OnErr, length};
ghost use Rattle.streams.specs.Transmissions.{made, retransmitted, made_moment};
ghost use Rattle.streams.specs.Forgetting.{made_below};

use super::marks::Marks;
use super::runs::{Run, forget, grow, moment_at};
use std::alloc::{AllocError, Global};
use std::collections::VecDeque;
use std::marker::Model;

/// The transmissions of an endpoint's positions.
#[derive(Drop)]
pub struct Transmissions {
    /// The positions from `gone` on that were sent, in runs.
    runs: VecDeque<Run>,
    /// How many positions were discarded.
    gone: u64,
    /// The position after the last one sent.
    end: u64,
    /// Those that were retransmitted.
    marks: Marks,
}

impl Model for Transmissions {
    ghost use Rattle.std.specs.Prelude.{◌≡◌, ◌++◌, ◌+◌, ◌<◌, ◌^◌, List, length, replicate};
    ghost use Rattle.streams.specs.declared.transmission.Transmission.{Transmission};
    ghost use Rattle.streams.specs.Transmissions.{once};
    ghost use Rattle.streams.specs.Marks.{IsBelow, is_marked, marked};
    ghost use Rattle.streams.specs.Views.{expand};

    ghost Value = { List Transmission };

    ghost view = { λ a. marked (is_marked a.marks) 0 (replicate a.gone (once 0) ++ expand a.runs.items) };

    ghost invariant = { λ a. (a.end ≡ a.gone + length (expand a.runs.items)) × (a.end < 2 ^ 63)
        × IsBelow a.end a.marks };
}

impl Transmissions {
    /// Nothing was sent.
    pub fn new(alloc: Global) -> Self
        ensures { result ≡ [] }
    {
        Transmissions {
            runs: VecDeque::new(alloc),
            gone: 0,
            end: 0,
            marks: Marks::new(alloc),
        }
    }

    /// The position after the last one sent (SND.MAX), 0 if none was.
    pub fn end(&self) -> u64
        ensures { result ≡ length self.now }
    {
        self.end
    }

    /// Records a segment built at this moment (in microseconds), with this many positions from this one on. Positions
    /// that were sent before count as retransmitted. The error means that memory ran out.
    pub fn make(&mut self, position: u64, count: u64, moment: u64) -> Result<(), AllocError>
        requires { position + count < 2 ^ 63 }
        ensures ok { OnOk result (self.new ≡ made self.old position count moment) }
        ensures err { OnErr result (self.new ≡ self.old) }
    {
        self.runs.reserve(1)?;
        self.marks.add(position, self.end.min(position + count))?;
        let fresh = (position + count).saturating_sub(self.end);
        grow(&mut self.runs, fresh, moment);
        self.end += fresh;
        Ok(())
    }

    /// Whether any position from `from` to before `upto` was retransmitted. No round trip is measured on such a range.
    pub fn is_retransmitted(&self, from: u64, upto: u64) -> bool
        ensures { result ≡ retransmitted self.now from upto }
    {
        from < upto && self.marks.meets(from, upto)
    }

    /// The moment at which this position was first built (in microseconds). `None` means that it wasn't.
    pub fn moment(&self, position: u64) -> Option<u64>
        ensures { result ≡ made_moment self.now position }
    {
        if position < self.gone {
            return Some(0);
        }
        moment_at(&self.runs, position - self.gone)
    }

    /// Discards the positions below this one, all of which were acknowledged.
    pub fn forget_below(&mut self, snd_una: u64)
        ensures { self.new ≡ made_below snd_una self.old }
    {
        let count = snd_una.saturating_sub(self.gone).min(self.end - self.gone);
        forget(&mut self.runs, count);
        self.gone += count;
        self.marks.forget_below(snd_una);
    }
}
