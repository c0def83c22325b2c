//! Seats.

ghost use Rattle.std.specs.Prelude.{◌≡◌, ◌+◌, ◌<◌, ◌≤◌, ◌^◌};

use std::marker::Model;
use std::sync::ledger::{Book, Ledger, Share};

/// A thread's place at a recorder, with the count of its calls that were answered. It belongs to its own recorder.
#[derive(Drop)]
pub struct Seat<L: Ledger> {
    thread: u32,
    count: u64,
    share: Share<L>,
}

impl<L: Ledger> Model for Seat<L> {
    ghost use Rattle.std.specs.Prelude.{◌≡◌};
    ghost use Rattle.recorder.specs.Views.{SeatView};

    ghost Value = { SeatView };

    ghost view = { λ s. record { thread = s.thread; count = s.count } };

    ghost invariant = { λ s. (s.share.parts ≡ 1) × (s.share.amount ≡ s.count) };
}

impl<L: Ledger> Seat<L> {
    // A seat with the count 0.
    pub(crate) fn new(thread: u32, share: Share<L>) -> Seat<L>
        requires { (share.parts ≡ 1) × (share.amount ≡ 0) }
        ensures { (result.thread ≡ thread) × (result.count ≡ 0) }
    {
        Seat {
            thread,
            count: 0,
            share,
        }
    }

    /// The thread's number.
    pub fn thread(&self) -> u32
        ensures { result ≡ self.now.thread }
    {
        self.thread
    }

    /// How many of its calls were answered.
    pub fn count(&self) -> u64
        ensures { result ≡ self.now.count }
    {
        self.count
    }

    // Counts an answer, and returns how many there were before.
    pub(crate) fn count_one(&mut self, counts: &mut Book<L>) -> u64
        requires { counts.old.total + 1 < 2 ^ 64 }
        ensures index { result ≡ self.old.count }
        ensures count { (self.new.count ≡ self.old.count + 1) × (self.new.thread ≡ self.old.thread) }
        ensures total { counts.new.total ≡ counts.old.total + 1 }
    {
        let Seat { count, share, .. } = self;
        counts.audit(share);
        let index = *count;
        *count += 1;
        counts.add(share, 1);
        index
    }

    // Returns its share and its count.
    pub(crate) fn give_up(self, to: &mut Share<L>)
        ensures parts { to.new.parts ≡ to.old.parts + 1 }
        ensures amount { to.new.amount ≡ to.old.amount + self.count }
        ensures fits { to.new.parts ≤ L.parts }
    {
        let Seat {
            thread: _,
            count: _,
            share,
        } = self;
        to.merge(share);
    }
}
