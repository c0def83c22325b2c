//! A listen queue.

ghost use Rattle.std.specs.Prelude.{◌≡◌, ◌-◌, [], ◌∷◌, ◌++◌, OnOk, OnErr, drop, length, slice_get, take};

use std::alloc::{AllocError, Global};
use std::collections::VecDeque;
use std::marker::Model;

/// Places of endpoints, in the order of joining, which contracts see as a list.
#[derive(Drop)]
pub struct Queue {
    places: VecDeque<u32>,
}

impl Model for Queue {
    ghost use Rattle.std.specs.Prelude.{List, ℕ};

    ghost Value = { List ℕ };

    ghost view = { λ q. q.places.items };
}

impl Queue {
    /// An empty queue.
    pub fn new(alloc: Global) -> Queue
        ensures { result ≡ [] }
    {
        Queue {
            places: VecDeque::new(alloc),
        }
    }

    /// How many are in the queue.
    pub fn len(&self) -> usize
        ensures { result ≡ length self.now }
    {
        self.places.len()
    }

    /// The first that joined. `None` means that the queue is empty.
    pub fn first(&self) -> Option<u32>
        ensures { result ≡ slice_get self.now 0 }
    {
        self.places.front().copied()
    }

    /// Adds one at the end. If memory runs out, the queue doesn't change.
    pub fn join(&mut self, place: u32) -> Result<(), AllocError>
        ensures ok { OnOk result (self.new ≡ self.old ++ place ∷ []) }
        ensures err { OnErr result (self.new ≡ self.old) }
    {
        self.places.push_back(place)?;
        Ok(())
    }

    /// Removes the first.
    pub fn leave(&mut self)
        ensures { self.new ≡ drop 1 self.old }
    {
        self.places.pop_front();
    }

    /// Removes the last.
    pub fn leave_last(&mut self)
        ensures { self.new ≡ take (length self.old - 1) self.old }
    {
        self.places.pop_back();
    }
}
