//! Which endpoints of a host are to be visited, and when. Moments are in microseconds.
//!
//! The queue has a place below which every endpoint was visited once, and entries for those of them that are to be
//! visited again. An endpoint below that place without an entry has nothing to do.

ghost use Rattle.std.specs.Prelude.{◌≡◌, ◌+◌, ◌<◌, ◌≤◌, ◌^◌, true, false, [], drop, length, slice_get};
ghost use Rattle.std.specs.Option.{IfSome};
ghost use Rattle.stack_core.specs.declared.deadline_queue.Affected.TheVariants.{Place};
ghost use Rattle.stack_core.specs.DeadlineQueues.{AreFrom, AreStill, IsGrown, IsListed, IsRenewed, LooksAgain};

use endpoint_state::HostTcp;
use std::alloc::Global;
use std::collections::BTreeSet;

/// The endpoint at a place is to be visited from a moment on. The earliest come first.
#[derive(Clone, Copy, PartialEq, Eq, PartialOrd, Ord, Drop)]
pub(crate) struct Deadline {
    pub(crate) moment: u64,
    pub(crate) place: u32,
}

/// Which endpoints of a host a step may change, besides one that it creates.
#[derive(Clone, Copy)]
pub(crate) enum Affected {
    Nobody,
    Place(u32),
    All,
}

/// The endpoints that are to be visited.
#[derive(Drop)]
pub(crate) struct DeadlineQueue {
    /// Endpoints from this place on weren't visited yet.
    pub(crate) looked: u32,
    /// Those below it that are to be visited again.
    pub(crate) entries: BTreeSet<Deadline>,
}

impl DeadlineQueue {
    /// No endpoint was visited.
    pub(crate) fn new(alloc: Global) -> DeadlineQueue
        ensures looked { result.looked ≡ 0 }
        ensures entries { result.entries.keys ≡ [] }
    {
        DeadlineQueue {
            looked: 0,
            entries: BTreeSet::new(alloc),
        }
    }

    /// How many entries there are.
    pub(crate) fn len(&self) -> usize {
        self.entries.len()
    }

    /// The earliest entry.
    pub(crate) fn first(&self) -> Option<Deadline>
        ensures first { result ≡ slice_get self.now.entries.keys 0 }
        ensures earliest { IfSome result (λ w. AreFrom w.moment self.now.entries.keys) }
    {
        match self.entries.first() {
            Some(wake) => Some(*wake),
            None => None,
        }
    }

    /// A step may change these endpoints, so they are to be visited at once. If memory runs out, all endpoints are.
    pub(crate) fn look_again(&mut self, affected: Affected)
        ensures { LooksAgain affected self.old.looked self.old.entries.keys self.new.looked self.new.entries.keys }
    {
        match affected {
            Affected::Nobody => {}
            Affected::Place(place) => self.look_again_at(place),
            Affected::All => self.looked = 0,
        }
    }

    // The same for one endpoint.
    fn look_again_at(&mut self, place: u32)
        ensures { LooksAgain (Place place) self.old.looked self.old.entries.keys self.new.looked self.new.entries.keys }
    {
        if self.looked <= place {
            return;
        }
        if self.list(Deadline { moment: 0, place }) {
            return;
        }
        self.looked = 0;
    }

    /// Adds entries for the endpoints that weren't visited. False: memory ran out before all had theirs.
    pub(crate) fn list_new(&mut self, body: &HostTcp) -> bool
        requires { length body.now.endpoints < 2 ^ 32 }
        ensures grown { IsGrown (length body.now.endpoints) self.old.looked self.old.entries.keys self.new.looked
            self.new.entries.keys }
        ensures all { result ≡ true → length body.now.endpoints ≤ self.new.looked }
    {
        while let Some(endpoint) = body.endpoint_at(self.looked) {
            let wake = Deadline {
                moment: 0,
                place: self.looked,
            };
            if self.list(wake) {
                self.looked += 1;
            } else {
                return false;
            }
        }
        true
    }

    /// Removes the earliest entry.
    pub(crate) fn leave(&mut self)
        ensures looked { self.new.looked ≡ self.old.looked }
        ensures rest { self.new.entries.keys ≡ drop 1 self.old.entries.keys }
    {
        self.entries.pop_first();
    }

    /// Replaces the earliest entry by this one. False: memory ran out, and no endpoint counts as visited.
    pub(crate) fn renew(&mut self, wake: Deadline) -> bool
        ensures renewed { IsRenewed wake self.old.looked self.old.entries.keys self.new.looked self.new.entries.keys }
        ensures looked { result ≡ true → self.new.looked ≡ self.old.looked }
    {
        self.leave();
        if self.list(wake) {
            return true;
        }
        self.looked = 0;
        false
    }

    // Adds an entry. False: memory ran out, and nothing is changed.
    fn list(&mut self, wake: Deadline) -> bool
        ensures looked { self.new.looked ≡ self.old.looked }
        ensures yes { result ≡ true → AreStill self.old.entries.keys self.new.entries.keys
            × IsListed wake self.new.entries.keys }
        ensures no { result ≡ false → self.new.entries.keys ≡ self.old.entries.keys }
    {
        match self.entries.insert(wake) {
            Ok(_) => true,
            Err(_) => false,
        }
    }
}
