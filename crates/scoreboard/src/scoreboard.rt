//! What a sender knows of its outstanding positions.

ghost use Rattle.std.specs.Prelude.{◌≡◌, OnOk};
ghost use Rattle.std.specs.FinSet.{from_list};
ghost use Rattle.streams.specs.Ranges.{meets};
ghost use Rattle.spec_flights.specs.Scoreboard.{nothing_built, with_built, with_given_up, with_nothing_given_up};

use case_forms::OutOfMemory;
use spec_flights::{Latest, Making, Stretch};
use std::alloc::Global;
use std::collections::VecDeque;
use std::marker::Model;
use streams::{Flight as Known, Ranges};

/// What a sender knows of its outstanding positions.
#[derive(Drop)]
pub struct Scoreboard {
    /// With which segment each was built last.
    pub known: Known,
    /// Those that the peer reported as received.
    pub told: Ranges,
    /// Those of them that were the last of their segments.
    pub(crate) ends: Ranges,
    /// The segments, as they were built, that aren't lost.
    pub(crate) built: VecDeque<Making>,
    /// What was built under a number below this one is lost.
    pub(crate) lost: u64,
    /// The number of the last segment that was built.
    pub newest: u32,
    /// What was built up to this number is given up.
    pub given_up: u32,
    pub(crate) latest: Option<Latest>,
    /// The least round trip, in microseconds.
    pub(crate) least: Option<u64>,
}

impl Model for Scoreboard {
    ghost use Rattle.std.specs.FinSet.{items};
    ghost use Rattle.spec_flights.specs.Scoreboard.{Scoreboard};

    ghost Value = { Scoreboard };

    ghost view = { λ a. record {
      known = a.known;
      told = items a.told;
      ends = items a.ends;
      built = a.built.items;
      lost = a.lost;
      newest = a.newest;
      given_up = a.given_up;
      latest = a.latest;
      least = a.least;
    } };
}

impl Scoreboard {
    /// Whether the peer reported one of the positions from one to before another.
    pub fn tells(&self, from: u64, upto: u64) -> bool
        ensures { result ≡ meets (from_list self.now.told) from upto }
    {
        self.told.meets(from, upto)
    }

    /// Before anything was built.
    pub fn new(alloc: Global) -> Scoreboard
        ensures { result ≡ nothing_built }
    {
        Scoreboard {
            known: Known::new(alloc),
            told: Ranges::new(alloc),
            ends: Ranges::new(alloc),
            built: VecDeque::new(alloc),
            lost: 0,
            newest: 0,
            given_up: 0,
            latest: None,
            least: None,
        }
    }

    /// Takes a segment that was built with these positions. If memory runs out, nothing of it is of use any more.
    pub(crate) fn build(
        &mut self,
        number: u32,
        moment: u64,
        stretch: Stretch,
    ) -> Result<(), OutOfMemory>
        ensures { OnOk result (self.new ≡ with_built number moment stretch self.old) }
    {
        let (from, upto) = (stretch.from, stretch.upto);
        if upto <= from || from < self.known.snd_una() || self.known.end() < from {
            return Ok(());
        }
        self.known.make(from, upto, u64::from(number), moment)?;
        self.told.remove(from, upto)?;
        self.ends.remove(from, upto)?;
        self.built.push_back(Making { number, moment })?;
        self.newest = number;
        Ok(())
    }

    /// All that was built so far is given up.
    pub(crate) fn give_up(&mut self)
        ensures { self.new ≡ with_given_up self.old }
    {
        self.given_up = self.newest;
    }

    /// Nothing is given up.
    pub(crate) fn give_up_nothing(&mut self)
        ensures { self.new ≡ with_nothing_given_up self.old }
    {
        self.given_up = 0;
    }
}
