//! What is lost, since something that was built later was delivered.

ghost use Rattle.std.specs.Prelude.{◌≡◌, ◌+◌, ◌<◌, true, false};
ghost use Rattle.std.specs.VecDeque.{deque_len};
ghost use Rattle.spec_flights.specs.Late.{has_below, is_late, is_late_in, left_in, lost_below, lost_below_in};
ghost use Rattle.spec_flights.specs.Late.{reordering_time, resent_below, settled, three_are_told};

use crate::scoreboard::Scoreboard;
use crate::walk::is_any_below;
use flight_parts::{number_after, outstanding};
use spec_duties::View;
use spec_flights::{Latest, Making};
use std::collections::VecDeque;

/// By what a segment is late.
#[derive(Clone, Copy)]
struct Lateness {
    /// Whether the endpoint recovers, or the peer reported the ends of three segments.
    at_once: bool,
    /// The moment, and how far a clock may be wrong.
    clock: u128,
    /// How much later than expected something may arrive, in microseconds.
    reordering: u64,
    latest: Option<Latest>,
}

// When something that was built at this moment should have been delivered.
fn due(moment: u64, round_trip: u64, reordering: u64) -> u128
    ensures { result ≡ moment + round_trip + reordering }
{
    u128::from(moment) + u128::from(round_trip) + u128::from(reordering)
}

impl Lateness {
    fn is_late(&self, making: &Making) -> bool
        ensures { result
            ≡ is_late self.now.at_once self.now.clock self.now.reordering self.now.latest making.now }
    {
        match self.latest {
            Some(latest) => {
                u64::from(making.number) < latest.number
                    && (self.at_once
                        || due(making.moment, latest.round_trip, self.reordering) <= self.clock)
            }
            None => false,
        }
    }
}

// The number below which all is lost, if the leading ones of these segments are late.
fn lost_below_in(lateness: &Lateness, lost: u64, built: &VecDeque<Making>) -> u64
    ensures { result ≡ lost_below_in
        (is_late lateness.now.at_once lateness.now.clock lateness.now.reordering lateness.now.latest) lost
        built.now.items }
{
    let mut below = lost;
    let mut place = 0;
    while place < built.len() {
        let making = built[place];
        if !lateness.is_late(&making) {
            return below;
        }
        below = number_after(making.number);
        place += 1;
    }
    below
}

// Takes out the first segment if it is late. Answers whether it is.
fn pop_late(lateness: &Lateness, built: &mut VecDeque<Making>) -> bool
    ensures late { result ≡ true
        → left_in (is_late lateness.now.at_once lateness.now.clock lateness.now.reordering lateness.now.latest)
        built.new.items
        ≡ left_in (is_late lateness.now.at_once lateness.now.clock lateness.now.reordering lateness.now.latest)
        built.old.items }
    ensures less { result ≡ true → deque_len built.new < deque_len built.old }
    ensures none { result ≡ false → left_in
        (is_late lateness.now.at_once lateness.now.clock lateness.now.reordering lateness.now.latest) built.old.items
        ≡ built.new.items }
{
    match built.front() {
        Some(first) if lateness.is_late(first) => built.pop_front().is_some(),
        Some(_) | None => false,
    }
}

// Takes out the leading segments that are late.
fn drop_late(lateness: &Lateness, built: &mut VecDeque<Making>)
    ensures { built.new.items ≡ left_in
        (is_late lateness.now.at_once lateness.now.clock lateness.now.reordering lateness.now.latest)
        built.old.items }
{
    while pop_late(lateness, built) {}
}

impl Scoreboard {
    // Whether the peer reported the ends of three segments.
    fn three_are_told(&self) -> bool
        ensures { result ≡ three_are_told self.now }
    {
        let Some(one) = self.ends.next_held(0) else {
            return false;
        };
        let Some(two) = self.ends.next_held(one + 1) else {
            return false;
        };
        self.ends.next_held(two + 1).is_some()
    }

    /// How much later than expected something may arrive, in microseconds.
    pub(crate) fn reordering_time(&self) -> u64
        ensures { result ≡ reordering_time self.now }
    {
        self.least.unwrap_or(0) / 4
    }

    fn lateness(&self, recovers: bool, clock: u128) -> Lateness
        ensures { is_late result.at_once result.clock result.reordering result.latest
            ≡ is_late_in recovers clock self.now }
    {
        Lateness {
            at_once: recovers || self.three_are_told(),
            clock,
            reordering: self.reordering_time(),
            latest: self.latest,
        }
    }

    // The number below which all is lost, if what is late now is.
    fn lost_below(&self, recovers: bool, clock: u128) -> u64
        ensures { result ≡ lost_below recovers clock self.now }
    {
        lost_below_in(&self.lateness(recovers, clock), self.lost, &self.built)
    }

    /// The number below which all is lost or given up.
    pub fn resent_below(&self, recovers: bool, clock: u128) -> u64
        ensures { result ≡ resent_below recovers clock self.now }
    {
        self.lost_below(recovers, clock)
            .max(number_after(self.given_up))
    }

    /// What is late now is lost.
    pub(crate) fn settle(&mut self, recovers: bool, clock: u128)
        ensures { self.new ≡ settled recovers clock self.old }
    {
        let lateness = self.lateness(recovers, clock);
        self.lost = lost_below_in(&lateness, self.lost, &self.built);
        drop_late(&lateness, &mut self.built);
    }

    /// Whether something in flight was built under a lower number than this one.
    pub fn has_below(&self, number: u64, v: &View) -> bool
        ensures { result ≡ has_below number v.now self.now }
    {
        is_any_below(&self.known, &self.told, number, outstanding(v))
    }
}
