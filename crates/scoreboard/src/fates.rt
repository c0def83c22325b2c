//! What is known of a position that was sent, to explain a step that is refused.

ghost use Rattle.std.specs.Prelude.{◌≡◌, true, nat_lt};
ghost use Rattle.spec_flights.specs.Late.{resent_below};
ghost use Rattle.scoreboard.specs.declared.fates.Loss.TheVariants as loss;

use crate::scoreboard::Scoreboard;
use spec_duties::View;
use streams::{Outstanding, next_run};

/// Whether a position that is in flight counts as lost.
#[derive(Clone, Copy)]
pub enum Loss {
    /// It does, or it was given up.
    Lost,
    /// Something that was built later was delivered, so it will. Both times are in microseconds.
    Later {
        /// The round trip by which it is expected.
        round_trip: u64,
        /// How much later than that it may be delivered.
        reordering: u64,
    },
    /// Nothing that was built later was delivered.
    Unknown,
}

/// What an endpoint knows of a position that it sent.
#[derive(Clone, Copy)]
pub enum Fate {
    /// The peer reported it as received.
    Told,
    InFlight {
        /// When it was built last, in microseconds.
        moment: u64,
        /// Whether it was built before that.
        again: bool,
        loss: Loss,
    },
}

impl Scoreboard {
    fn loss_of(&self, recovers: bool, clock: u128, x: &Outstanding) -> Loss
        ensures lost { nat_lt x.now.number (resent_below recovers clock self.now) ≡ true → result ≡ loss.Lost }
        ensures only { result ≡ loss.Lost → nat_lt x.now.number (resent_below recovers clock self.now) ≡ true }
    {
        if x.number < self.resent_below(recovers, clock) {
            return Loss::Lost;
        }
        match self.latest {
            Some(latest) if x.number < latest.number => Loss::Later {
                round_trip: latest.round_trip,
                reordering: self.reordering_time(),
            },
            Some(_) | None => Loss::Unknown,
        }
    }

    /// What is known of a position. `clock`: the moment, and how far a clock may be wrong, in microseconds. None: the
    /// position isn't outstanding.
    pub fn fate_of(&self, recovers: bool, clock: u128, position: u64) -> Option<Fate> {
        if self.told.holds(position) {
            return Some(Fate::Told);
        }
        let run = next_run(
            &self.known,
            &self.told,
            position,
            position.saturating_add(1),
        )?;
        Some(Fate::InFlight {
            moment: run.state.moment,
            again: run.state.again,
            loss: self.loss_of(recovers, clock, &run.state),
        })
    }

    /// The first position from one to before another that the peer reported. None: it reported none.
    pub fn first_told(&self, from: u64, upto: u64) -> Option<u64> {
        match self.told.next_held(from) {
            Some(position) if position < upto => Some(position),
            Some(_) | None => None,
        }
    }

    /// The first position in flight. None: none is.
    pub fn first_in_flight(&self, v: &View) -> Option<u64> {
        Some(next_run(&self.known, &self.told, v.snd_una, v.snd_max)?.from)
    }
}
