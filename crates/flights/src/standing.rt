//! What an endpoint knows of a position that it sent, to explain a step that is refused.

ghost use Rattle.std.specs.Prelude.{◌≡◌, ◌<◌, true, false};
ghost use Rattle.std.specs.List.{list_all};
ghost use Rattle.streams.specs.Ranges.{positions};
ghost use Rattle.spec_flights.specs.Flights.{is_free};

use crate::flight::Flight;
use case_forms::{RecoveryChange, SegmentPlan};
use flight_parts::{are_selective, goes_again, is_recovering, old_part};
use scoreboard::Fate;
use spec_duties::{Event, View};
use spec_flights::{Probe, Stretch};

/// What an endpoint for which both SYNs permitted selective acknowledgments knows of losses at a refused step.
#[derive(Clone, Copy)]
pub struct Standing {
    /// The position up to which it recovers from a loss. None: it doesn't recover.
    pub recovers_upto: Option<u64>,
    /// The first position of the segment that may not be sent again. If fast recovery begins: the first one in flight.
    pub position: u64,
    pub fate: Fate,
    /// How far a probe for a loss is.
    pub probe: Probe,
    /// The first position of the segment that the peer reported. None: it reported none, or the step builds none.
    pub reported: Option<u64>,
}

impl Flight {
    // The position after the first ones that may be sent again; not below `upto` if all may.
    fn free_end(&self, below: u64, old: Stretch) -> u64
        ensures free { list_all (is_free below self.now) (positions old.from result) ≡ true }
        ensures kept { result < old.upto → is_free below self.now result ≡ false }
    {
        let mut at = old.from;
        while at < old.upto {
            let Some(next) = self.free_upto(below, at, old.upto) else {
                return at;
            };
            at = next;
        }
        at
    }

    // The first position of a segment that may not be sent again. None: all may, or the segment isn't judged here.
    fn first_kept(&self, clock: u128, v: &View, plan: &SegmentPlan) -> Option<u64> {
        if !goes_again(v, plan) {
            return None;
        }
        let old = old_part(v, plan);
        let end = self.free_end(self.free_below(clock, v), old);
        if end < old.upto { Some(end) } else { None }
    }

    // The first position of what a step sends again that the peer reported. None: it reported none.
    fn first_reported(&self, event: &Event, v: &View) -> Option<u64> {
        let Event::Builds(plan) = event else {
            return None;
        };
        let old = old_part(v, plan);
        self.board.first_told(old.from, old.upto)
    }

    // The position that decides whether a step is refused. None: none does.
    fn decisive(&self, clock: u128, event: &Event, v: &View) -> Option<u64> {
        match event {
            Event::Builds(plan) => self.first_kept(clock, v, plan),
            Event::Recovers(RecoveryChange::Begins) => self.board.first_in_flight(v),
            Event::Opens
            | Event::Calls { .. }
            | Event::Processes { .. }
            | Event::Drops { .. }
            | Event::Sends(_)
            | Event::Expires(_)
            | Event::Recovers(RecoveryChange::IsUndone) => None,
        }
    }

    /// What the endpoint knows of losses at a step that is refused. None: the step isn't refused for them, or one of
    /// the two SYNs didn't permit selective acknowledgments.
    pub(crate) fn standing(&self, clock: u128, event: &Event, v: &View) -> Option<Standing> {
        if !are_selective(self.sides) {
            return None;
        }
        let position = self.decisive(clock, event, v)?;
        let recovers = is_recovering(v, self.recovery);
        Some(Standing {
            recovers_upto: if recovers {
                Some(self.recovery.point)
            } else {
                None
            },
            position,
            fate: self.board.fate_of(recovers, clock, position)?,
            probe: self.probing.probe,
            reported: self.first_reported(event, v),
        })
    }
}
