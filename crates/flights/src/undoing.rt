//! When an acknowledgment shows that a recovery wasn't needed (RFC 3522, 3.2; RFC 5682, 3).

ghost use Rattle.std.specs.Prelude.{◌≡◌, ◌&&◌, false, is_some, None, not, Some};
ghost use Rattle.spec_flights.specs.Undoing.{shows_spurious, undoing_after};
ghost use Rattle.spec_flights.specs.Marks.{goes_again};
ghost use Rattle.spec_flights.specs.Recovering.{is_recovering};

use crate::flight::Flight;
use case_forms::{SegmentPlan, Timer};
use flight_parts::{
    again_built, again_shown, answers_earlier, are_selective, goes_again, is_recovering, needed,
    number_built, number_sent,
};
use spec_duties::{Event, Observation, TouchedEndpoint, View};
use spec_flights::{Began, Reports, Sides, Undoing};

impl Flight {
    // Whether an acknowledgment shows that the recovery wasn't needed.
    fn shows_spurious(
        &self,
        seen: &Observation,
        before: &View,
        after: &View,
        sides: Sides,
        r: &Reports,
    ) -> bool
        ensures { result ≡ shows_spurious seen.now before.now after.now sides self.now.recovery.point r.now
            self.now.board self.now.undoing }
    {
        let Some(again) = self.undoing.again else {
            return false;
        };
        if answers_earlier(before, after, seen.stamps, again) {
            return true;
        }
        match (seen.arrival, self.undoing.timeout) {
            (Some(arrival), Some(timeout)) => {
                let point = self.recovery.point;
                are_selective(sides)
                    && self
                        .board
                        .delivers_earlier(point, before, after, r, arrival.ack, timeout)
            }
            _ => false,
        }
    }

    // The recovery that begins with a timeout.
    fn begun(&self, before: &View) -> Undoing
        ensures { result ≡ record {
          again = None;
          timeout = Some (record { snd_una = before.now.snd_una; newest = self.now.board.newest });
          is_spurious = false;
        } }
    {
        Undoing {
            again: None,
            timeout: Some(Began {
                snd_una: before.snd_una,
                newest: self.board.newest,
            }),
            is_spurious: false,
        }
    }

    // Whether a segment is the first in a recovery that goes again.
    fn is_first_again(&self, before: &View, plan: &SegmentPlan) -> bool
        ensures { result ≡ (not (is_some self.now.undoing.again) && is_recovering before.now self.now.recovery
            && goes_again before.now plan.now) }
    {
        self.undoing.again.is_none()
            && is_recovering(before, self.recovery)
            && goes_again(before, plan)
    }

    /// What is known after a step of whether the recovery was needed.
    pub(crate) fn undoing_after(
        &self,
        seen: &Observation,
        touched: &TouchedEndpoint,
        after: &View,
        sides: Sides,
        r: &Reports,
    ) -> Undoing
        ensures { result ≡ undoing_after seen.now touched.now.event touched.now.before after.now sides
            self.now.recovery r.now self.now.board self.now.undoing }
    {
        let before = &touched.before;
        let it = self.undoing;
        let (mut again, mut is_spurious) = (it.again, it.is_spurious);
        match &touched.event {
            Event::Expires(Timer::Rto) => return self.begun(before),
            Event::Recovers(_) => return needed(),
            Event::Builds(plan) => {
                let first = self.is_first_again(before, plan);
                again = again_built(number_built(seen.built_change), plan, first, again);
            }
            Event::Sends(_) => {
                again = again_shown(number_sent(seen.built_change), seen.stamps, again);
            }
            Event::Processes { .. } => {
                is_spurious = is_spurious
                    || is_recovering(before, self.recovery)
                        && self.shows_spurious(seen, before, after, sides, r);
            }
            Event::Opens
            | Event::Calls { .. }
            | Event::Drops { .. }
            | Event::Expires(Timer::Persist | Timer::Msl2 | Timer::Giveup | Timer::Pto) => {}
        }
        Undoing {
            again,
            timeout: it.timeout,
            is_spurious,
        }
    }
}
