//! What may be sent again.

ghost use Rattle.std.specs.Prelude.{◌≡◌, ◌≤◌, ◌<◌, ◌+◌, true, false, not, nat_eq, ◌&&◌, None, IfSome};
ghost use Rattle.std.specs.FinSet.{from_list};
ghost use Rattle.std.specs.List.{list_all};
ghost use Rattle.spec_tcp.specs.Makes.Payload.{making_length};
ghost use Rattle.streams.specs.Ranges.{covers, meets, positions};
ghost use Rattle.spec_flights.specs.Flights.{are_free, free_below, is_free, is_marked, is_probe, is_rescue};
ghost use Rattle.spec_flights.specs.Flights.{may_go_again, recovers_selectively, sends_nothing_new};

use crate::flight::Flight;
use case_forms::SegmentPlan;
use flight_parts::{
    are_selective, is_due, is_recovering, is_repairing, making_length, number_after, old_part,
};
use spec_duties::View;
use spec_flights::Stretch;
use streams::next_run;

// Whether nothing new may be sent.
fn sends_nothing_new(v: &View) -> bool
    ensures { result ≡ sends_nothing_new v.now }
{
    v.end <= v.snd_max || v.snd_una.saturating_add(u64::from(v.snd_wnd)) <= v.snd_max
}

// Whether the position after a segment is this one.
fn ends_at(plan: &SegmentPlan, end: u64) -> bool
    ensures { result ≡ nat_eq (plan.now.pos + making_length plan.now) end }
{
    u128::from(plan.pos) + u128::from(making_length(plan)) == u128::from(end)
}

impl Flight {
    // Whether the endpoint recovers, and may choose by blocks what it sends again.
    fn recovers_selectively(&self, v: &View) -> bool
        ensures { result ≡ recovers_selectively v.now self.now }
    {
        are_selective(self.sides) && is_recovering(v, self.recovery)
    }

    /// What was built under a number below this one may be sent again.
    pub(crate) fn free_below(&self, clock: u128, v: &View) -> u64
        ensures { result ≡ free_below clock v.now self.now }
    {
        if self.recovers_selectively(v) {
            self.board.resent_below(true, clock)
        } else {
            number_after(self.board.given_up)
        }
    }

    // The position after some that are marked, from this one on; this one itself if it isn't.
    fn marked_upto(&self, at: u64) -> u64
        ensures above { at ≤ result }
        ensures marked { list_all (is_marked self.now) (positions at result) ≡ true }
        ensures none { result ≡ at → is_marked self.now at ≡ false }
    {
        let end = self.marks.next_missing(at);
        if !self.recovery.is_fast {
            return end;
        }
        match self.board.told.next_held(at) {
            Some(told) => told.min(end),
            None => end,
        }
    }

    /// The position after some that may be sent again, from this one on; None: this one may not.
    pub(crate) fn free_upto(&self, below: u64, at: u64, upto: u64) -> Option<u64>
        requires { at < upto }
        ensures some { IfSome result (λ next. (at < next)
            × (list_all (is_free below self.now) (positions at next) ≡ true)) }
        ensures none { result ≡ None → is_free below self.now at ≡ false }
    {
        let marked = self.marked_upto(at);
        if at < marked {
            return Some(marked);
        }
        match next_run(&self.board.known, &self.board.told, at, upto) {
            Some(run) if run.from == at && run.state.number < below => Some(run.upto),
            Some(_) | None => None,
        }
    }

    // Whether all of some positions may be sent again.
    fn are_free(&self, below: u64, old: Stretch) -> bool
        ensures { result ≡ are_free below self.now old }
    {
        let mut at = old.from;
        while at < old.upto {
            let Some(next) = self.free_upto(below, at, old.upto) else {
                return false;
            };
            at = next;
        }
        true
    }

    // Whether the peer reported none of these positions, and all that is outstanding after them.
    fn is_last_untold(&self, v: &View, old: Stretch) -> bool
        ensures { result ≡ (not (meets (from_list self.now.board.told) old.from old.upto)
            && covers (from_list self.now.board.told) old.upto v.now.snd_max) }
    {
        !self.board.told.meets(old.from, old.upto) && self.board.told.covers(old.upto, v.snd_max)
    }

    // Whether these positions may be sent again though nothing is lost.
    fn is_rescue(&self, clock: u128, v: &View, old: Stretch) -> bool
        ensures { result ≡ is_rescue clock v.now self.now old }
    {
        are_selective(self.sides)
            && is_repairing(v, self.recovery)
            && !self.rescued
            && sends_nothing_new(v)
            && self.is_last_untold(v, old)
            && !self
                .board
                .has_below(self.board.resent_below(true, clock), v)
    }

    /// Whether these positions are marked, lost or given up, and so may be sent again.
    pub(crate) fn are_free_at(&self, clock: u128, v: &View, old: Stretch) -> bool
        ensures { result ≡ are_free (free_below clock v.now self.now) self.now old }
    {
        self.are_free(self.free_below(clock, v), old)
    }

    /// Whether a segment that was sent before is the probe that is due.
    pub(crate) fn is_probe(&self, v: &View, plan: &SegmentPlan) -> bool
        ensures { result ≡ is_probe v.now plan.now self.now }
    {
        let old = old_part(v, plan);
        is_due(self.probing.probe)
            && ends_at(plan, v.snd_max)
            && !self.board.tells(old.from, old.upto)
    }

    /// Whether a segment may be sent again.
    pub(crate) fn may_go_again(&self, clock: u128, v: &View, plan: &SegmentPlan) -> bool
        ensures { result ≡ may_go_again clock v.now plan.now self.now }
    {
        let old = old_part(v, plan);
        self.are_free_at(clock, v, old) || self.is_probe(v, plan) || self.is_rescue(clock, v, old)
    }
}
