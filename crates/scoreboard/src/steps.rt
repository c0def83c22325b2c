//! What is known of outstanding positions after a step.

ghost use Rattle.std.specs.Prelude.{◌≡◌, OnOk};
ghost use Rattle.case_forms.specs.declared.timer.RecoveryChange.TheVariants.{Begins, IsUndone};
ghost use Rattle.spec_flights.specs.Flights.{board_after, board_heard, board_opened};
ghost use Rattle.spec_flights.specs.Scoreboard.{with_nothing_given_up};

use crate::scoreboard::Scoreboard;
use case_forms::{OutOfMemory, RecoveryChange, Timer};
use flight_parts::{opens_probed, stretch_built};
use spec_duties::{Event, TouchedEndpoint, View};
use spec_flights::{Reports, Stretch};

/// When a step is done.
#[derive(Clone, Copy)]
pub struct Now {
    /// The moment, in microseconds.
    pub moment: u64,
    /// The moment, and how far a clock may be wrong, in microseconds.
    pub clock: u128,
    /// Whether the endpoint recovered from a loss before the step.
    pub recovers: bool,
}

impl Scoreboard {
    // A segment is processed.
    fn hear_segment(
        &mut self,
        now: Now,
        rst: bool,
        before: &View,
        after: &View,
        r: &Reports,
    ) -> Result<(), OutOfMemory>
        ensures { OnOk result (self.new
            ≡ board_heard now.moment now.clock now.recovers rst before.now after.now r.now self.old) }
    {
        if rst || before.state.is_syn_sent() {
            self.known.forget_below(after.snd_una);
            return Ok(());
        }
        self.settle(now.recovers, now.clock);
        let acked = Stretch {
            from: before.snd_una,
            upto: after.snd_una,
        };
        self.hear(now.moment, acked, r)
    }

    // The window may open.
    fn open(&mut self, before: &View, after: &View)
        ensures { self.new ≡ board_opened before.now after.now self.old }
    {
        if opens_probed(before, after) {
            self.give_up();
        }
    }

    // A recovery begins, or is undone.
    fn note_recovery(&mut self, change: RecoveryChange)
        ensures begins { change ≡ Begins → self.new ≡ self.old }
        ensures undone { change ≡ IsUndone → self.new ≡ with_nothing_given_up self.old }
    {
        match change {
            RecoveryChange::Begins => {}
            RecoveryChange::IsUndone => self.give_up_nothing(),
        }
    }

    /// Takes a step; a segment that it builds has this number. If memory runs out, nothing of it is of use any more.
    pub fn note(
        &mut self,
        now: Now,
        number: u32,
        touched: &TouchedEndpoint,
        after: &View,
        r: &Reports,
    ) -> Result<(), OutOfMemory>
        ensures { OnOk result (self.new ≡ board_after now.moment now.clock now.recovers number touched.now.event
            touched.now.before after.now r.now self.old) }
    {
        let before = &touched.before;
        match touched.event {
            Event::Processes { rst, .. } => {
                self.hear_segment(now, rst, before, after, r)?;
                self.open(before, after);
            }
            Event::Builds(plan) => {
                self.settle(now.recovers, now.clock);
                self.build(number, now.moment, stretch_built(&plan, before, after))?;
            }
            Event::Expires(Timer::Rto | Timer::Persist) => self.give_up(),
            Event::Recovers(change) => {
                self.settle(now.recovers, now.clock);
                self.note_recovery(change);
            }
            Event::Opens
            | Event::Calls { .. }
            | Event::Drops { .. }
            | Event::Sends(_)
            | Event::Expires(Timer::Msl2 | Timer::Giveup | Timer::Pto) => {}
        }
        Ok(())
    }
}
