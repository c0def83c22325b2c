//! What is kept of an endpoint.

ghost use Rattle.std.specs.Prelude.{◌≡◌, ◌<◌, ◌^◌, OnOk};
ghost use Rattle.std.specs.FinSet.{from_list};
ghost use Rattle.segment.specs.Reading.{sack_blocks};
ghost use Rattle.spec_flights.specs.Flights.{broken_at, finds_lost, flight_after};
ghost use Rattle.spec_flights.specs.Flights.{marks_oldest, may_be_probed, may_begin};
ghost use Rattle.spec_flights.specs.Flights.{probe_broken, rescued_after, unflown, uses_rescue};
ghost use Rattle.spec_flights.specs.Held.{is_untrue};
ghost use Rattle.spec_flights.specs.Marks.{marks_after};

use case_forms::{OutOfMemory, RecoveryChange, SegmentPlan, Timer};
use flight_parts::{
    are_selective, clocks_after, goes_again, is_early_probe, is_none, is_recovering, is_repairing,
    is_untrue, marked_by, needed, neither, no_clocks, none_begun, not_probing, note_echoes,
    note_held, number_built, old_part, probing_after, read_reports, recovery_after, remove_reports,
    sides_after, taken_by,
};
use scoreboard::{Now, Scoreboard};
use seqno::Word;
use spec_duties::{Event, Observation, SynChange, TouchedEndpoint, View};
use spec_flights::{Clocks, Echoable, Probing, Recovery, Reports, Sides, Undoing};
use std::alloc::Global;
use std::marker::Model;
use streams::Ranges;
use tables::Table;
use verdict::Rule;

/// What is kept of an endpoint: what the two SYNs permit, from which loss it recovers, which positions are marked, what
/// is known of each outstanding one, whether it made use of a rescue since the recovery began, how far a probe for a
/// loss is, whether the recovery was needed, what is known of timestamps, and which of them each segment may echo that
/// it built; and which positions of its peer's stream it holds beyond what is next in order.
#[derive(Drop)]
pub(crate) struct Flight {
    pub(crate) sides: Sides,
    pub(crate) recovery: Recovery,
    pub(crate) marks: Ranges,
    pub(crate) board: Scoreboard,
    pub(crate) rescued: bool,
    pub(crate) probing: Probing,
    pub(crate) undoing: Undoing,
    pub(crate) clocks: Clocks,
    pub(crate) echoes: Table<Option<Echoable>>,
    pub(crate) held: Ranges,
}

impl Model for Flight {
    ghost use Rattle.std.specs.FinSet.{items};
    ghost use Rattle.spec_flights.specs.Flights.{Flight};

    ghost Value = { Flight };

    ghost view = { λ a. record {
      sides = a.sides;
      recovery = a.recovery;
      marks = items a.marks;
      board = a.board;
      rescued = a.rescued;
      probing = a.probing;
      undoing = a.undoing;
      clocks = a.clocks;
      echoes = a.echoes.entries;
      held = items a.held;
    } };
}

impl Flight {
    /// Before any step touches it.
    pub(crate) fn new(alloc: Global) -> Flight
        ensures { result ≡ unflown }
    {
        Flight {
            sides: neither(),
            recovery: none_begun(),
            marks: Ranges::new(alloc),
            board: Scoreboard::new(alloc),
            rescued: false,
            probing: not_probing(),
            undoing: needed(),
            clocks: no_clocks(),
            echoes: Table::new(alloc),
            held: Ranges::new(alloc),
        }
    }

    // Whether something is lost, or given up.
    fn finds_lost(&self, clock: u128, v: &View) -> bool
        ensures { result ≡ finds_lost clock v.now self.now }
    {
        self.board
            .has_below(self.board.resent_below(false, clock), v)
    }

    fn may_begin(&self, clock: u128, v: &View) -> bool
        ensures { result ≡ may_begin clock v.now self.now }
    {
        if are_selective(self.sides) {
            !is_recovering(v, self.recovery) && (2 < v.dup || self.finds_lost(clock, v))
        } else {
            2 < v.dup && !v.fast
        }
    }

    // Whether a probe for a loss may be sent once its time has come.
    pub(crate) fn may_be_probed(&self, v: &View) -> bool
        ensures { result ≡ may_be_probed v.now self.now }
    {
        are_selective(self.sides)
            && !is_recovering(v, self.recovery)
            && is_none(self.probing.probe)
            && self.probing.quiet.is_some()
            && !self.board.tells(v.snd_una, v.snd_max)
    }

    // The rule that a step breaks that makes a probe due. None: it breaks none.
    fn probe_broken(&self, clock: u128, v: &View) -> Option<Rule>
        ensures { result ≡ probe_broken clock v.now self.now }
    {
        if !self.may_be_probed(v) {
            return Some(Rule::TimerOff);
        }
        if is_early_probe(clock, v, self.probing.quiet) {
            return Some(Rule::TimerEarly);
        }
        None
    }

    /// The rule that a step breaks. `repeats`: whether it is judged when data goes again. `clock`: the moment, and how
    /// far a clock may be wrong. None: it breaks none.
    pub(crate) fn broken_at(
        &self,
        repeats: bool,
        clock: u128,
        event: &Event,
        v: &View,
    ) -> Option<Rule>
        ensures { result ≡ broken_at repeats clock event.now v.now self.now }
    {
        match event {
            Event::Builds(plan)
                if repeats && goes_again(v, plan) && !self.may_go_again(clock, v, plan) => {
                Some(Rule::OldData)
            }
            Event::Recovers(RecoveryChange::Begins) if repeats && !self.may_begin(clock, v) => {
                Some(Rule::Recovery)
            }
            Event::Recovers(RecoveryChange::IsUndone) if !self.undoing.is_spurious => {
                Some(Rule::Recovery)
            }
            Event::Expires(Timer::Pto) => self.probe_broken(clock, v),
            Event::Opens
            | Event::Calls { .. }
            | Event::Processes { .. }
            | Event::Drops { .. }
            | Event::Builds(_)
            | Event::Sends(_)
            | Event::Expires(Timer::Rto | Timer::Persist | Timer::Msl2 | Timer::Giveup)
            | Event::Recovers(_) => None,
        }
    }

    /// Whether the endpoint may not send a segment with these bytes, because of its blocks.
    pub(crate) fn is_untrue(&self, next: u64, irs: Option<Word>, bytes: &[u8]) -> bool
        requires { next < 2 ^ 63 }
        ensures { result ≡ is_untrue self.now.sides.peers (from_list self.now.held) next irs (sack_blocks bytes.now) }
    {
        is_untrue(self.sides.peers, &self.held, next, irs, bytes)
    }

    // Whether a step marks the first segment, if the endpoint has these values after it.
    fn marks_oldest(
        &self,
        clock: u128,
        touched: &TouchedEndpoint,
        after: &View,
        sides: Sides,
        recovery: Recovery,
    ) -> bool
        ensures { result ≡ marks_oldest clock touched.now.event touched.now.before after.now sides recovery self.now }
    {
        match touched.event {
            Event::Processes { .. } => {
                touched.before.snd_una < after.snd_una
                    && !are_selective(sides)
                    && is_repairing(after, recovery)
            }
            Event::Recovers(RecoveryChange::Begins) => {
                !(are_selective(sides) && self.finds_lost(clock, &touched.before))
            }
            Event::Opens
            | Event::Calls { .. }
            | Event::Drops { .. }
            | Event::Builds(_)
            | Event::Sends(_)
            | Event::Expires(_)
            | Event::Recovers(RecoveryChange::IsUndone) => false,
        }
    }

    // Whether a segment is sent again though nothing is lost, it isn't marked, and it is no probe.
    fn uses_rescue(&self, clock: u128, v: &View, plan: &SegmentPlan) -> bool
        ensures { result ≡ uses_rescue clock v.now plan.now self.now }
    {
        goes_again(v, plan)
            && !(self.are_free_at(clock, v, old_part(v, plan)) || self.is_probe(v, plan))
    }

    fn rescued_after(&self, clock: u128, event: &Event, before: &View) -> bool
        ensures { result ≡ rescued_after clock event.now before.now self.now }
    {
        match event {
            Event::Builds(plan) => self.rescued || self.uses_rescue(clock, before, plan),
            Event::Expires(Timer::Rto) | Event::Recovers(RecoveryChange::Begins) => false,
            Event::Opens
            | Event::Calls { .. }
            | Event::Processes { .. }
            | Event::Drops { .. }
            | Event::Sends(_)
            | Event::Expires(Timer::Persist | Timer::Msl2 | Timer::Giveup | Timer::Pto)
            | Event::Recovers(RecoveryChange::IsUndone) => self.rescued,
        }
    }

    // What is marked after a step.
    fn note_marks(
        &mut self,
        change: SynChange,
        touched: &TouchedEndpoint,
        after: &View,
        r: &Reports,
        oldest: bool,
    ) -> Result<(), OutOfMemory>
        ensures { OnOk result (self.new ≡ record self.old {
          marks =
              marks_after change touched.now.event touched.now.before after.now r.now oldest self.old.marks;
        }) }
    {
        let taken = taken_by(&touched.event, &touched.before);
        self.marks.remove(taken.from, taken.upto)?;
        remove_reports(&mut self.marks, r)?;
        let marked = marked_by(change, &touched.event, after, oldest);
        self.marks.add(marked.from, marked.upto)?;
        self.marks.forget_below(after.snd_una);
        Ok(())
    }

    /// What is kept after a step. If memory runs out, it is of no use any more.
    pub(crate) fn note(
        &mut self,
        moment: u64,
        clock: u128,
        seen: &Observation,
        touched: &TouchedEndpoint,
        after: &View,
    ) -> Result<(), OutOfMemory>
        ensures { OnOk result (self.new ≡ flight_after moment clock seen.now touched.now after.now self.old) }
    {
        let sides = sides_after(seen.syn_change, self.sides);
        let recovery = recovery_after(&touched.event, after, self.recovery);
        let recovers = is_recovering(&touched.before, self.recovery);
        let r = read_reports(sides, &seen.blocks);
        let oldest = self.marks_oldest(clock, touched, after, sides, recovery);
        let undoing = self.undoing_after(seen, touched, after, sides, &r);
        self.rescued = self.rescued_after(clock, &touched.event, &touched.before);
        self.note_marks(seen.syn_change, touched, after, &r, oldest)?;
        let now = Now {
            moment,
            clock,
            recovers,
        };
        self.board
            .note(now, number_built(seen.built_change), touched, after, &r)?;
        note_held(&mut self.held, seen.kept, after.rcv_nxt)?;
        note_echoes(&mut self.echoes, seen, &touched.event, self.clocks)?;
        self.sides = sides;
        self.recovery = recovery;
        let before = &touched.before;
        self.probing = probing_after(moment, &touched.event, before, after, self.probing);
        self.undoing = undoing;
        self.clocks = clocks_after(seen, &touched.event, after, self.clocks);
        Ok(())
    }
}
