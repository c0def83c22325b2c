//! Steps that are judged beside the model: by duties (version 5 with a slack), and by what is kept of data in flight
//! (version 6).

ghost use Rattle.std.specs.Prelude.{◌<◌};
ghost use Rattle.spec_tcp.specs.Bounds.{most_steps};
ghost use Rattle.spec_step.specs.Acts.{IsSmall};

use case_forms::{Host, TakenLine};
use duties::{Duties, rule_of, view_of};
use endpoint_state::{StepFault, World};
use flights::{Flights, ProbeStanding};
use spec_duties::{Observation, Untruth, View};
use spec_flights::Clocks;
use spec_step::{Hidden, ModelStep};
use std::alloc::Global;
use verdict::Rule;
use watched::{note_waits, observe_hidden, observe_line, untrue_at, view_in};

/// What is kept beside the world: data in flight, and what hosts owe.
#[derive(Drop)]
pub(crate) struct Beside {
    flights: Flights,
    pub duties: Duties,
}

impl Beside {
    /// Before the first step.
    pub(crate) fn start(alloc: Global) -> Beside {
        Beside {
            flights: Flights::start(alloc),
            duties: Duties::start(alloc),
        }
    }

    /// What is known of timestamps at the endpoint of a host at a place.
    pub(crate) fn clocks(&self, host: Host, place: u32) -> Clocks {
        self.flights.clocks_at(host, place)
    }

    /// Whether the endpoint of a host at a place recovers from a loss, and this may be undone. Both SYNs permitted
    /// selective acknowledgments.
    pub(crate) fn may_undo(&self, world: &World, host: Host, place: u32) -> bool {
        let Some(endpoint) = world.body(host).endpoint_at(place) else {
            return false;
        };
        let view = view_of(endpoint);
        let standing = self
            .flights
            .probe_standing(world.header(), host, place, &view);
        matches!(standing, Some(ProbeStanding::Recovers(_)))
            && self.flights.is_spurious(host, place)
    }
}

// What is seen of a step.
#[derive(Clone, Copy)]
struct Sight<'s> {
    seen: &'s Observation,
    /// The same as duties see it: what is dropped may be excused.
    shown: &'s Observation,
    /// What the line of a segment shows that may not be.
    untrue: Option<Untruth>,
}

// What is seen of a step that drops no segment.
fn plain(seen: &Observation, untrue: Option<Untruth>) -> Sight<'_> {
    Sight {
        seen,
        shown: seen,
        untrue,
    }
}

/// When a step is done, and how it is judged.
#[derive(Clone, Copy)]
pub(crate) struct Watch {
    /// How late a host may be with what it must do, in microseconds. None: no duty is judged.
    pub slack: Option<u64>,
    /// The moment of the step, in microseconds.
    pub moment: u64,
    /// Whether a step that only a duty refuses is done all the same.
    pub forgives: bool,
}

impl Watch {
    // The rule of a duty that a step breaks. None: it breaks none.
    fn broken(self, world: &World, duties: &Duties, sight: Sight<'_>) -> Option<Rule> {
        let untrue = sight.untrue;
        let Some(slack) = self.slack else {
            return match untrue {
                Some(untrue) => Some(rule_of(untrue)),
                None => None,
            };
        };
        duties
            .admits(world.header(), slack, self.moment, untrue, sight.shown)
            .err()
    }

    // Whether a step is done that breaks this rule of a duty. `admitted`: whether the model permits it.
    fn permits(self, broken: Rule, admitted: Result<(), Rule>) -> Result<(), Rule> {
        admitted?;
        if self.forgives { Ok(()) } else { Err(broken) }
    }

    // The rule of a duty that a step breaks, if that is forgiven. None: it breaks none.
    fn judge<S: ModelStep>(
        self,
        world: &World,
        beside: &Beside,
        step: &S,
        sight: Sight<'_>,
    ) -> Result<Option<Rule>, Rule>
        requires steps { world.now.steps < most_steps }
        requires small { S.is_small step.now }
    {
        let (header, moment) = (world.header(), self.moment);
        if let Some(refused) = beside.flights.refusal(header, moment, sight.seen) {
            return Err(earlier(step.admits(world, moment), refused));
        }
        let broken = self.broken(world, &beside.duties, sight);
        if let Some(rule) = broken {
            self.permits(rule, step.admits(world, moment))?;
        }
        Ok(broken)
    }

    // What hosts owe after a step.
    fn note_duties(
        self,
        world: &World,
        duties: &mut Duties,
        seen: &Observation,
        now: &View,
    ) -> Result<(), StepFault> {
        let Some(slack) = self.slack else {
            return Ok(());
        };
        let strict = world.header().version.says_sender();
        duties.note(strict, slack, self.moment, seen, now)?;
        if strict {
            note_waits(world, duties, self.moment, seen)?;
        }
        Ok(())
    }

    // Does a step, of which this is seen.
    fn step<S: ModelStep + Drop>(
        self,
        world: &mut World,
        beside: &mut Beside,
        step: S,
        sight: Sight<'_>,
    ) -> Result<Option<Rule>, StepFault>
        requires steps { world.old.steps < most_steps }
        requires small { S.is_small step }
    {
        let broken = self.judge(world, beside, &step, sight)?;
        step.apply(world, self.moment)?;
        let now = view_in(world, &sight.seen.touched);
        beside
            .flights
            .note(world.header(), self.moment, sight.seen, &now)?;
        self.note_duties(world, &mut beside.duties, sight.shown, &now)?;
        Ok(broken)
    }

    /// Does a step that takes a line. The result is the rule of a duty that it breaks, if that is forgiven. A step that
    /// breaks a rule isn't done; a rule of the model comes first.
    pub(crate) fn line(
        self,
        world: &mut World,
        beside: &mut Beside,
        line: TakenLine,
    ) -> Result<Option<Rule>, StepFault>
        requires { world.old.steps < most_steps }
    {
        let seen = observe_line(world, self.moment, &line);
        let untrue = untrue_at(world, &beside.flights, &line, &seen);
        self.step(world, beside, line, plain(&seen, untrue))
    }

    /// Does a step that takes none, in the same way.
    pub(crate) fn hidden(
        self,
        world: &mut World,
        beside: &mut Beside,
        step: Hidden<'_>,
    ) -> Result<Option<Rule>, StepFault>
        requires steps { world.old.steps < most_steps }
        requires small { IsSmall step }
    {
        let seen = observe_hidden(world, self.moment, &step);
        if seen.dropping.is_none() {
            return self.step(world, beside, step, plain(&seen, None));
        }
        let shown = beside.flights.excused(world.header(), &seen);
        let sight = Sight {
            shown: &shown,
            ..plain(&seen, None)
        };
        self.step(world, beside, step, sight)
    }
}

// The rule with the lower number that a step breaks, of this one and of the model's.
fn earlier(admitted: Result<(), Rule>, refused: Rule) -> Rule {
    match admitted {
        Err(rule) if rule.number() < refused.number() => rule,
        Ok(()) | Err(_) => refused,
    }
}
