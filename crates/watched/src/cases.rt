//! The model of a case with its duties.
//! `lib.rt` says why functions here are inlined.

ghost use Rattle.std.specs.Prelude.{◌≡◌, ◌<◌, ◌≤◌, IsTrue, Some, None, OnOk, IfErr};
ghost use Rattle.case_forms.specs.declared.named_line.Extras.{Extras};
ghost use Rattle.verdict.specs.Rules.{first_broken};
ghost use Rattle.spec_step.specs.Acts.{IsSmall, step_hidden};
ghost use Rattle.spec_step.specs.Asked.{step_taking};
ghost use Rattle.spec_step.specs.Faults.{IfBroken};
ghost use Rattle.spec_tcp.specs.Bounds.{most_steps};
ghost use Rattle.spec_cases.specs.Cases.{after, asked_after, asked_rules, broken_by, judged_rules, late_at_end};
ghost use Rattle.spec_cases.specs.Cases.{noted_by, refused_by, with_waits};
ghost use Rattle.spec_cases.specs.Cases.{shown, start, untrue_at};
ghost use Rattle.spec_duties.specs.Observations.{observe};
ghost use Rattle.spec_duties.specs.Observations as views;
ghost use Rattle.spec_duties.specs.Watching.{untrue_rules};
ghost use Rattle.watched.specs.Watched.{IsPlain, case_of, is_bare, known_of, with_refusal};

use crate::calls::observe_effect;
use crate::case_end;
use crate::kept::shows_untrue;
use crate::observations::{
    observe_hidden, observe_line, observe_making, observe_sending, observe_taking, view_in,
};
use crate::waiting::note_waits;
use case_forms::{Event, Extras, Header, Line, OutOfMemory, TakenLine};
use duties::{Duties, judged_slack, rule_of};
use endpoint_state::{StepFault, World};
use flights::Flights;
use spec_duties::{Observation, Untruth, View};
use spec_step::{Hidden, ModelStep};
use std::alloc::Global;
use std::marker::Model;
use verdict::Rule;

/// The world of a case, what is kept of data in flight, and what its hosts owe. Nothing is owed if the header says
/// `slack any`, and nothing is kept of data in flight in versions 1 to 5.
#[derive(Drop)]
pub struct Case {
    world: World,
    flights: Flights,
    duties: Duties,
}

impl Model for Case {
    ghost use Rattle.spec_cases.specs.Cases.{Watched};

    ghost Value = { Watched };

    ghost view = { λ a. record {
      header = a.world.header;
      world = record { model = a.world.world; flights = a.flights; duties = a.duties };
      steps = a.world.steps;
    } };
}

impl Case {
    /// Before the first step.
    pub fn start(alloc: Global, header: &Header) -> Case
        ensures { result ≡ start header.now }
    {
        Case {
            world: World::start(alloc, header),
            flights: Flights::start(alloc),
            duties: Duties::start(alloc),
        }
    }

    /// The header.
    pub fn header(&self) -> &Header
        ensures { result.now ≡ self.now.header }
    {
        self.world.header()
    }

    /// How many steps were done.
    pub fn steps(&self) -> u64
        ensures { result ≡ self.now.steps }
    {
        self.world.steps()
    }

    /// The world of the model.
    pub fn world(&self) -> &World
        ensures world { result.now.world ≡ self.now.world.model }
        ensures header { result.now.header ≡ self.now.header }
        ensures steps { result.now.steps ≡ self.now.steps }
    {
        &self.world
    }

    /// What is kept of data in flight.
    pub fn flights(&self) -> &Flights
        ensures { result.now ≡ self.now.world.flights }
    {
        &self.flights
    }

    /// What its hosts owe.
    pub fn duties(&self) -> &Duties
        ensures { result.now ≡ self.now.world.duties }
    {
        &self.duties
    }

    /// The least rule that a duty breaks at the end, if the last step was at this moment, in microseconds, with its
    /// line: that of a segment that still waits in an inbox, else 0. None: no duty is late.
    pub fn late_at_end(&self, moment: u64) -> Option<(u64, Rule)>
        requires { self.now.steps ≤ most_steps }
        ensures { result ≡ late_at_end self.now.header moment self.now.world }
    {
        match self.world.header().slack {
            Some(slack) => {
                let header = self.world.header();
                case_end::late_at_end(header, slack, moment, &self.duties, &self.world)
            }
            None => None,
        }
    }
}

// Notes what a step does to calls that wait, for the stricter duties.
#[inline(always)]
fn note_waits_if(
    strict: bool,
    world: &World,
    duties: &mut Duties,
    moment: u64,
    seen: &Observation,
) -> Result<(), OutOfMemory>
    ensures { OnOk result (duties.new ≡ with_waits strict moment world.now.world seen.now duties.old) }
{
    if strict {
        note_waits(world, duties, moment, seen)
    } else {
        Ok(())
    }
}

// Whether the line of a segment shows nothing that may not be.
#[inline(always)]
fn admits_truth(untrue: Option<Untruth>) -> Result<(), StepFault>
    ensures ok { OnOk result (first_broken (untrue_rules untrue) ≡ None) }
    ensures broken { IfErr result (λ fault. IfBroken fault
        (λ rule. first_broken (untrue_rules untrue) ≡ Some rule)) }
{
    match untrue {
        Some(untruth) => Err(StepFault::Broken(rule_of(untruth))),
        None => Ok(()),
    }
}

// Judges a step that the model did, and notes it if no duty refuses it; its endpoint is then seen like this.
#[inline(always)]
fn watch(
    world: &World,
    duties: &mut Duties,
    moment: u64,
    untrue: Option<Untruth>,
    seen: &Observation,
    after: &View,
) -> Result<(), StepFault>
    requires { after.now ≡ views.view_in world.now.world seen.now.touched }
    ensures ok { OnOk result
        (duties.new ≡ noted_by world.now.header moment world.now.world seen.now duties.old) }
    ensures admitted { OnOk result
        (first_broken (judged_rules world.now.header moment duties.old untrue seen.now) ≡ None) }
    ensures broken { IfErr result (λ fault. IfBroken fault
        (λ rule. first_broken (judged_rules world.now.header moment duties.old untrue seen.now) ≡ Some rule)) }
{
    let Some(slack) = judged_slack(world.header()) else {
        return admits_truth(untrue);
    };
    duties.admits(world.header(), slack, moment, untrue, seen)?;
    let strict = world.header().version.says_sender();
    duties.note(strict, slack, moment, seen, after)?;
    note_waits_if(strict, world, duties, moment, seen)?;
    Ok(())
}

// The fault of a step of the model, if what is kept of data in flight says that it breaks a rule: that with the lower
// number.
#[inline(always)]
fn with_refusal(done: Result<(), StepFault>, refusal: Option<Rule>) -> Result<(), StepFault>
    ensures { result ≡ with_refusal refusal done }
{
    let Some(refused) = refusal else {
        return done;
    };
    match done {
        Ok(()) => Err(StepFault::Broken(refused)),
        Err(StepFault::OutOfMemory) => Err(StepFault::OutOfMemory),
        Err(StepFault::Broken(rule)) => {
            if rule.number() < refused.number() {
                Err(StepFault::Broken(rule))
            } else {
                Err(StepFault::Broken(refused))
            }
        }
    }
}

// What is known of a step by what is kept of data in flight: the rule that it breaks, what the line of a segment shows
// that may not be, and what duties see of it.
#[derive(Clone, Copy)]
struct Flown<'a> {
    refusal: Option<Rule>,
    untrue: Option<Untruth>,
    shown: &'a Observation,
}

// The same of a step that sends nothing.
#[inline(always)]
fn refused<'a>(refusal: Option<Rule>, shown: &'a Observation) -> Flown<'a>
    ensures { result ≡ record { refusal = refusal; untrue = None; shown = shown.entry } }
{
    Flown {
        refusal,
        untrue: None,
        shown,
    }
}

// Does a step in the world, and for what is kept beside it, which sees this of it. It is inlined for each kind of step,
// so that only what this kind shows is compared.
#[inline(always)]
fn watch_step<S: ModelStep>(
    world: &mut World,
    flights: &mut Flights,
    duties: &mut Duties,
    moment: u64,
    step: S,
    seen: &Observation,
    flown: Flown<'_>,
) -> Result<(), StepFault>
    requires steps { world.old.steps < most_steps }
    requires small { S.is_small step }
    requires seen { seen.now ≡ observe world.old.header moment world.old.world (S.step step) }
    requires refused { flown.refusal
        ≡ refused_by world.old.header moment (known_of world.old flights.old duties.old) (S.step step) }
    requires untrue { flown.untrue
        ≡ untrue_at world.old.header moment (known_of world.old flights.old duties.old) (S.step step) }
    requires shown { flown.shown.now
        ≡ shown world.old.header moment (known_of world.old flights.old duties.old) (S.step step) }
    ensures ok { OnOk result (case_of world.new flights.new duties.new
        ≡ after (case_of world.old flights.old duties.old) moment (S.step step)) }
    ensures admitted { OnOk result
        (broken_by (case_of world.old flights.old duties.old) moment (S.step step) ≡ None) }
    ensures broken { IfErr result (λ fault. IfBroken fault
        (λ rule. broken_by (case_of world.old flights.old duties.old) moment (S.step step) ≡ Some rule)) }
{
    match with_refusal(step.apply(world, moment), flown.refusal) {
        Ok(()) => {
            let after = view_in(world, &seen.touched);
            flights.note(world.header(), moment, seen, &after)?;
            watch(world, duties, moment, flown.untrue, flown.shown, &after)
        }
        Err(fault) => Err(fault),
    }
}

// Whether nothing is kept or judged beside the model, of any step.
#[inline(always)]
fn is_bare(header: &Header) -> bool
    ensures { result ≡ is_bare header.now }
{
    header.slack.is_none() && !header.version.says_sender()
}

// Whether nothing is kept or judged of a step that takes a line: of any, or because a call begins or ends in versions 1
// to 5.
#[tactic(auto, using(crate::proofs::CaseLemmas::begin_is_plain, crate::proofs::CaseLemmas::end_is_plain))]
#[inline(always)]
fn is_plain(header: &Header, line: &Line) -> bool
    ensures { IsTrue result → (extras : Extras) → IsPlain header.now (step_taking extras line.now) }
{
    if header.version.says_sender() {
        return false;
    }
    if header.slack.is_none() {
        return true;
    }
    match &line.event {
        Event::CallBegin(_) | Event::CallEnd(_) => true,
        Event::Sent(_, _) | Event::Came(_, _) | Event::Expired(_, _, _, _) => false,
    }
}

// Does a step that takes this line with these extra numbers, and judges it. It isn't inlined, so that a step that isn't
// judged has none of its cost.
#[inline(never)]
fn judge_line(
    world: &mut World,
    flights: &mut Flights,
    duties: &mut Duties,
    moment: u64,
    line: Line,
    extras: Extras,
) -> Result<(), StepFault>
    requires { world.old.steps < most_steps }
    ensures ok { OnOk result (case_of world.new flights.new duties.new
        ≡ asked_after (case_of world.old flights.old duties.old) moment (step_taking extras line)) }
    ensures admitted { OnOk result (first_broken
        (asked_rules (case_of world.old flights.old duties.old) moment (step_taking extras line)) ≡ None) }
    ensures broken { IfErr result (λ fault. IfBroken fault (λ rule. first_broken
        (asked_rules (case_of world.old flights.old duties.old) moment (step_taking extras line)) ≡ Some rule)) }
{
    let Some(taken) = line.taken(extras) else {
        return Ok(());
    };
    match &taken {
        TakenLine::Sent {
            host,
            made,
            wire,
            ..
        } => {
            let seen = observe_sending(world, *host, *made, wire);
            let untrue = shows_untrue(world, flights, *host, *made, wire, &seen);
            let flown = Flown {
                refusal: None,
                untrue,
                shown: &seen,
            };
            watch_step(world, flights, duties, moment, taken, &seen, flown)
        }
        TakenLine::Expired { .. } => {
            let seen = observe_line(world, moment, &taken);
            let refusal = flights.refusal(world.header(), moment, &seen);
            watch_step(
                world,
                flights,
                duties,
                moment,
                taken,
                &seen,
                refused(refusal, &seen),
            )
        }
        TakenLine::CallBegin { .. }
        | TakenLine::CallEnd { .. }
        | TakenLine::Came { .. }
        | TakenLine::Heard { .. } => {
            let seen = observe_line(world, moment, &taken);
            watch_step(
                world,
                flights,
                duties,
                moment,
                taken,
                &seen,
                refused(None, &seen),
            )
        }
    }
}

// The same for a step that takes no line.
#[inline(never)]
fn judge_hidden(
    world: &mut World,
    flights: &mut Flights,
    duties: &mut Duties,
    moment: u64,
    step: &Hidden<'_>,
) -> Result<(), StepFault>
    requires steps { world.old.steps < most_steps }
    requires small { IsSmall step.now }
    ensures ok { OnOk result (case_of world.new flights.new duties.new
        ≡ after (case_of world.old flights.old duties.old) moment (step_hidden step.now)) }
    ensures admitted { OnOk result
        (broken_by (case_of world.old flights.old duties.old) moment (step_hidden step.now) ≡ None) }
    ensures broken { IfErr result (λ fault. IfBroken fault
        (λ rule. broken_by (case_of world.old flights.old duties.old) moment (step_hidden step.now) ≡ Some rule)) }
{
    match *step {
        Hidden::Effect { thread, answer } => {
            let seen = observe_effect(world, moment, thread, answer);
            watch_step(
                world,
                flights,
                duties,
                moment,
                *step,
                &seen,
                refused(None, &seen),
            )
        }
        Hidden::Build { host, plan } => {
            let seen = observe_making(world, host, plan, moment);
            let refusal = flights.refusal(world.header(), moment, &seen);
            watch_step(
                world,
                flights,
                duties,
                moment,
                *step,
                &seen,
                refused(refusal, &seen),
            )
        }
        Hidden::Process { host, line, choice } => {
            let seen = observe_taking(world, host, line, choice, moment);
            watch_step(
                world,
                flights,
                duties,
                moment,
                *step,
                &seen,
                refused(None, &seen),
            )
        }
        Hidden::Recover { .. } => {
            let seen = observe_hidden(world, moment, step);
            let refusal = flights.refusal(world.header(), moment, &seen);
            watch_step(
                world,
                flights,
                duties,
                moment,
                *step,
                &seen,
                refused(refusal, &seen),
            )
        }
        Hidden::Drop { .. } => {
            let seen = observe_hidden(world, moment, step);
            let shown = flights.excused(world.header(), &seen);
            watch_step(
                world,
                flights,
                duties,
                moment,
                *step,
                &seen,
                refused(None, &shown),
            )
        }
        Hidden::Reset { .. } => {
            let seen = observe_hidden(world, moment, step);
            watch_step(
                world,
                flights,
                duties,
                moment,
                *step,
                &seen,
                refused(None, &seen),
            )
        }
    }
}

/// Does a step that takes this line of the trace with these extra numbers, at a moment in microseconds. If a line of
/// its kind needs another count of them, it does nothing. The error is the least rule that it breaks, of the model, of
/// what is kept of data in flight or of a duty, or that memory ran out; the case is of no use then.
#[inline(always)]
pub fn take_line(case: &mut Case, moment: u64, line: Line, extras: Extras) -> Result<(), StepFault>
    requires { case.old.steps < most_steps }
    ensures ok { OnOk result (case.new ≡ asked_after case.old moment (step_taking extras line)) }
    ensures admitted { OnOk result (first_broken (asked_rules case.old moment (step_taking extras line)) ≡ None) }
    ensures broken { IfErr result (λ fault. IfBroken fault
        (λ rule. first_broken (asked_rules case.old moment (step_taking extras line)) ≡ Some rule)) }
{
    if is_plain(case.world.header(), &line) {
        spec_step::take_line(&mut case.world, moment, line, extras)
    } else {
        let (world, flights, duties) = (&mut case.world, &mut case.flights, &mut case.duties);
        judge_line(world, flights, duties, moment, line, extras)
    }
}

/// Does a step that takes no line, in the same way.
pub fn apply_hidden(case: &mut Case, moment: u64, step: &Hidden<'_>) -> Result<(), StepFault>
    requires steps { case.old.steps < most_steps }
    requires small { IsSmall step.now }
    ensures ok { OnOk result (case.new ≡ after case.old moment (step_hidden step.now)) }
    ensures admitted { OnOk result (broken_by case.old moment (step_hidden step.now) ≡ None) }
    ensures broken { IfErr result (λ fault. IfBroken fault
        (λ rule. broken_by case.old moment (step_hidden step.now) ≡ Some rule)) }
{
    if is_bare(case.world.header()) {
        (*step).apply(&mut case.world, moment)
    } else {
        let (world, flights, duties) = (&mut case.world, &mut case.flights, &mut case.duties);
        judge_hidden(world, flights, duties, moment, step)
    }
}
