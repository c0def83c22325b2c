//! A step that takes a line.

ghost use Rattle.std.specs.Prelude.{◌≡◌, ◌<◌, None, Some, Err, IfErr, OnOk, OnErr};
ghost use Rattle.std.specs.Result.{result_err};
ghost use Rattle.spec_tcp.specs.Bounds.{most_steps};
ghost use Rattle.spec_tcp.specs.Steps.{line_step};
ghost use Rattle.endpoint_state.specs.Worlds.{after};
ghost use Rattle.verdict.specs.Rules.{first_broken};
ghost use Rattle.spec_step.specs.Asked.{asked_after, asked_rules, broken_by, step_taking};
ghost use Rattle.spec_step.specs.Faults.{IfBroken};

use crate::step::ModelStep;
use case_forms::{Event, Extras, Line, TakenLine};
use endpoint_state::{StepFault, World};
use verdict::Rule;

impl ModelStep for TakenLine {
    ghost step = { line_step };

    ghost is_small = { λ line. Unit {0} };

    fn admits(&self, world: &World, moment: u64) -> Result<(), Rule> {
        match self {
            TakenLine::CallBegin { thread, .. } => world.admits_begin(*thread),
            TakenLine::CallEnd { thread, answer, .. } => world.admits_finish(*thread, answer),
            TakenLine::Sent {
                host,
                made,
                wire,
                ..
            } => world.admits_sending(*host, *made, wire),
            TakenLine::Came {
                host,
                copied,
                wire,
                ..
            } => world.admits_arrival(*host, moment, *copied, wire),
            TakenLine::Heard { .. } => world.admits_hearing(),
            TakenLine::Expired {
                host,
                ports,
                expired,
                ..
            } => world.admits_expiry(*host, moment, *ports, *expired),
        }
    }

    // Nothing is copied: the world keeps the segment or the call of the line.
    #[tactic(auto, using(crate::proofs::FaultLemmas::admitted, crate::proofs::FaultLemmas::broken, crate::proofs::FaultLemmas::memory))]
    fn apply(self, world: &mut World, moment: u64) -> Result<(), StepFault> {
        match self {
            TakenLine::CallBegin { thread, call, .. } => world.begin(thread, call),
            TakenLine::CallEnd { thread, answer, .. } => world.finish(thread, &answer),
            TakenLine::Sent {
                line,
                host,
                made,
                wire,
            } => world.send(host, line, made, wire, moment),
            TakenLine::Came {
                line,
                host,
                copied,
                wire,
            } => world.arrive(host, line, copied, wire, moment),
            TakenLine::Heard { line, host, wire } => world.hear(host, line, &wire, moment),
            TakenLine::Expired {
                host,
                ports,
                expired,
                ..
            } => {
                world.expire(host, ports, expired, moment)?;
                Ok(())
            }
        }
    }
}

/// Does a step that takes this line of a trace with these extra numbers, like its `TakenLine`. If a line of its kind
/// needs another count of them, it does nothing. Most kinds are done without a `TakenLine`, which would be one more
/// copy.
#[tactic(auto, using(crate::proofs::FaultLemmas::admitted, crate::proofs::FaultLemmas::broken, crate::proofs::FaultLemmas::memory))]
#[inline(always)]
pub fn take_line(
    world: &mut World,
    moment: u64,
    line: Line,
    extras: Extras,
) -> Result<(), StepFault>
    requires { world.old.steps < most_steps }
    ensures ok { OnOk result (world.new ≡ asked_after world.old moment (step_taking extras line)) }
    ensures admitted { OnOk result (first_broken (asked_rules world.old moment (step_taking extras line)) ≡ None) }
    ensures broken { IfErr result (λ fault. IfBroken fault
        (λ rule. first_broken (asked_rules world.old moment (step_taking extras line)) ≡ Some rule)) }
    ensures memory { result ≡ Err StepFault.OutOfMemory
        → first_broken (asked_rules world.old moment (step_taking extras line)) ≡ None }
    ensures err { OnErr result (world.new ≡ world.old) }
{
    match (line.event, extras) {
        (Event::CallBegin(call), Extras::Bare) => world.begin(line.thread, call),
        (Event::CallEnd(answer), Extras::Bare) => world.finish(line.thread, &answer),
        (Event::Sent(host, wire), Extras::One(made)) => {
            world.send(host, line.number, made, wire, moment)
        }
        (Event::Came(host, wire), Extras::One(copied)) => {
            world.arrive(host, line.number, u64::from(copied), wire, moment)
        }
        (Event::Came(host, wire), Extras::Bare) => world.hear(host, line.number, &wire, moment),
        (event, extras) => take_other(
            world,
            moment,
            Line {
                number: line.number,
                moment: line.moment,
                thread: line.thread,
                event,
                span: line.span,
            },
            extras,
        ),
    }
}

// The same for a line of any kind. It isn't inlined, since few lines need it.
#[inline(never)]
fn take_other(world: &mut World, moment: u64, line: Line, extras: Extras) -> Result<(), StepFault>
    requires { world.old.steps < most_steps }
    ensures ok { OnOk result (world.new ≡ asked_after world.old moment (step_taking extras line)) }
    ensures admitted { OnOk result (first_broken (asked_rules world.old moment (step_taking extras line)) ≡ None) }
    ensures broken { IfErr result (λ fault. IfBroken fault
        (λ rule. first_broken (asked_rules world.old moment (step_taking extras line)) ≡ Some rule)) }
    ensures memory { result ≡ Err StepFault.OutOfMemory
        → first_broken (asked_rules world.old moment (step_taking extras line)) ≡ None }
    ensures err { OnErr result (world.new ≡ world.old) }
{
    match line.taken(extras) {
        Some(taken) => taken.apply(world, moment),
        None => Ok(()),
    }
}
