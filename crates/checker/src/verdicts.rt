//! The verdict on a case whose lines and steps are read while it is judged.
//!
//! Of one text, all lines are kept until they are placed; of two, those that are reached, and one more; of the witness,
//! one step. The world keeps what endpoints have outstanding, and each segment that was made or sent, since later
//! steps may name it.

ghost use Rattle.std.specs.Prelude.{◌≡◌, ◌≢◌, ◌≤◌, ◌<◌, List, [], Err, IfSome, None, Option, Result};
ghost use Rattle.case_forms.specs.declared.trace.Header.{Header};
ghost use Rattle.case_forms.specs.declared.trace.Line.{Line};
ghost use Rattle.case_forms.specs.declared.steps.Step.{Step};
ghost use Rattle.case_forms.specs.Traces.{first_event_line};
ghost use Rattle.counted.specs.Counting.{failures_of, one_more};
ghost use Rattle.line_fields.specs.declared.fault.TextFault.{TextFault};
ghost use Rattle.line_fields.specs.Left.{Yields};
ghost use Rattle.spec_cases.specs.Cases.{late_at_end};
ghost use Rattle.spec_tcp.specs.Bounds.{most_steps};
ghost use Rattle.checker.specs.Verdicts.{verdict_left};
ghost use Rattle.checker.specs.Ahead.{source_ahead, line_ahead, left_ahead, IsAhead, IsInStep};
ghost use Rattle.checker.specs.Streaming.{OneFailed, SoFar, Tallied, Tells, first_of_both};

use crate::ahead::Ahead;
use crate::case::CaseFault;
use crate::replay::takes_line;
use crate::steps::StepSource;
use crate::turns::{StepCounts, read_step, refuse, replay_next};
use case_forms::Header;
use endpoint_state::StepFault;
use interval_order::{Window, left_over};
use std::alloc::Global;
use std::io::BufRead;
use verdict::Verdict;
use watched::Case;

/// The verdict on a trace whose header was read and on its witness, before any of its steps was read; or the first
/// fault of both.
pub(crate) fn judge<A: BufRead, S: StepSource>(
    alloc: Global,
    header: &Header,
    lines: &mut Ahead<A>,
    steps: &mut S,
) -> Result<Verdict, CaseFault>
    requires ahead { IsAhead lines.old }
    requires first_line { IfSome (line_ahead lines.old) (λ line. line.number ≡ first_event_line header.now) }
    requires working { S.is_working steps.old }
    requires few { S.room steps.old < 10000000 }
    ensures tells { Tells header.now (left_ahead A.remaining lines.old) (S.left steps.old) result }
    ensures read { result ≡ Err CaseFault.Read →
        OneFailed (failures_of (source_ahead lines.old)) (S.failures steps.old)
        (failures_of (source_ahead lines.new)) (S.failures steps.new) }
    ensures same_lines { result ≢ Err CaseFault.Read
        → failures_of (source_ahead lines.new) ≡ failures_of (source_ahead lines.old) }
    ensures same_steps { result ≢ Err CaseFault.Read → S.failures steps.new ≡ S.failures steps.old }
{
    let mut window = Window::new(alloc, header);
    let mut world = Case::start(alloc, header);
    let verdict = judge_in(alloc, &mut window, &mut world, lines, steps);
    drop(world);
    drop(window);
    verdict
}

/// The same, if the first lines were offered to the window, the others are left, and the world is that before the first
/// step. Each step has one turn, up to the first that is refused.
pub(crate) fn judge_in<A: BufRead, S: StepSource>(
    alloc: Global,
    window: &mut Window,
    world: &mut Case,
    lines: &mut Ahead<A>,
    steps: &mut S,
) -> Result<Verdict, CaseFault>
    requires ahead { IsAhead lines.old }
    requires in_step { IsInStep window.old (line_ahead lines.old) }
    requires working { S.is_working steps.old }
    requires begun { world.old.steps ≡ 0 }
    requires few { S.room steps.old < 10000000 }
    ensures tells { (header : Header) (t : Option (Result (List Line) TextFault))
        (s : Option (Result (List Step) TextFault)) (offered : List Line)
        → SoFar header t (left_ahead A.remaining lines.old) s (S.left steps.old) window.old world.old offered []
        → Tells header t s result }
    ensures read { result ≡ Err CaseFault.Read →
        OneFailed (failures_of (source_ahead lines.old)) (S.failures steps.old)
        (failures_of (source_ahead lines.new)) (S.failures steps.new) }
    ensures same_lines { result ≢ Err CaseFault.Read
        → failures_of (source_ahead lines.new) ≡ failures_of (source_ahead lines.old) }
    ensures same_steps { result ≢ Err CaseFault.Read → S.failures steps.new ≡ S.failures steps.old }
{
    let mut tally = StepCounts {
        lines: 0,
        hidden: 0,
    };
    let mut item = None;
    loop {
        read_step(lines, steps, &mut item)?;
        let Some(step) = &item else {
            return end_of_witness(window, world, lines, tally);
        };
        match replay_next(alloc, window, world, lines, step)? {
            Ok(()) => tally = tally.with(takes_line(&step.label)),
            Err(StepFault::Broken(rule)) => {
                return refuse(lines, steps, tally.lines + tally.hidden, &step.label, rule);
            }
            Err(StepFault::OutOfMemory) => return Err(CaseFault::OutOfMemory),
        }
    }
}

// The verdict if each step is done; a fault of a remaining line comes before it.
fn end_of_witness<A: BufRead>(
    window: &Window,
    world: &Case,
    lines: &mut Ahead<A>,
    tally: StepCounts,
) -> Result<Verdict, CaseFault>
    requires few { world.now.steps ≤ most_steps }
    requires ahead { IsAhead lines.old }
    requires in_step { IsInStep window.now (line_ahead lines.old) }
    ensures tells { (header : Header) (t : Option (Result (List Line) TextFault))
        (s : Option (Result (List Step) TextFault))
        (offered : List Line) (earlier : List Step) (ahead next : Option (Result (List Step) TextFault))
        → SoFar header t (left_ahead A.remaining lines.old) s ahead window.now world.now offered earlier
        → Yields ahead next None
        → Tallied earlier tally.lines tally.hidden
        → Tells header t s result }
    ensures read { result ≡ Err CaseFault.Read
        → failures_of (source_ahead lines.new) ≡ one_more (failures_of (source_ahead lines.old)) }
    ensures same { result ≢ Err CaseFault.Read
        → failures_of (source_ahead lines.new) ≡ failures_of (source_ahead lines.old) }
{
    let left = first_left(window, lines);
    lines.drain()?;
    Ok(match left {
        Some(number) => left_over(number),
        None => at_end(world, window.last_moment(), tally),
    })
}

// The verdict if no line is left over: no if a duty is late by the moment of the last step, else yes.
fn at_end(world: &Case, last: u64, tally: StepCounts) -> Verdict
    requires { world.now.steps ≤ most_steps }
    ensures { (steps : List Step) → Tallied steps tally.lines tally.hidden
        → result ≡ verdict_left [] (late_at_end world.now.header last world.now.world) steps }
{
    match world.late_at_end(last) {
        Some((trace_line, rule)) => Verdict::No {
            witness_line: 0,
            trace_line,
            rule,
        },
        None => Verdict::Yes {
            lines: tally.lines,
            hidden: tally.hidden,
        },
    }
}

// The number of the first line that is not placed, offered or not.
fn first_left<A>(window: &Window, lines: &Ahead<A>) -> Option<u64>
    ensures { result ≡ first_of_both window.now.held (line_ahead lines.now) }
{
    match window.first_left() {
        Some(number) => Some(number),
        None => lines.next_number(),
    }
}
