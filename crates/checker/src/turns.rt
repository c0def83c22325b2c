//! The turns of the loop that replays a witness, one for each step.

ghost use Rattle.std.specs.Prelude.{◌≡◌, ◌≢◌, ◌<◌, ◌≤◌, ◌+◌, ◌^◌, List, Err, IfOk, IfErr, IfSome, OnOk, None, Some};
ghost use Rattle.std.specs.Prelude.{Option, Result};
ghost use Rattle.case_forms.specs.declared.trace.Header.{Header};
ghost use Rattle.case_forms.specs.declared.trace.Line.{Line};
ghost use Rattle.case_forms.specs.declared.steps.Step.{Step};
ghost use Rattle.case_forms.specs.Witnesses.{IsWithinLimits};
ghost use Rattle.counted.specs.Counting.{failures_of, one_more};
ghost use Rattle.line_fields.specs.declared.fault.TextFault.{TextFault};
ghost use Rattle.line_fields.specs.Left.{FailsLeft, Yields};
ghost use Rattle.spec_step.specs.Faults.{IfBroken};
ghost use Rattle.spec_tcp.specs.Bounds.{most_steps};
ghost use Rattle.checker.specs.Ahead.{source_ahead, line_ahead, left_ahead, IsAhead, IsInStep, TraceFails};
ghost use Rattle.checker.specs.Streaming.{OneFailed, CaseFails, IsDone, IsRefused, SoFar, Tells};
ghost use Rattle.checker.specs.Turns.{AfterStep, IsBroken, counted_with};
ghost use Rattle.checker.specs.Verdicts.{line_named};

use crate::ahead::Ahead;
use crate::case::{CaseFault, witness_fault};
use crate::offering::{offer_reached, refuse_late};
use crate::replay::{line_named, replay};
use crate::steps::StepSource;
use case_forms::{Label, NamedLine, Step};
use endpoint_state::StepFault;
use interval_order::Window;
use line_fields::{SourceFault, step_line};
use std::alloc::Global;
use std::io::BufRead;
use verdict::{Rule, Verdict};
use watched::Case;

/// How many steps were done.
#[derive(Clone, Copy)]
pub(crate) struct StepCounts {
    /// Those that take a line.
    pub(crate) lines: u64,
    /// Those that are hidden.
    pub(crate) hidden: u64,
}

impl StepCounts {
    /// With one step more.
    pub(crate) fn with(self, takes_line: bool) -> StepCounts
        requires lines { self.lines + 1 < 2 ^ 64 }
        requires hidden { self.hidden + 1 < 2 ^ 64 }
        ensures { result ≡ counted_with self takes_line }
    {
        if takes_line {
            StepCounts {
                lines: self.lines + 1,
                hidden: self.hidden,
            }
        } else {
            StepCounts {
                lines: self.lines,
                hidden: self.hidden + 1,
            }
        }
    }
}

// The fault of a case whose witness has this one: a fault of the trace, which comes first, else this one.
#[inline(never)]
fn late_fault<A: BufRead>(lines: &mut Ahead<A>, fault: SourceFault) -> CaseFault
    requires { IsAhead lines.old }
    ensures fault { (left : Option (Result (List Step) TextFault))
        → ((e : TextFault) → fault ≡ SourceFault.Text e → FailsLeft e left)
        → CaseFails result (left_ahead A.remaining lines.old) left }
    ensures read { fault ≢ SourceFault.Read → result ≡ CaseFault.Read
        → failures_of (source_ahead lines.new) ≡ one_more (failures_of (source_ahead lines.old)) }
    ensures told { fault ≡ SourceFault.Read → (result ≡ CaseFault.Read) × (lines.new ≡ lines.old) }
    ensures same { result ≢ CaseFault.Read
        → failures_of (source_ahead lines.new) ≡ failures_of (source_ahead lines.old) }
{
    match fault {
        SourceFault::Text(fault) => match lines.drain() {
            Ok(_) => witness_fault(fault),
            Err(earlier) => earlier,
        },
        SourceFault::Read => CaseFault::Read,
    }
}

/// Reads the next step of the witness into the item, or `None` at its end. A fault of the trace comes before one of the
/// witness.
pub(crate) fn read_step<A: BufRead, S: StepSource>(
    lines: &mut Ahead<A>,
    steps: &mut S,
    item: &mut Option<Step>,
) -> Result<(), CaseFault>
    requires ahead { IsAhead lines.old }
    requires working { S.is_working steps.old }
    ensures next { OnOk result (Yields (S.left steps.old) (S.left steps.new) item.new) }
    ensures place { OnOk result (IfSome item.new (λ step. IsWithinLimits step.label
        × (S.room steps.old ≡ S.room steps.new + 1))) }
    ensures working { OnOk result (S.is_working steps.new) }
    ensures unread { OnOk result (lines.new ≡ lines.old) }
    ensures fault { IfErr result (λ e. CaseFails e (left_ahead A.remaining lines.old) (S.left steps.old)) }
    ensures read { result ≡ Err CaseFault.Read →
        OneFailed (failures_of (source_ahead lines.old)) (S.failures steps.old)
        (failures_of (source_ahead lines.new)) (S.failures steps.new) }
    ensures same_lines { result ≢ Err CaseFault.Read
        → failures_of (source_ahead lines.new) ≡ failures_of (source_ahead lines.old) }
    ensures same_steps { result ≢ Err CaseFault.Read → S.failures steps.new ≡ S.failures steps.old }
{
    match steps.next_step(item) {
        Ok(()) => Ok(()),
        Err(fault) => Err(late_fault(lines, fault)),
    }
}

// Does a step, whose inner result is that of `replay`. Every line whose moment is reached was offered. If the step
// takes another line, the trace is read on; the outer error is a fault of the trace.
#[inline(always)]
fn judge_step<A: BufRead>(
    alloc: Global,
    window: &mut Window,
    world: &mut Case,
    lines: &mut Ahead<A>,
    step: &Step,
) -> Result<Result<(), StepFault>, CaseFault>
    requires ahead { IsAhead lines.old }
    requires in_step { IsInStep window.old (line_ahead lines.old) }
    requires late { IfSome (line_ahead lines.old) (λ line. step.now.moment < line.moment) }
    requires few { world.old.steps < most_steps }
    requires label { IsWithinLimits step.now.label }
    ensures ahead { IfOk result (λ r. IsAhead lines.new) }
    ensures done { IfOk result (λ r. OnOk r (IsDone window.old window.new world.old world.new step.now
        × (lines.new ≡ lines.old))) }
    ensures refused { IfOk result (λ r. IfErr r (λ fault. IfBroken fault
        (IsRefused window.old world.old step.now (left_ahead A.remaining lines.old)
        (left_ahead A.remaining lines.new)))) }
    ensures fault { IfErr result (λ e. TraceFails e (left_ahead A.remaining lines.old)) }
    ensures read { result ≡ Err CaseFault.Read
        → failures_of (source_ahead lines.new) ≡ one_more (failures_of (source_ahead lines.old)) }
    ensures same { result ≢ Err CaseFault.Read
        → failures_of (source_ahead lines.new) ≡ failures_of (source_ahead lines.old) }
{
    if let Label::L(named) = &step.label {
        if named.number >= window.next_number() {
            let extras = named.extras.count();
            let rule = refuse_late(alloc, window, lines, named.number, extras, step.moment)?;
            return Ok(Err(StepFault::Broken(rule)));
        }
    }
    Ok(replay(window, world, step))
}

/// Offers the lines that are reached, and does the step, in the same way.
pub(crate) fn replay_next<A: BufRead>(
    alloc: Global,
    window: &mut Window,
    world: &mut Case,
    lines: &mut Ahead<A>,
    step: &Step,
) -> Result<Result<(), StepFault>, CaseFault>
    requires ahead { IsAhead lines.old }
    requires in_step { IsInStep window.old (line_ahead lines.old) }
    requires few { world.old.steps < most_steps }
    requires label { IsWithinLimits step.now.label }
    ensures ahead { IfOk result (λ r. IsAhead lines.new) }
    ensures in_step { IfOk result (λ r. OnOk r (IsInStep window.new (line_ahead lines.new))) }
    ensures steps { IfOk result (λ r. OnOk r (world.new.steps ≤ world.old.steps + 1)) }
    ensures after { (header : Header) (t : Option (Result (List Line) TextFault))
        (s ahead next : Option (Result (List Step) TextFault)) (offered : List Line) (earlier : List Step)
        → SoFar header t (left_ahead A.remaining lines.old) s ahead window.old world.old offered earlier
        → Yields ahead next (Some step.now)
        → IfOk result (AfterStep header t (left_ahead A.remaining lines.new) s next window.new world.new offered earlier
        step.now) }
    ensures fault { IfErr result (λ e. TraceFails e (left_ahead A.remaining lines.old)) }
    ensures read { result ≡ Err CaseFault.Read
        → failures_of (source_ahead lines.new) ≡ one_more (failures_of (source_ahead lines.old)) }
    ensures same { result ≢ Err CaseFault.Read
        → failures_of (source_ahead lines.new) ≡ failures_of (source_ahead lines.old) }
{
    offer_reached(window, lines, step.moment)?;
    judge_step(alloc, window, world, lines, step)
}

/// The verdict if a step with this label, after so many others, breaks this rule; a fault of what remains of the texts
/// comes before it.
#[inline(never)]
pub(crate) fn refuse<A: BufRead, S: StepSource>(
    lines: &mut Ahead<A>,
    steps: &mut S,
    place: u64,
    label: &Label<NamedLine>,
    rule: Rule,
) -> Result<Verdict, CaseFault>
    requires ahead { IsAhead lines.old }
    requires working { S.is_working steps.old }
    requires few { place ≤ 10000000 }
    ensures tells { (header : Header) (t : Option (Result (List Line) TextFault))
        (s : Option (Result (List Step) TextFault))
        → IsBroken header t (left_ahead A.remaining lines.old) s (S.left steps.old) place (line_named label.now) rule
        → Tells header t s result }
    ensures read { result ≡ Err CaseFault.Read →
        OneFailed (failures_of (source_ahead lines.old)) (S.failures steps.old)
        (failures_of (source_ahead lines.new)) (S.failures steps.new) }
    ensures same_lines { result ≢ Err CaseFault.Read
        → failures_of (source_ahead lines.new) ≡ failures_of (source_ahead lines.old) }
    ensures same_steps { result ≢ Err CaseFault.Read → S.failures steps.new ≡ S.failures steps.old }
{
    lines.drain()?;
    steps.drain()?;
    Ok(Verdict::No {
        witness_line: step_line(place),
        trace_line: line_named(label),
        rule,
    })
}
