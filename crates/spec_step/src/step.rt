//! Any step: whether it breaks a rule, and the world after it.

ghost use Rattle.std.specs.Prelude.{◌≡◌, ◌<◌, None, Some, Err, IfErr, OnOk, OnErr};
ghost use Rattle.std.specs.Result.{result_err};
ghost use Rattle.case_forms.specs.Witnesses.{IsWithinLimits};
ghost use Rattle.spec_network.specs.Hosts.{Step};
ghost use Rattle.spec_tcp.specs.Bounds.{most_steps};
ghost use Rattle.spec_tcp.specs.Machine.{tcp_shape};
ghost use Rattle.spec_tcp.specs.Steps.{step_of};
ghost use Rattle.endpoint_state.specs.Worlds.{after};
ghost use Rattle.spec_step.specs.Acts.{IsActOf, IsSmallAct};
ghost use Rattle.spec_step.specs.Asked.{broken_by};
ghost use Rattle.spec_step.specs.Faults.{IfBroken};

use crate::hidden::Hidden;
use case_forms::{TakenLine, Takes};
use endpoint_state::{StepFault, World};
use verdict::Rule;

/// What a step does: a label of a witness that has the line it takes instead of that line's number.
pub type Label = case_forms::Label<TakenLine>;

/// What a label does.
pub enum Act<'a, Taken> {
    /// It takes this line.
    Line(&'a Taken),
    /// It takes none.
    Hidden(Hidden<'a>),
}

/// What a label does. Every step whose label isn't an `L` is a hidden one.
#[inline(always)]
pub fn act_of<Taken>(label: &case_forms::Label<Taken>) -> Act<'_, Taken>
    ensures act { IsActOf label.now result }
    ensures small { IsWithinLimits label.now → IsSmallAct result }
{
    match label {
        case_forms::Label::L(taken) => Act::Line(taken),
        case_forms::Label::D { thread, answer } => Act::Hidden(Hidden::Effect {
            thread: *thread,
            answer,
        }),
        case_forms::Label::M { host, plan } => Act::Hidden(Hidden::Build { host: *host, plan }),
        case_forms::Label::T { host, line, choice } => Act::Hidden(Hidden::Process {
            host: *host,
            line: *line,
            choice: *choice,
        }),
        case_forms::Label::K { host, line } => Act::Hidden(Hidden::Drop {
            host: *host,
            line: *line,
        }),
        case_forms::Label::R { host, line } => Act::Hidden(Hidden::Reset {
            host: *host,
            line: *line,
        }),
        case_forms::Label::F { host, recovery } => Act::Hidden(Hidden::Recover {
            host: *host,
            recovery: *recovery,
        }),
    }
}

/// A step of the model: that of a line, or a hidden one.
pub trait ModelStep {
    /// The step as the model does it.
    ghost step: { Self → Step tcp_shape };

    /// What its numbers keep to.
    ghost is_small: { Self → Type 0 };

    /// Whether the model permits it at a moment, in microseconds. The error is the least rule that it breaks.
    fn admits(&self, world: &World, moment: u64) -> Result<(), Rule>
        requires steps { world.now.steps < most_steps }
        requires small { is_small self.now }
        ensures { result_err result ≡ broken_by world.now moment (step self.now) };

    /// Does it at a moment, in microseconds, if the model permits it. The error is the least rule that it breaks, or,
    /// if it breaks none, that memory ran out; the world is unchanged then.
    fn apply(self, world: &mut World, moment: u64) -> Result<(), StepFault>
        requires steps { world.old.steps < most_steps }
        requires small { is_small self }
        ensures ok { OnOk result (world.new ≡ after world.old moment (step self)) }
        ensures admitted { OnOk result (broken_by world.old moment (step self) ≡ None) }
        ensures broken { IfErr result (λ fault. IfBroken fault (λ rule. broken_by world.old moment (step self)
            ≡ Some rule)) }
        ensures memory { result ≡ Err StepFault.OutOfMemory → broken_by world.old moment (step self) ≡ None }
        ensures err { OnErr result (world.new ≡ world.old) };
}

/// Whether the model permits a step at a moment, in microseconds. The error is the least rule that the step breaks.
pub fn admits(world: &World, moment: u64, label: &Label) -> Result<(), Rule>
    requires steps { world.now.steps < most_steps }
    requires label { IsWithinLimits label.now }
    ensures { result_err result ≡ broken_by world.now moment (step_of label.now) }
{
    match act_of(label) {
        Act::Line(line) => line.admits(world, moment),
        Act::Hidden(hidden) => hidden.admits(world, moment),
    }
}

/// Does a step at a moment, in microseconds, if the model permits it. The error is the least rule that the step breaks,
/// or, if it breaks none, that memory ran out; the world is unchanged then.
pub fn apply(world: &mut World, moment: u64, label: &Label) -> Result<(), StepFault>
    requires steps { world.old.steps < most_steps }
    requires label { IsWithinLimits label.now }
    ensures ok { OnOk result (world.new ≡ after world.old moment (step_of label.now)) }
    ensures admitted { OnOk result (broken_by world.old moment (step_of label.now) ≡ None) }
    ensures broken { IfErr result (λ fault. IfBroken fault (λ rule. broken_by world.old moment (step_of label.now)
        ≡ Some rule)) }
    ensures memory { result ≡ Err StepFault.OutOfMemory → broken_by world.old moment (step_of label.now) ≡ None }
    ensures err { OnErr result (world.new ≡ world.old) }
{
    match act_of(label) {
        Act::Line(line) => {
            // Memory may run out only if no rule is broken.
            line.admits(world, moment)?;
            line.copy()?.apply(world, moment)
        }
        Act::Hidden(hidden) => hidden.apply(world, moment),
    }
}
