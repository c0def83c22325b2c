//! What one step of a witness does to the window and the world.

ghost use Rattle.std.specs.Prelude.{◌≡◌, ◌<◌, ◌++◌, IfErr, OnOk, None, Some};
ghost use Rattle.case_forms.specs.Witnesses.{IsWithinLimits};
ghost use Rattle.interval_order.specs.Orders.{passing, order_after};
ghost use Rattle.interval_order.specs.OrderRules.{order_rules};
ghost use Rattle.verdict.specs.Rules.{first_broken};
ghost use Rattle.spec_tcp.specs.Bounds.{most_steps};
ghost use Rattle.spec_step.specs.Acts.{IsSmall, step_hidden};
ghost use Rattle.spec_step.specs.Faults.{IfBroken};
ghost use Rattle.spec_cases.specs.Cases.{after, case_rules};
ghost use Rattle.checker.specs.Seen.{move_of};
ghost use Rattle.checker.specs.Verdicts.{takes_line, line_named};
ghost use Rattle.checker.specs.Kept.{kept_broken, kept_progress};

use case_forms::{Label, NamedLine, Step};
use endpoint_state::StepFault;
use interval_order::Window;
use spec_step::{Act, Hidden, act_of};
use watched::{Case, apply_hidden, take_line};

/// Does a step. The error is the least rule that it breaks, or that memory ran out.
pub(crate) fn replay(window: &mut Window, world: &mut Case, step: &Step) -> Result<(), StepFault>
    requires steps { world.old.steps < most_steps }
    requires label { IsWithinLimits step.now.label }
    ensures order { OnOk result (window.new ≡ order_after window.old (move_of step.now)) }
    ensures world { OnOk result (world.new ≡ kept_progress window.old world.old step.now) }
    ensures admitted { OnOk result (kept_broken world.old.header window.old world.old.world step.now ≡ None) }
    ensures broken { IfErr result (λ fault. IfBroken fault
        (λ rule. kept_broken world.old.header window.old world.old.world step.now ≡ Some rule)) }
{
    match act_of(&step.label) {
        Act::Line(named) => match window.place(named.number, named.extras.count(), step.moment) {
            Ok(line) => take_line(world, step.moment, line, named.extras),
            Err(rule) => Err(StepFault::Broken(rule)),
        },
        Act::Hidden(hidden) => pass(window, world, step.moment, &hidden),
    }
}

// Does a hidden step in the same way.
fn pass(
    window: &mut Window,
    world: &mut Case,
    moment: u64,
    step: &Hidden<'_>,
) -> Result<(), StepFault>
    requires steps { world.old.steps < most_steps }
    requires small { IsSmall step.now }
    ensures order { OnOk result (window.new ≡ order_after window.old (passing moment)) }
    ensures world { OnOk result (world.new ≡ after world.old moment (step_hidden step.now)) }
    ensures admitted { OnOk result (first_broken (order_rules window.old (passing moment)
        ++ case_rules world.old.header moment world.old.world (step_hidden step.now)) ≡ None) }
    ensures broken { IfErr result (λ fault. IfBroken fault (λ rule. first_broken
        (order_rules window.old (passing moment)
        ++ case_rules world.old.header moment world.old.world (step_hidden step.now)) ≡ Some rule)) }
{
    window.pass(moment)?;
    apply_hidden(world, moment, step)
}

/// Whether a step takes a line; else it is hidden.
pub(crate) fn takes_line(label: &Label<NamedLine>) -> bool
    ensures { result ≡ takes_line label.now }
{
    matches!(label, Label::L(_))
}

/// The line that a label names, 0 for a hidden step.
pub(crate) fn line_named(label: &Label<NamedLine>) -> u64
    ensures { result ≡ line_named label.now }
{
    match label {
        Label::L(named) => named.number,
        Label::D { .. }
        | Label::M { .. }
        | Label::T { .. }
        | Label::K { .. }
        | Label::R { .. }
        | Label::F { .. } => 0,
    }
}
