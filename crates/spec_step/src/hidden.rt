//! Steps that take no line.

ghost use Rattle.std.specs.Prelude.{◌≡◌, ◌<◌, ℕ, None, Some, Err, IfErr, OnOk, OnErr};
ghost use Rattle.std.specs.Result.{result_err};
ghost use Rattle.verdict.specs.Rules.{first_broken};
ghost use Rattle.spec_network.specs.Hosts.{Effect};
ghost use Rattle.spec_tcp.specs.Bounds.{most_steps};
ghost use Rattle.endpoint_state.specs.Faults.{fault_rule};
ghost use Rattle.endpoint_state.specs.Worlds.{after};
ghost use Rattle.spec_step.specs.Acts.{IsSmall, step_hidden};
ghost use Rattle.spec_step.specs.Asked.{broken_by};
ghost use Rattle.spec_step.specs.Faults.{IfBroken};

use crate::step::ModelStep;
use case_forms::{Answer, Host, Recovery, SegmentPlan, TakeChoice};
use endpoint_state::{StepFault, World};
use verdict::Rule;

/// A step that takes no line: what a host does, or a call does to it, between the lines of a trace.
#[derive(Clone, Copy)]
pub enum Hidden<'a> {
    /// The open call of a thread takes effect, with this answer (RFC 9293, 3.10).
    Effect {
        thread: u32,
        answer: &'a Answer,
    },
    /// A host builds this segment (RFC 9293, 3.1).
    Build {
        host: Host,
        plan: &'a SegmentPlan,
    },
    /// A host processes what waits under this line, with this choice (RFC 9293, 3.10.7).
    Process {
        host: Host,
        line: u64,
        choice: TakeChoice,
    },
    /// A host drops what waits under this line.
    Drop {
        host: Host,
        line: u64,
    },
    /// A host answers what waits under this line with a reset (RFC 9293, 3.10.7.1).
    Reset {
        host: Host,
        line: u64,
    },
    /// An endpoint of a host enters fast recovery (RFC 5681, 3.2).
    Recover {
        host: Host,
        recovery: Recovery,
    },
}

impl<'a> ModelStep for Hidden<'a> {
    ghost step = { step_hidden };

    ghost is_small = { IsSmall };

    fn admits(&self, world: &World, moment: u64) -> Result<(), Rule> {
        match self {
            Hidden::Effect { thread, answer } => admits_effect(world, *thread, answer),
            Hidden::Build { host, plan } => world.admits_making(*host, plan),
            Hidden::Process { host, line, choice } => {
                world.admits_taking(*host, moment, *line, *choice)
            }
            Hidden::Drop { host, line } => world.admits_dropping(*host, *line),
            Hidden::Reset { host, line } => world.admits_reset(*host, *line),
            Hidden::Recover { host, recovery } => world.admits_recovery(*host, moment, *recovery),
        }
    }

    #[tactic(auto, using(crate::proofs::FaultLemmas::admitted, crate::proofs::FaultLemmas::broken, crate::proofs::FaultLemmas::memory))]
    #[inline(always)]
    fn apply(self, world: &mut World, moment: u64) -> Result<(), StepFault> {
        match self {
            Hidden::Effect { thread, answer } => have_effect(world, thread, answer),
            Hidden::Build { host, plan } => world.make(host, plan, moment),
            Hidden::Process { host, line, choice } => world.take(host, line, choice, moment),
            Hidden::Drop { host, line } => {
                world.drop_arrival(host, line)?;
                Ok(())
            }
            Hidden::Reset { host, line } => world.reply_with_reset(host, line),
            Hidden::Recover { host, recovery } => {
                world.recover(host, recovery, moment)?;
                Ok(())
            }
        }
    }
}

// Whether a call may have its effect, whose rules read no moment.
#[tactic(auto, using(endpoint_state::proofs::CallLemmas::effect_at_any_moment))]
fn admits_effect(world: &World, thread: u32, answer: &Answer) -> Result<(), Rule>
    ensures { (moment : ℕ) → result_err result ≡ broken_by world.now moment (Effect thread answer.now) }
{
    endpoint_state::admits_effect(world, thread, answer)
}

// A call has its effect, which reads no moment.
#[tactic(auto, using(endpoint_state::proofs::CallLemmas::effect_at_any_moment, endpoint_state::proofs::CallLemmas::after_at_any_moment))]
fn have_effect(world: &mut World, thread: u32, answer: &Answer) -> Result<(), StepFault>
    requires { world.old.steps < most_steps }
    ensures fault { (moment : ℕ) → fault_rule result ≡ broken_by world.old moment (Effect thread answer.now) }
    ensures ok { (moment : ℕ) → OnOk result (world.new ≡ after world.old moment (Effect thread answer.now)) }
    ensures err { OnErr result (world.new ≡ world.old) }
{
    world.effect(thread, answer)
}
