//! The steps of a witness, which are read from its text or copied from a list, one by one.

ghost use Rattle.std.specs.Prelude.{◌≡◌, ◌≢◌, ◌≤◌, ◌+◌, ◌-◌, ℕ, List, Option, Result, Err, Ok, IfOk, IfErr};
ghost use Rattle.std.specs.Prelude.{IfSome, OnOk, None, Some, length, true};
ghost use Rattle.std.specs.List.{All};
ghost use Rattle.case_forms.specs.declared.steps.Step.{Step};
ghost use Rattle.case_forms.specs.Witnesses.{IsWithinLimits};
ghost use Rattle.counted.specs.Counting.{one_more};
ghost use Rattle.line_fields.specs.declared.fault.TextFault.{TextFault};
ghost use Rattle.line_fields.specs.Left.{FailsLeft, Yields};
ghost use Rattle.witness.specs.StepsLeft.{steps_left, fault_of, number_of, reader_failures};
ghost use Rattle.checker.specs.Ahead.{Skips, IsAll, WitnessFails};

use crate::case::{CaseFault, witness_fault};
use case_forms::Step;
use line_fields::{FaultKind, SourceFault, TextFault};
use std::io::BufRead;
use witness::StepReader;

/// Where the steps of a witness come from.
pub(crate) trait StepSource {
    /// The steps that are left, or the first fault among them, if they are known.
    ghost left: { Self → Option (Result (List Step) TextFault) };

    /// At least as many as the steps that are left.
    ghost room: { Self → ℕ };

    /// How many reads failed.
    ghost failures: { Self → ℕ };

    /// No fault was met.
    ghost is_working: { Self → Type 0 };

    /// Makes the next step the item, or `None` at the end. After a fault, the item may be anything.
    fn next_step(&mut self, item: &mut Option<Step>) -> Result<(), SourceFault>
        requires { is_working self.old }
        ensures next { OnOk result (Yields (left self.old) (left self.new) item.new) }
        ensures place { OnOk result (IfSome item.new (λ step. IsWithinLimits step.label
            × (room self.old ≡ room self.new + 1))) }
        ensures working { OnOk result (is_working self.new) }
        ensures fault { (e : TextFault) → result ≡ Err (SourceFault.Text e) → FailsLeft e (left self.old) }
        ensures read { result ≡ Err SourceFault.Read → failures self.new ≡ one_more (failures self.old) }
        ensures same { result ≢ Err SourceFault.Read → failures self.new ≡ failures self.old };

    /// Goes on to the end, only for a fault of the steps that are left.
    fn drain(&mut self) -> Result<(), CaseFault>
        requires { is_working self.old }
        ensures all { IfOk result (λ u. (items : List Step) × IsAll (left self.old) items) }
        ensures fault { IfErr result (λ e. WitnessFails e (left self.old)) }
        ensures read { result ≡ Err CaseFault.Read → failures self.new ≡ one_more (failures self.old) }
        ensures same { result ≢ Err CaseFault.Read → failures self.new ≡ failures self.old };
}

impl<B: BufRead> StepSource for StepReader<B> {
    ghost left = { λ r. steps_left B.remaining r };

    ghost room = { λ r. 10000001 - number_of r };

    ghost failures = { λ r. reader_failures r };

    ghost is_working = { λ r. fault_of r ≡ None };

    #[inline(always)]
    fn next_step(&mut self, item: &mut Option<Step>) -> Result<(), SourceFault> {
        self.next_into(item)
    }

    #[inline(always)]
    fn drain(&mut self) -> Result<(), CaseFault> {
        drain_steps(self)
    }
}

/// The steps of a list that are left.
#[derive(Drop)]
pub(crate) struct ListedSteps<'a> {
    pub(crate) steps: &'a [Step],
}

impl<'a> StepSource for ListedSteps<'a> {
    ghost left = { λ l. Some (Ok l.steps.now) };

    ghost room = { λ l. length l.steps.now };

    ghost failures = { λ l. 0 };

    ghost is_working = { λ l. All (λ s. IsWithinLimits s.label) l.steps.now };

    fn next_step(&mut self, item: &mut Option<Step>) -> Result<(), SourceFault> {
        match self.steps.split_first() {
            Some((step, rest)) => {
                *item = Some(copied(step)?);
                self.steps = rest;
            }
            None => *item = None,
        }
        Ok(())
    }

    fn drain(&mut self) -> Result<(), CaseFault> {
        Ok(())
    }
}

// A copy of a step.
fn copied(step: &Step) -> Result<Step, SourceFault>
    ensures ok { IfOk result (λ copy. copy ≡ step.now) }
    ensures err { IfErr result (λ fault. (e : TextFault) × (fault ≡ SourceFault.Text e)
        × (e.kind ≡ FaultKind.OutOfMemory)) }
{
    match step.copy() {
        Ok(copy) => Ok(copy),
        Err(_) => Err(SourceFault::Text(TextFault::out_of_memory())),
    }
}

// Reads on to the end of a witness.
fn drain_steps<B: BufRead>(steps: &mut StepReader<B>) -> Result<(), CaseFault>
    requires { fault_of steps.old ≡ None }
    ensures all { IfOk result (λ u. (items : List Step) × IsAll (steps_left B.remaining steps.old) items) }
    ensures fault { IfErr result (λ e. WitnessFails e (steps_left B.remaining steps.old)) }
    ensures read { result ≡ Err CaseFault.Read → reader_failures steps.new ≡ one_more (reader_failures steps.old) }
    ensures same { result ≢ Err CaseFault.Read → reader_failures steps.new ≡ reader_failures steps.old }
{
    while skip_step(steps)? {}
    Ok(())
}

// Skips a step. False if there is none.
fn skip_step<B: BufRead>(steps: &mut StepReader<B>) -> Result<bool, CaseFault>
    requires { fault_of steps.old ≡ None }
    ensures next { IfOk result (λ more. Skips more (steps_left B.remaining steps.old)
        (steps_left B.remaining steps.new)) }
    ensures working { IfOk result (λ more. fault_of steps.new ≡ None) }
    ensures place { result ≡ Ok true → (number_of steps.new ≡ number_of steps.old + 1)
        × (number_of steps.old ≤ 10000000) }
    ensures fault { IfErr result (λ e. WitnessFails e (steps_left B.remaining steps.old)) }
    ensures read { result ≡ Err CaseFault.Read → reader_failures steps.new ≡ one_more (reader_failures steps.old) }
    ensures same { result ≢ Err CaseFault.Read → reader_failures steps.new ≡ reader_failures steps.old }
{
    match steps.next() {
        Ok(item) => Ok(item.is_some()),
        Err(SourceFault::Text(fault)) => Err(witness_fault(fault)),
        Err(SourceFault::Read) => Err(CaseFault::Read),
    }
}
