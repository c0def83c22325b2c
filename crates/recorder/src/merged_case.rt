//! The recordings of two hosts, merged.

ghost use Rattle.std.specs.Prelude.{◌≡◌, ◌≤◌, ◌+◌, false, IfOk, IfErr, None};
ghost use Rattle.case_forms.specs.declared.calls.Host.TheVariants.{Zero, One};
ghost use Rattle.case_forms.specs.Traces.{first_event_line};
ghost use Rattle.case_forms.specs.Versions.{is_half};
ghost use Rattle.spec_tcp.specs.Machine.{tcp};
ghost use Rattle.spec_merge.specs.Keys.{Books};
ghost use Rattle.spec_merge.specs.Recordings.{merged};
ghost use Rattle.spec_flights.specs.Flights.{judges};
ghost use Rattle.stack_core.specs.Entries.{steps_in};
ghost use Rattle.stack_core.specs.Told.{AllTold};
ghost use Rattle.witness.specs.Printable.{TellShifts};
ghost use Rattle.checker.specs.Explains.{Explains};
ghost use Rattle.recorder.specs.declared.merged_case.MergeFault.TheVariants.{OutOfMemory};
ghost use Rattle.recorder.specs.Faults.{IfStranger, IsFirstStranger};
ghost use Rattle.recorder.specs.Naming.{AllAbove};
ghost use Rattle.recorder.specs.Numbers.{AllSmall};
ghost use Rattle.recorder.specs.Order.{in_order};
ghost use Rattle.recorder.specs.Saying.{both_renumbered, lines_said, steps_said};
ghost use Rattle.recorder.specs.Told.{AllOwnThreads, Tells};

use crate::arrival_names::first_of_both;
use crate::laws::what_is_told_explains;
use crate::numbers::count_all;
use crate::order::InOrder;
use crate::step_lines::tell_all;
use case_forms::{OutOfMemory, Trace, Witness};
use spec_merge::books_grow;
use stack_core::Recording;
use std::alloc::Global;
use thiserror::Error;

/// The recordings of two hosts, merged.
#[derive(Drop)]
pub struct Recorded {
    pub trace: Trace,
    pub witness: Witness,
}

/// Why two recordings were not merged.
#[derive(Clone, Copy, Debug, PartialEq, Eq, Error)]
pub enum MergeFault {
    /// A segment that arrived at a host is none that the other sent. `arrival_line` is the line of that host's
    /// recording with which it arrived, or would have.
    #[error("a segment of line {arrival_line} is not one that the other host let out")]
    Stranger { arrival_line: u64 },
    /// Memory ran out. No recording is changed.
    #[error("out of memory")]
    OutOfMemory,
}

impl From<OutOfMemory> for MergeFault {
    ghost use Rattle.recorder.specs.declared.merged_case.MergeFault.TheVariants.{OutOfMemory};

    ghost from_gives = { λ _ e. e ≡ OutOfMemory };

    fn from(_: OutOfMemory) -> MergeFault {
        MergeFault::OutOfMemory
    }
}

// The trace and the witness of both hosts' entries.
#[tactic(auto, using(crate::proofs::JoinLemmas::steps_merged))]
fn tell(alloc: Global, zero: &Recording, one: &Recording) -> Result<Recorded, OutOfMemory>
    requires few { steps_in zero.now.entries + steps_in one.now.entries ≤ 100000000 }
    requires small { AllSmall (in_order zero.now.entries one.now.entries) }
    ensures header { IfOk result (λ r. r.trace.header ≡ zero.now.header) }
    ensures version { IfOk result (λ r. r.witness.version ≡ zero.now.header.version) }
    ensures lines { IfOk result (λ r. r.trace.lines
        ≡ lines_said (both_renumbered (first_event_line zero.now.header) zero.now.entries one.now.entries)) }
    ensures steps { IfOk result (λ r. r.witness.steps
        ≡ steps_said (both_renumbered (first_event_line zero.now.header) zero.now.entries one.now.entries)) }
{
    let header = *zero.header();
    let first = header.first_event_line() as u32;
    let counts = count_all(alloc, first, InOrder::new(zero.entries(), one.entries()))?;
    let (lines, steps) = tell_all(alloc, &counts, InOrder::new(zero.entries(), one.entries()))?;
    Ok(Recorded {
        trace: Trace { header, lines },
        witness: Witness {
            version: header.version,
            steps,
        },
    })
}

/// The recordings of host 0 and of host 1 in a whole case, merged in the order of their keys, with lines and made
/// segments renumbered. The case has no slack and is of version 1 to 5: neither duties, nor which data goes again, nor
/// probes for a loss are judged. Two matching books are merged unless memory runs out.
pub fn merge_recordings(
    alloc: Global,
    zero: &Recording,
    one: &Recording,
) -> Result<Recorded, MergeFault>
    requires hosts { (zero.now.me ≡ Zero) × (one.now.me ≡ One) }
    requires headers { zero.now.header ≡ one.now.header }
    requires whole { is_half zero.now.header.version ≡ false }
    requires slack { zero.now.header.slack ≡ None }
    requires judged { judges zero.now.header ≡ false }
    requires few { steps_in zero.now.entries + steps_in one.now.entries ≤ 100000000 }
    requires above { AllAbove zero.now.entries × AllAbove one.now.entries }
    ensures header { IfOk result (λ r. r.trace.header ≡ zero.now.header) }
    ensures told { IfOk result (λ r.
        Tells r.trace r.witness (merged zero.now.header
        (first_event_line zero.now.header) zero.now.entries one.now.entries)) }
    ensures threads { IfOk result (λ r. AllOwnThreads r.trace.lines) }
    ensures shifts { AllTold zero.now.header.version zero.now.entries → AllTold one.now.header.version one.now.entries
        → IfOk result (λ r. TellShifts r.witness.version r.witness.steps) }
    ensures explains { IfOk result (λ r. Explains r.trace r.witness) }
    ensures stranger { IfErr result (λ f. IfStranger f (IsFirstStranger zero.now one.now)) }
    ensures beside { Books (tcp zero.now.header) (first_event_line zero.now.header) zero.now.entries one.now.entries →
        IfErr result (λ f. f ≡ OutOfMemory) }
{
    zero.is_recording();
    one.is_recording();
    books_grow();
    what_is_told_explains();
    if let Some(arrival_line) = first_of_both(alloc, zero, one)? {
        return Err(MergeFault::Stranger { arrival_line });
    }
    let recorded = tell(alloc, zero, one)?;
    Ok(recorded)
}
