//! The books of both hosts, merged.

ghost use Rattle.std.specs.Prelude.{◌≡◌, false, IfOk, IfErr, None};
ghost use Rattle.case_forms.specs.declared.calls.Host.TheVariants.{Zero, One};
ghost use Rattle.case_forms.specs.Traces.{first_event_line};
ghost use Rattle.case_forms.specs.Versions.{is_half};
ghost use Rattle.spec_tcp.specs.Machine.{tcp};
ghost use Rattle.spec_merge.specs.Keys.{Books};
ghost use Rattle.spec_merge.specs.Recordings.{merged};
ghost use Rattle.spec_flights.specs.Flights.{judges};
ghost use Rattle.witness.specs.Printable.{TellShifts};
ghost use Rattle.checker.specs.Explains.{Explains, IsYes};
ghost use Rattle.checker.specs.Verdicts.{verdict};
ghost use Rattle.recorder.specs.declared.merged_case.MergeFault.TheVariants.{OutOfMemory};
ghost use Rattle.recorder.specs.Faults.{IfStranger, IsFirstStranger};
ghost use Rattle.recorder.specs.Told.{AllOwnThreads, Tells};

use crate::host_book::HostBook;
use crate::merged_case::{MergeFault, Recorded, merge_recordings};
use checker::explained_is_yes;
use std::alloc::Global;

/// The finished books of host 0 and of host 1 in a whole case, merged in the order of their keys: a trace and a witness
/// that explains it, so `check` answers yes. The case has no slack and is of version 1 to 5: neither duties, nor which
/// data goes again, nor probes for a loss are judged. The error names the first segment that arrived at a host and that
/// the other didn't send, or says that memory ran out. Two matching books are merged unless memory runs out.
pub fn merge(alloc: Global, zero: HostBook, one: HostBook) -> Result<Recorded, MergeFault>
    requires hosts { (zero.core.recorded.me ≡ Zero) × (one.core.recorded.me ≡ One) }
    requires headers { zero.core.recorded.header ≡ one.core.recorded.header }
    requires whole { is_half zero.core.recorded.header.version ≡ false }
    requires slack { zero.core.recorded.header.slack ≡ None }
    requires judged { judges zero.core.recorded.header ≡ false }
    ensures header { IfOk result (λ r. r.trace.header ≡ zero.core.recorded.header) }
    ensures told { IfOk result (λ r.
        Tells r.trace r.witness (merged zero.core.recorded.header (first_event_line zero.core.recorded.header)
        zero.core.recorded.entries one.core.recorded.entries)) }
    ensures threads { IfOk result (λ r. AllOwnThreads r.trace.lines) }
    ensures shifts { IfOk result (λ r. TellShifts r.witness.version r.witness.steps) }
    ensures explains { IfOk result (λ r. Explains r.trace r.witness) }
    ensures yes { IfOk result (λ r. IsYes (verdict r.trace r.witness)) }
    ensures stranger { IfErr result (λ f. IfStranger f (IsFirstStranger zero.core.recorded one.core.recorded)) }
    ensures beside { Books (tcp zero.core.recorded.header) (first_event_line zero.core.recorded.header)
        zero.core.recorded.entries one.core.recorded.entries → IfErr result (λ f. f ≡ OutOfMemory) }
{
    explained_is_yes();
    zero.few_steps();
    one.few_steps();
    zero.can_be_told();
    one.can_be_told();
    let merged = merge_recordings(alloc, zero.recording(), one.recording());
    drop(zero);
    drop(one);
    merged
}
