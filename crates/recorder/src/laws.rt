//! The trace and the witness written from a run fit each other.

ghost use Rattle.std.specs.Prelude.{◌≡◌, ℕ, List};
ghost use Rattle.case_forms.specs.declared.trace.Trace.{Trace};
ghost use Rattle.case_forms.specs.declared.steps.Witness.{Witness};
ghost use Rattle.case_forms.specs.Traces.{first_event_line};
ghost use Rattle.case_forms.specs.declared.calls.Host.TheVariants.{Zero, One};
ghost use Rattle.case_forms.specs.declared.trace.Header.{Header};
ghost use Rattle.spec_network.specs.Hosts.{Stamped};
ghost use Rattle.spec_network.specs.Tables.{Both};
ghost use Rattle.spec_merge.specs.Keys.{Books};
ghost use Rattle.spec_merge.specs.Placing.{IsPlacedRun, lines_of};
ghost use Rattle.spec_merge.specs.Recordings.{TcpEntry, merged};
ghost use Rattle.spec_tcp.specs.Machine.{tcp, tcp_shape};
ghost use Rattle.checker.specs.Explains.{Explains, IsYes};
ghost use Rattle.checker.specs.Verdicts.{verdict};
ghost use Rattle.stack_core.specs.CoreWorlds.{Event, IsCoreWorld, Side, entries_of};
ghost use Rattle.stack_core.specs.Recordings.{Recorded};
ghost use Rattle.recorder.specs.Faults.{IsFirstStranger};
ghost use Rattle.recorder.specs.Told.{Tells};

use checker::explained_is_yes;
use spec_merge::merged_books_are_a_run;
use stack_core::core_worlds_are_books;

/// If a trace and a witness state the steps of a run that is a placement of the lines these steps take, the witness
/// explains the trace and the verdict is yes. The merged steps of two matching books are such a run.
pub fn what_is_told_explains()
    ensures steps { (t : Trace) (w : Witness) (steps : List (Stamped tcp_shape))
        → IsPlacedRun (tcp t.header) t.header.skew (first_event_line t.header) (lines_of (tcp t.header) steps) steps
        → Tells t w steps → Explains t w }
    ensures books { (t : Trace) (w : Witness) (zeros ones : List TcpEntry)
        → Books (tcp t.header) (first_event_line t.header) zeros ones
        → Tells t w (merged t.header (first_event_line t.header) zeros ones) → Explains t w }
    ensures yes { (t : Trace) (w : Witness) (zeros ones : List TcpEntry)
        → Books (tcp t.header) (first_event_line t.header) zeros ones
        → Tells t w (merged t.header (first_event_line t.header) zeros ones) → IsYes (verdict t w) }
{
    merged_books_are_a_run();
    explained_is_yes();
}

/// In two recordings that are two matching books, each segment that arrived at one host is one that the other sent:
/// there is no stranger.
pub fn books_have_no_stranger()
    ensures { (zero one : Recorded) → (zero.me ≡ Zero) × (one.me ≡ One) → zero.header ≡ one.header
        → Books (tcp zero.header) (first_event_line zero.header) zero.entries one.entries
        → (n : ℕ) → IsFirstStranger zero one n → ⊥ }
{}

/// Two cores have one header, after any events of both, some of which may have run out of memory. Segments that one
/// sent arrive at the other any number of times, in any order, or never. Then their recordings are two matching books
/// without a stranger, so they are merged. A witness explains a trace if the two state the merged steps, so the verdict
/// is yes.
pub fn core_worlds_are_explained()
    ensures books { (h : Header) (events : List Event) (cores : Both Side) → IsCoreWorld h events cores
        → Books (tcp h) (first_event_line h) (entries_of Zero cores) (entries_of One cores) }
    ensures named { (h : Header) (events : List Event) (cores : Both Side) → IsCoreWorld h events cores
        → (n : ℕ) → IsFirstStranger cores.zero.core.recorded cores.one.core.recorded n → ⊥ }
    ensures explained { (h : Header) (events : List Event) (cores : Both Side) → IsCoreWorld h events cores
        → (t : Trace) (w : Witness) → t.header ≡ h
        → Tells t w (merged h (first_event_line h) (entries_of Zero cores) (entries_of One cores)) → Explains t w }
    ensures yes { (h : Header) (events : List Event) (cores : Both Side) → IsCoreWorld h events cores
        → (t : Trace) (w : Witness) → t.header ≡ h
        → Tells t w (merged h (first_event_line h) (entries_of Zero cores) (entries_of One cores))
        → IsYes (verdict t w) }
{
    core_worlds_are_books();
    books_have_no_stranger();
    what_is_told_explains();
}
