//! What a yes means for every trace and every witness.

ghost use Rattle.std.specs.Prelude.{◌≡◌, ◌<◌, ◌↔◌, ℕ, List, ◌++◌, Option, Some, Ok, length, map, take};
ghost use Rattle.case_forms.specs.declared.trace.Line.{Line};
ghost use Rattle.case_forms.specs.declared.trace.Trace.{Trace};
ghost use Rattle.case_forms.specs.declared.steps.Witness.{Witness};
ghost use Rattle.case_forms.specs.declared.version.Judged.{Judged};
ghost use Rattle.case_forms.specs.Traces.{line_at};
ghost use Rattle.trace_reader.specs.TraceText.{IsTraceText};
ghost use Rattle.trace_reader.specs.Printed.{trace_text};
ghost use Rattle.trace_reader.specs.Printable.{IsPrintableTrace};
ghost use Rattle.witness.specs.WitnessText.{IsWitnessText};
ghost use Rattle.witness.specs.Printed.{witness_text, without_span};
ghost use Rattle.witness.specs.Printable.{IsPrintableWitness};
ghost use Rattle.verdict.specs.declared.report.Verdict.{Verdict};
ghost use Rattle.verdict.specs.declared.report.Verdict.TheVariants.{Yes};
ghost use Rattle.interval_order.specs.Placed.{Precedes, TakesAt};
ghost use Rattle.checker.specs.Seen.{moves};
ghost use Rattle.checker.specs.Cases.{case_result};
ghost use Rattle.checker.specs.Verdicts.{verdict};
ghost use Rattle.checker.specs.Judging.{LessJudgedStaysYes};
ghost use Rattle.checker.specs.Slack.{AnyNamesNoDuty, LessLateStaysYes};
ghost use Rattle.checker.specs.Explains.{Explains, IsYes};
ghost use Rattle.checker.specs.Judges.{Says};
ghost use Rattle.checker.specs.Meaning.{Means};
ghost use Rattle.checker.specs.Peers.{AllPeersAreMet, EachPeerWasMet};
ghost use Rattle.checker.specs.Again.{HaveTwo, without_spans};
ghost use Rattle.checker.specs.Headline.{ReceivesBeginSends};
ghost use Rattle.spec_tcp_laws.specs.Consequences.{ReceivedIsAPrefix, EndIsWhole};
ghost use Rattle.spec_tcp_laws.specs.Carried.{ReadsWereCarried};
ghost use Rattle.checker.specs.Consequences.{steps_of, AreBothRecorded, ReadsBeginWhatWasSent, EndsAreWhole};
ghost use Rattle.checker.specs.Consequences.{AllAcknowledgedWasTaken, AllReadsWereCarried, AllKeepWindows};
ghost use Rattle.checker.specs.Consequences.{AllStatesFollow, NoPositionFalls};

use spec_tcp_laws::{
    acknowledged_was_taken, end_is_whole, new_data_fits, positions_never_fall, profiles_are_named,
    reads_were_carried, received_is_a_prefix, states_follow, windows_follow,
};

/// If a witness explains a trace, a line that precedes another in the interval order is taken first. A line precedes
/// another if both are of one thread and it has the smaller number, or if it is earlier by more than the skew.
pub fn earlier_lines_are_taken_first()
    ensures { (t : Trace) (w : Witness) → Explains t w → (m n i j : ℕ) (a b : Line)
        → line_at t.header t.lines m ≡ Some a →
        line_at t.header t.lines n ≡ Some b → Precedes t.header m a n b → TakesAt (moves w.steps) i m →
        TakesAt (moves w.steps) j n → i < j }
{}

/// The verdict is yes exactly if the witness explains the trace.
pub fn explained_is_yes()
    ensures { (t : Trace) (w : Witness) → IsYes (verdict t w) ↔ Explains t w }
{}

/// A yes counts all event lines of the trace.
pub fn yes_counts_all_lines()
    ensures { (t : Trace) (w : Witness) (lines hidden : ℕ) → verdict t w ≡ Yes lines hidden → lines ≡ length t.lines }
{}

/// A yes stays a yes, with the same counts, if the header says that less of congestion control is judged: a yes under
/// `full` is one under `recovery`, and a yes under `recovery` is one under `none`.
pub fn less_judged_stays_yes()
    ensures { (j : Judged) → LessJudgedStaysYes j }
{}

/// A yes with a slack stays a yes, with the same counts, with each greater slack, and with `any`.
pub fn less_late_stays_yes()
    ensures { (slack : Option ℕ) → LessLateStaysYes slack }
{}

/// With `slack any`, no verdict names a rule from 40 on but 53 to 55: beside the order of lines and the model, only
/// what the lines of segments show is judged.
pub fn any_names_no_duty()
    ensures { AnyNamesNoDuty }
{}

/// At each moment of the witness, what the receives on a socket number returned is a prefix of what the sends on one
/// socket number of the other host accepted; once a receive returned the end, it is all of it. The two sockets have the
/// same ports, swapped. This is stated in terms of the trace's lines and the witness's steps only. A socket number
/// whose receives return nothing needs no such counterpart.
pub fn receives_begin_sends()
    ensures { (t : Trace) (w : Witness) → Explains t w → AreBothRecorded t → ReceivesBeginSends t w }
{
    received_is_a_prefix();
    end_is_whole();
}

/// What follows for streams, windows and states if the witness explains the trace.
pub fn explained_follows()
    // If both hosts are recorded: what reads returned is a prefix of what the peer's sends accepted.
    ensures received { (t : Trace) (w : Witness) → Explains t w → AreBothRecorded t → ReadsBeginWhatWasSent t w }

    // Reads that returned the end returned all of them.
    ensures whole { (t : Trace) (w : Witness) → Explains t w → AreBothRecorded t → EndsAreWhole t w }

    // What is acknowledged was taken before.
    ensures acknowledged { (t : Trace) (w : Witness) → Explains t w → AreBothRecorded t → AllAcknowledgedWasTaken t w }

    // In every case: what reads returned came with segments that were taken.
    ensures carried { (t : Trace) (w : Witness) → Explains t w → AllReadsWereCarried t w }

    // New data ends within both windows, and windows follow their rules, by the profile that the header names. If the
    // header says `congestion recovery` or `none`, that profile bounds no congestion window.
    ensures windows { (t : Trace) (w : Witness) → Explains t w → AllKeepWindows t w }

    // States follow each other by the arrows of RFC 9293, 3.3.2, figure 5, and positions never fall.
    ensures states { (t : Trace) (w : Witness) → Explains t w → AllStatesFollow t w }
    ensures positions { (t : Trace) (w : Witness) → Explains t w → NoPositionFalls t w }
{
    received_is_a_prefix();
    end_is_whole();
    acknowledged_was_taken();
    reads_were_carried();
    new_data_fits();
    windows_follow();
    profiles_are_named();
    states_follow();
    positions_never_fall();
}

/// The verdict of the definition means what `specs/Meaning` says. Each function that judges a case says so of its
/// verdict, by the clause `means`.
pub fn verdict_means()
    ensures { (t : Trace) (w : Witness) → Means t w (verdict t w) }
{
    explained_follows();
    receives_begin_sends();
}

/// Each promise of a verdict that means this.
pub fn what_a_verdict_means()
    // A yes says that the steps explain the trace, a no which rule is broken first, by the places in the two lists.
    ensures says { (t : Trace) (w : Witness) (v : Verdict) → Means t w v → Says t w v }
    ensures explained { (t : Trace) (w : Witness) (v : Verdict) → Means t w v → IsYes v ↔ Explains t w }

    // From a yes, if both hosts are recorded, in terms of lines and steps only: what receives returned is at each
    // moment a prefix of what the peer's sends accepted.
    ensures heard { (t : Trace) (w : Witness) (v : Verdict) → Means t w v → IsYes v → AreBothRecorded t
        → ReceivesBeginSends t w }

    // The same for the model's endpoints; reads that returned the end returned all of it; what is acknowledged was
    // taken before.
    ensures received { (t : Trace) (w : Witness) (v : Verdict) → Means t w v → IsYes v → AreBothRecorded t
        → ReadsBeginWhatWasSent t w }
    ensures whole { (t : Trace) (w : Witness) (v : Verdict) → Means t w v → IsYes v → AreBothRecorded t
        → EndsAreWhole t w }
    ensures acknowledged { (t : Trace) (w : Witness) (v : Verdict) → Means t w v → IsYes v → AreBothRecorded t
        → AllAcknowledgedWasTaken t w }

    // From every yes: what reads returned came with segments that were taken; windows are kept; states follow each
    // other by the arrows of RFC 9293, 3.3.2, figure 5; positions never fall.
    ensures carried { (t : Trace) (w : Witness) (v : Verdict) → Means t w v → IsYes v → AllReadsWereCarried t w }
    ensures windows { (t : Trace) (w : Witness) (v : Verdict) → Means t w v → IsYes v → AllKeepWindows t w }
    ensures states { (t : Trace) (w : Witness) (v : Verdict) → Means t w v → IsYes v → AllStatesFollow t w }
    ensures positions { (t : Trace) (w : Witness) (v : Verdict) → Means t w v → IsYes v → NoPositionFalls t w }
{}

/// What follows for streams holds at each moment of the witness, for what was returned and accepted by then.
pub fn streams_at_each_moment()
    // If both hosts are recorded: what reads returned by then is a prefix of what the peer's sends accepted by then.
    ensures received { (t : Trace) (w : Witness) → Explains t w → AreBothRecorded t → (place : ℕ)
        → ReceivedIsAPrefix t.header (take place (steps_of t w)) }

    // Reads that returned the end by then returned all of them by then.
    ensures whole { (t : Trace) (w : Witness) → Explains t w → AreBothRecorded t → (place : ℕ)
        → EndIsWhole t.header (take place (steps_of t w)) }

    // In every case: what reads returned by then came with segments that were taken by then.
    ensures carried { (t : Trace) (w : Witness) → Explains t w → (place : ℕ)
        → ReadsWereCarried t.header (take place (steps_of t w)) }
{
    received_is_a_prefix();
    end_is_whole();
    reads_were_carried();
}

/// Which endpoint is the peer of an endpoint, if a witness explains a trace: the one that made the SYN it took first.
pub fn peers_are_met()
    // A step leaves the peer of each endpoint as it is; or the endpoint had none, and the step takes for it a segment
    // with SYN that the peer made, in SYN-SENT or at a listener whose child it then is.
    ensures each { (t : Trace) (w : Witness) → Explains t w → AllPeersAreMet t w }

    // A peer at the end was found this way by some step.
    ensures all { (t : Trace) (w : Witness) → Explains t w → EachPeerWasMet t w }
{}

/// The verdict on a trace that has a text is the same after the trace is printed and read again. It is also the same
/// for two traces that differ only in the places of their lines in a text.
pub fn verdict_when_read_again()
    ensures same { (t u : Trace) (w : Witness) (text : List ℕ) → IsTraceText t text → IsTraceText u (trace_text t)
        → verdict u w ≡ verdict t w }
    ensures yes { (t u : Trace) (w : Witness) (text : List ℕ) → IsTraceText t text → IsTraceText u (trace_text t)
        → IsYes (verdict t w) → IsYes (verdict u w) }
    ensures spans { (t u : Trace) (w : Witness) → without_spans t ≡ without_spans u → verdict t w ≡ verdict u w }
{}

/// A trace may have two witnesses that both get a yes, with their hidden steps in different orders.
pub fn two_witnesses_of_one_trace()
    ensures { (t : Trace) × (v : Witness) × (w : Witness) × HaveTwo t v w }
{}

/// The text of a trace followed by the text of a witness of its version is a case with their verdict.
pub fn printed_case()
    ensures texts { (t : Trace) (w : Witness) (first second : List ℕ) → t.header.version ≡ w.version
        → IsTraceText t first →
        IsWitnessText w second → case_result (first ++ second) ≡ Ok (verdict t w) }

    // So are the printed texts, whatever the spans of lines and steps are.
    ensures printed { (t : Trace) (w : Witness) → t.header.version ≡ w.version → IsPrintableTrace t
        → IsPrintableWitness w →
        case_result (trace_text t ++ witness_text w) ≡ Ok (verdict t w) }

    // A witness that explains its trace is printed with it as a case that gets a yes.
    ensures yes { (t : Trace) (w : Witness) → t.header.version ≡ w.version → IsPrintableTrace t → IsPrintableWitness w →
        Explains t w → (v : Verdict) × (case_result (trace_text t ++ witness_text w) ≡ Ok v) × IsYes v }

    // The places of steps in their text don't matter.
    ensures spans { (t : Trace) (v w : Witness) → map without_span v.steps ≡ map without_span w.steps
        → verdict t v ≡ verdict t w }
{}
