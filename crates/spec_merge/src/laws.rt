//! What follows from two recordings, for callers that prove more: each law is the contract of a call that does nothing.

ghost use Rattle.std.specs.Prelude.{◌≡◌, ◌++◌, ◌∷◌, [], List, ℕ, false};
ghost use Rattle.case_forms.specs.Versions.{is_half};
ghost use Rattle.case_forms.specs.declared.trace.Header.{Header};
ghost use Rattle.case_forms.specs.declared.calls.Host.{Host};
ghost use Rattle.case_forms.specs.declared.calls.Host.TheVariants.{Zero, One};
ghost use Rattle.spec_network.specs.Hosts.{At, Makes, Stamped};
ghost use Rattle.spec_merge.specs.Books.{end};
ghost use Rattle.spec_merge.specs.Keys.{Books};
ghost use Rattle.spec_merge.specs.Placing.{IsPlacedRun};
ghost use Rattle.spec_tcp.specs.Machine.{tcp, tcp_shape};
ghost use Rattle.case_forms.specs.declared.steps.SegmentPlan.{SegmentPlan};
ghost use Rattle.spec_tcp_laws.specs.Bounds.{NewDataFits, ProfilesAreNamed, WindowsFollow};
ghost use Rattle.spec_tcp_laws.specs.Runs.{world_at_end};
ghost use Rattle.spec_tcp_laws.specs.Consequences.{AcknowledgedWasTaken, EndIsWhole, ReceivedIsAPrefix};
ghost use Rattle.spec_merge.specs.Recordings.{AreFirstSteps, IsKept, MayJoin, NamesSent, TcpEntry, merged};
ghost use Rattle.spec_merge.specs.Recordings.{merged_lines, next_line, world_of};

use spec_tcp_laws::{
    acknowledged_was_taken, end_is_whole, new_data_fits, profiles_are_named, received_is_a_prefix,
    windows_follow,
};

/// Two matching books, merged in the order of their keys with lines and built segments renumbered, are a run, and a
/// placement of the lines that it uses: each line once, in order, at its own moment.
pub fn merged_books_are_a_run()
    ensures { (h : Header) (first : ℕ) (zeros ones : List TcpEntry) → Books (tcp h) first zeros ones →
        IsPlacedRun (tcp h) h.skew first (merged_lines h first zeros ones) (merged h first zeros ones) }
{}

/// A host's recording grows at its end. Appending what may join keeps it a recording; its world and the number of its
/// next line continue from where they were. The recordings of two hosts are matching books if every segment that
/// arrived at one is one that the other sent.
pub fn books_grow()
    ensures grows { (h : Header) (me : Host) (first : ℕ) (old new : List TcpEntry) → IsKept h me first old
        → MayJoin h me first old new →
        IsKept h me first (old ++ new) }
    ensures world { (h : Header) (me : Host) (old new : List TcpEntry)
        → world_of h me (old ++ new) ≡ end (tcp h) me (world_of h me old) new }
    ensures line { (h : Header) (first : ℕ) (old new : List TcpEntry)
        → next_line h first (old ++ new) ≡ next_line h (next_line h first old) new }
    ensures finished { (h : Header) (first : ℕ) (zeros ones : List TcpEntry) → IsKept h Zero first zeros
        → IsKept h One first ones →
        NamesSent h One zeros ones → NamesSent h Zero ones zeros → Books (tcp h) first zeros ones }
{}

/// Two books, merged, have the consequences of every run of a whole case, at its end and after any of its first steps.
/// What reads returned is a prefix of what the peer's sends accepted, and all of it once a read returned the end. What
/// a step leaves acknowledged, except the SYN, the peer had received before it. New data fits both windows. Windows
/// change only by their causes, by the profile that the header names.
pub fn merged_books_have_the_consequences()
    ensures received { (h : Header) → is_half h.version ≡ false
        → (first : ℕ) (zeros ones : List TcpEntry) (steps : List (Stamped tcp_shape)) →
        AreFirstSteps h first zeros ones steps → ReceivedIsAPrefix h steps }
    ensures ended { (h : Header) → is_half h.version ≡ false
        → (first : ℕ) (zeros ones : List TcpEntry) (steps : List (Stamped tcp_shape)) →
        AreFirstSteps h first zeros ones steps → EndIsWhole h steps }
    ensures acknowledged { (h : Header) → is_half h.version ≡ false →
        (first : ℕ) (zeros ones : List TcpEntry) (steps : List (Stamped tcp_shape)) (x : Stamped tcp_shape) →
        AreFirstSteps h first zeros ones (steps ++ x ∷ []) → AcknowledgedWasTaken h steps x }
    ensures edges { (h : Header) (first : ℕ) (zeros ones : List TcpEntry) (steps : List (Stamped tcp_shape))
        (moment : ℕ) (host : Host)
        (m : SegmentPlan) →
        AreFirstSteps h first zeros ones (steps ++ record { moment = moment; step = At host (Makes m) } ∷ []) →
        NewDataFits (world_at_end h steps) host moment m }
    ensures windows { (h : Header) (first : ℕ) (zeros ones : List TcpEntry) (steps : List (Stamped tcp_shape))
        (x : Stamped tcp_shape) →
        AreFirstSteps h first zeros ones (steps ++ x ∷ []) → WindowsFollow h x.moment (world_at_end h steps) x.step }
    ensures profiles { (h : Header) (first : ℕ) (zeros ones : List TcpEntry) (steps : List (Stamped tcp_shape)) →
        AreFirstSteps h first zeros ones steps → ProfilesAreNamed h (world_at_end h steps) }
{
    merged_books_are_a_run();
    received_is_a_prefix();
    end_is_whole();
    acknowledged_was_taken();
    new_data_fits();
    windows_follow();
    profiles_are_named();
}
