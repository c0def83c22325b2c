//! A recording that is printed as a case.

ghost use Rattle.std.specs.Prelude.{◌≡◌, ◌≢◌, ◌<◌, ◌^◌, false, codes};
ghost use Rattle.std.specs.Io.KnownBytes.{Appends};
ghost use Rattle.case_forms.specs.Versions.{is_half, says_sender};
ghost use Rattle.witness.specs.Printable.{TellShifts};
ghost use Rattle.checker.specs.Explains.{Explains};
ghost use Rattle.counted.specs.Counting.{left_of, failures_of};
ghost use Rattle.two_hosts.specs.Ends.{has_ended};
ghost use Rattle.two_hosts.specs.Plans.{header_of};
ghost use Rattle.two_hosts.specs.declared.plan.Plan.{Plan};
ghost use Rattle.cli.specs.Recorded.{EndsRecord};

use crate::lines::{answer_bad_device, answer_bad_memory, say};
use answers::exit_status;
use checker::print_case;
use counted::Counted;
use std::alloc::Global;
use std::io::{BufRead, Write};
use std::sync::Wait;
use std::thread::Threads;
use two_hosts::{Plan, RecordFault, Recording, record};

/// Records what is planned, and prints it.
pub(crate) fn answer_record<W: Write, H: Threads + Wait + Sync>(
    rt: &H,
    alloc: Global,
    plan: Plan,
    w: &mut Counted<W>,
) -> u8
    requires few { failures_of w.old < 2 ^ 50 }
    requires whole { is_half plan.version ≡ false }
    requires judged { says_sender plan.version ≡ false }
    ensures recorded { result ≢ 5 → EndsRecord plan result (left_of W.contents w.old) (left_of W.contents w.new) }
    ensures told { result ≡ 5 → failures_of w.new ≡ failures_of w.old →
        Appends (left_of W.contents w.old) (left_of W.contents w.new) (codes "bad device\n") }
    ensures quiet { result ≢ 5 → failures_of w.new ≡ failures_of w.old }
{
    match record(rt, alloc, plan) {
        Ok(recording) => print(alloc, &recording, w),
        Err(RecordFault::Device) => answer_bad_device(w),
        Err(RecordFault::OutOfMemory) => answer_bad_memory(w),
    }
}

// Writes what was recorded as a case.
fn print<W: Write>(alloc: Global, recording: &Recording, w: &mut Counted<W>) -> u8
    requires few { failures_of w.old < 2 ^ 50 }
    requires explains { Explains recording.now.recorded.trace recording.now.recorded.witness }
    requires shifts { TellShifts recording.now.recorded.witness.version recording.now.recorded.witness.steps }
    ensures recorded { (plan : Plan) → recording.now.recorded.trace.header ≡ header_of plan.version
        → recording.now.recorded.witness.version ≡ plan.version →
        recording.now.ended ≡ has_ended plan.rounds recording.now.recorded.trace.lines → result ≢ 5 →
        EndsRecord plan result (left_of W.contents w.old) (left_of W.contents w.new) }
    ensures device { result ≡ 5 → failures_of w.old < failures_of w.new }
    ensures quiet { result ≢ 5 → failures_of w.new ≡ failures_of w.old }
{
    let Recording {
        recorded,
        ended,
        ..
    } = recording;
    match print_case(alloc, &recorded.trace, &recorded.witness) {
        Ok(text) => say(w, text.as_slice(), exit_status(*ended)),
        Err(_) => answer_bad_memory(w),
    }
}
