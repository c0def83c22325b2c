//! The text of a case.

ghost use Rattle.std.specs.Prelude.{◌≡◌, ◌++◌, Ok, IfOk};
ghost use Rattle.trace_reader.specs.Printed.{trace_text};
ghost use Rattle.trace_reader.specs.Printable.{IsWithinTrace};
ghost use Rattle.witness.specs.Printed.{witness_text};
ghost use Rattle.witness.specs.Printable.{IsWithinWitness, TellShifts};
ghost use Rattle.verdict.specs.declared.report.Verdict.{Verdict};
ghost use Rattle.checker.specs.Cases.{case_result};
ghost use Rattle.checker.specs.Verdicts.{verdict};
ghost use Rattle.checker.specs.Explains.{Explains, IsYes};

use case_forms::{OutOfMemory, Trace, Witness};
use std::alloc::Global;
use trace_reader::print_trace;
use witness::push_witness;

/// A trace and its witness as one text: the trace's lines, and after them the witness's, each ended by LF.
///
/// If both have one version, their numbers are within the limits of texts, and a shift appears only where one may, then
/// the text is a case, and its verdict is that of the two.
pub fn print_case(alloc: Global, trace: &Trace, witness: &Witness) -> Result<Vec<u8>, OutOfMemory>
    ensures text { IfOk result (λ text. text.items ≡ trace_text trace.now ++ witness_text witness.now) }
    ensures judged { trace.now.header.version ≡ witness.now.version → IsWithinTrace trace.now
        → IsWithinWitness witness.now
        → TellShifts witness.now.version witness.now.steps
        → IfOk result (λ text. case_result text.items ≡ Ok (verdict trace.now witness.now)) }
    ensures yes { trace.now.header.version ≡ witness.now.version → IsWithinTrace trace.now → IsWithinWitness witness.now
        → TellShifts witness.now.version witness.now.steps → Explains trace.now witness.now
        → IfOk result (λ text. (v : Verdict) × (case_result text.items ≡ Ok v) × IsYes v) }
{
    let mut text = print_trace(alloc, trace)?;
    push_witness(&mut text, witness)?;
    Ok(text)
}
