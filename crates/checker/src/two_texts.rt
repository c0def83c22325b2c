//! A case in two texts, judged while they are read.

ghost use Rattle.std.specs.Prelude.{◌≡◌, ◌≢◌, Err, IfOk};
ghost use Rattle.case_forms.specs.declared.trace.Trace.{Trace};
ghost use Rattle.case_forms.specs.declared.steps.Witness.{Witness};
ghost use Rattle.counted.specs.Counting.{left_of, failures_of};
ghost use Rattle.checker.specs.Meaning.{Means};
ghost use Rattle.checker.specs.Streaming.{OneFailed};
ghost use Rattle.checker.specs.Texts.{GivesTexts, AreOf};

use crate::ahead::Ahead;
use crate::case::CaseFault;
use crate::laws::verdict_means;
use crate::verdicts::judge;
use counted::Counted;
use std::alloc::Global;
use std::io::BufRead;
use verdict::Verdict;
use witness::StepReader;

/// The trace's fault, else the witness's, else the verdict on the case, however the bytes of both come in pieces. The
/// fault is `Read` only if a reader's `failures()` grew in the call. Both readers are returned.
pub fn check_streams<A: BufRead, B: BufRead>(
    alloc: Global,
    a: Counted<A>,
    b: Counted<B>,
) -> (Result<Verdict, CaseFault>, Counted<A>, Counted<B>)
    // What both texts give, if their bytes are known.
    ensures exact { GivesTexts result.0 (left_of A.remaining a) (left_of B.remaining b) }

    // What the verdict says of the trace and the witness that the texts give, and what follows from a yes.
    ensures means { (t : Trace) (w : Witness) → AreOf (left_of A.remaining a) (left_of B.remaining b) t w
        → IfOk result.0 (Means t w) }

    // A failed read is counted, and nothing else.
    ensures read { result.0 ≡ Err CaseFault.Read
        → OneFailed (failures_of a) (failures_of b) (failures_of result.1) (failures_of result.2) }
    ensures same_trace { result.0 ≢ Err CaseFault.Read → failures_of result.1 ≡ failures_of a }
    ensures same_witness { result.0 ≢ Err CaseFault.Read → failures_of result.2 ≡ failures_of b }
{
    verdict_means();
    judge_texts(alloc, a, b)
}

// The trace's fault, else the witness's, else the verdict.
fn judge_texts<A: BufRead, B: BufRead>(
    alloc: Global,
    a: Counted<A>,
    b: Counted<B>,
) -> (Result<Verdict, CaseFault>, Counted<A>, Counted<B>)
    ensures exact { GivesTexts result.0 (left_of A.remaining a) (left_of B.remaining b) }
    ensures read { result.0 ≡ Err CaseFault.Read
        → OneFailed (failures_of a) (failures_of b) (failures_of result.1) (failures_of result.2) }
    ensures same_trace { result.0 ≢ Err CaseFault.Read → failures_of result.1 ≡ failures_of a }
    ensures same_witness { result.0 ≢ Err CaseFault.Read → failures_of result.2 ≡ failures_of b }
{
    let mut lines = Ahead::new(alloc, a);
    match lines.begin() {
        Ok(header) => {
            let mut steps = StepReader::new(alloc, header.version, b);
            let answer = judge(alloc, &header, &mut lines, &mut steps);
            (answer, lines.into_source(), steps.into_source())
        }
        Err(fault) => (Err(fault), lines.into_source(), b),
    }
}
