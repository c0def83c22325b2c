//! The verdict on a case.

ghost use Rattle.std.specs.Prelude.{◌≤◌, IfOk, Some};
ghost use Rattle.case_forms.specs.declared.trace.Trace.{Trace};
ghost use Rattle.case_forms.specs.declared.steps.Witness.{Witness};
ghost use Rattle.checker.specs.Meaning.{Means};
ghost use Rattle.checker.specs.Texts.{AreInCase, AreOf, GivesTexts};
ghost use Rattle.checker.specs.Cases.{case_result, GivesCase};
ghost use Rattle.c_answers.specs.Answers.{Answers};

use crate::answer::Answer;
use checker::{CaseFault, check_case, check_streams};
use counted::Counted;
use std::alloc::Global;

/// The answer to a case: a trace and its witness in one text. The clauses are those of `checker::check_case`.
pub fn answer_to_case(alloc: Global, text: &[u8]) -> Answer
    ensures exact { Answers result (λ r. GivesCase r (case_result text.now)) }
    ensures means { (t : Trace) (w : Witness) → AreInCase text.now t w → Answers result (λ r. IfOk r (Means t w)) }
    ensures unread { result.kind ≤ 4 }
{
    Answer::from_result(check_case(alloc, text))
}

/// The answer to a case whose trace and witness are two texts. The clauses are those of `checker::check_streams`.
pub fn answer_to_texts(alloc: Global, trace: &[u8], witness: &[u8]) -> Answer
    ensures exact { Answers result (λ r. GivesTexts r (Some trace.now) (Some witness.now)) }
    ensures means { (t : Trace) (w : Witness) → AreOf (Some trace.now) (Some witness.now) t w
        → Answers result (λ r. IfOk r (Means t w)) }
    ensures unread { result.kind ≤ 4 }
{
    let (result, _, _) = check_streams(alloc, Counted::new(trace), Counted::new(witness));
    match result {
        // A read of a text in memory fails only after 2^50 others.
        Err(CaseFault::Read) => Answer::from_result(Err(CaseFault::OutOfMemory)),
        result => Answer::from_result(result),
    }
}
