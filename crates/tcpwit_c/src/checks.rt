//! The verdict on a case.

ghost use Rattle.std.specs.Prelude.{◌≤◌, IfOk, Some};
ghost use Rattle.case_forms.specs.declared.trace.Trace.{Trace};
ghost use Rattle.case_forms.specs.declared.steps.Witness.{Witness};
ghost use Rattle.checker.specs.Meaning.{Means};
ghost use Rattle.checker.specs.Texts.{AreInCase, AreOf, GivesTexts};
ghost use Rattle.checker.specs.Cases.{case_result, GivesCase};
ghost use Rattle.c_answers.specs.Answers.{Answers};

use c_answers::{Answer, answer_to_case, answer_to_texts};
use std::alloc::Global;

/// Checks a case: a trace and its witness in one text.
#[unsafe(no_mangle)]
pub extern "C" fn tcpwit_check(alloc: Global, text: &[u8], answer: &mut Answer)
    // The numbers are those of the case's result.
    ensures exact { Answers answer.new (λ r. GivesCase r (case_result text.now)) }

    // What the verdict says of the trace and the witness, and what follows from a yes.
    ensures means { (t : Trace) (w : Witness) → AreInCase text.now t w
        → Answers answer.new (λ r. IfOk r (Means t w)) }
    ensures unread { answer.new.kind ≤ 4 }
{
    *answer = answer_to_case(alloc, text);
}

/// Checks a case whose trace and witness are two texts.
#[unsafe(no_mangle)]
pub extern "C" fn tcpwit_check_two(alloc: Global, trace: &[u8], witness: &[u8], answer: &mut Answer)
    // The numbers are those of the case's result.
    ensures exact { Answers answer.new (λ r. GivesTexts r (Some trace.now) (Some witness.now)) }

    // What the verdict says of the trace and the witness, and what follows from a yes.
    ensures means { (t : Trace) (w : Witness) → AreOf (Some trace.now) (Some witness.now) t w
        → Answers answer.new (λ r. IfOk r (Means t w)) }
    ensures unread { answer.new.kind ≤ 4 }
{
    *answer = answer_to_texts(alloc, trace, witness);
}
