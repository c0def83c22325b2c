//! The cases one after another, on the thread of the caller.

ghost use Rattle.std.specs.Prelude.{IfOk, map};
ghost use Rattle.parallel_check.specs.Answers.{AnswersEach, IsAnswer};

use case_forms::OutOfMemory;
use checker::{CaseFault, check_case};
use std::alloc::Global;
use verdict::Verdict;

/// The answer to a case: its verdict, or why it has none.
pub type CaseResult = Result<Verdict, CaseFault>;

/// Checks all cases, on this thread. A case for which memory runs out has that as its answer; the others aren't
/// affected. `Err` says that memory ran out for the list itself.
pub fn check_many_plain(alloc: Global, cases: &[Vec<u8>]) -> Result<Vec<CaseResult>, OutOfMemory>
    ensures { IfOk result (λ answers. AnswersEach (map (λ case. case.items) cases.now) answers.items) }
{
    let mut answers = Vec::with_capacity(alloc, cases.len())?;
    for text in cases {
        answers.push(answer_to(alloc, text.as_slice()))?;
    }
    Ok(answers)
}

/// The answer to one case.
pub(crate) fn answer_to(alloc: Global, text: &[u8]) -> CaseResult
    ensures { IsAnswer text.now result }
{
    check_case(alloc, text)
}
