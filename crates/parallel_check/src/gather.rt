//! The answers of the workers, in the order of the cases.

ghost use Rattle.std.specs.Prelude.{◌≡◌, ◌<◌, [], map, IfOk, None, length, replicate};
ghost use Rattle.std.proofs.Common.{get_or};
ghost use Rattle.parallel_check.specs.Answers.{AnswersEach, AreSlots, IsAnswer, IsSlot};

use crate::plain::CaseResult;
use crate::work::{Cases, Gate, NumberedAnswer, check_one};
use answers::put_at;
use case_forms::OutOfMemory;
use std::alloc::Global;

/// One answer to each case, in the order of the cases: that of a worker, or else the caller's own.
pub(crate) fn gather<C: Cases, G: Gate>(
    alloc: Global,
    cases: &[&[u8]],
    parts: Vec<Vec<NumberedAnswer<C>>>,
    gate: &G,
) -> Result<Vec<CaseResult>, OutOfMemory>
    requires { map (λ case. case.now) cases.now ≡ C.cases }
    ensures { IfOk result (λ answers. AnswersEach C.cases answers.items) }
{
    let mut slots = empty_slots(alloc, cases.len())?;
    for part in parts {
        fill(&mut slots, part);
    }
    settle::<C, G>(alloc, cases, slots, gate)
}

fn empty_slots(alloc: Global, count: usize) -> Result<Vec<Option<CaseResult>>, OutOfMemory>
    ensures { IfOk result (λ slots. slots.items ≡ replicate count None) }
{
    let mut slots = Vec::with_capacity(alloc, count)?;
    for _ in 0..count {
        slots.push(None)?;
    }
    Ok(slots)
}

// Puts each answer of a worker into the slot of its case.
fn fill<C: Cases>(slots: &mut Vec<Option<CaseResult>>, part: Vec<NumberedAnswer<C>>)
    requires { AreSlots C.cases slots.old.items }
    ensures { AreSlots C.cases slots.new.items }
{
    for done in part {
        put(slots, done);
    }
}

// Puts an answer into the slot of its case.
fn put<C: Cases>(slots: &mut Vec<Option<CaseResult>>, done: NumberedAnswer<C>)
    requires { AreSlots C.cases slots.old.items }
    ensures { AreSlots C.cases slots.new.items }
{
    let NumberedAnswer {
        index,
        answer,
        of: _,
    } = done;
    put_at(slots, index, answer);
}

// Takes the answers out of their slots, and checks the cases that have none.
fn settle<C: Cases, G: Gate>(
    alloc: Global,
    cases: &[&[u8]],
    mut slots: Vec<Option<CaseResult>>,
    gate: &G,
) -> Result<Vec<CaseResult>, OutOfMemory>
    requires cases { map (λ case. case.now) cases.now ≡ C.cases }
    requires slots { AreSlots C.cases slots.items }
    ensures { IfOk result (λ answers. AnswersEach C.cases answers.items) }
{
    let mut answers = Vec::with_capacity(alloc, cases.len())?;
    for index in 0..cases.len() {
        let answer = match take_slot::<C>(&mut slots, index) {
            Some(answer) => answer,
            None => missing::<C, G>(alloc, cases, index, gate),
        };
        answers.push(answer)?;
    }
    Ok(answers)
}

// Takes the answer out of the slot of this case, if there is one.
fn take_slot<C: Cases>(slots: &mut Vec<Option<CaseResult>>, index: usize) -> Option<CaseResult>
    requires slots { AreSlots C.cases slots.old.items }
    requires in_range { index < length C.cases }
    ensures slots { AreSlots C.cases slots.new.items }
    ensures slot { IsSlot (get_or C.cases index []) result }
{
    slots[index].take()
}

// The answer to a case that no worker has checked.
fn missing<C: Cases, G: Gate>(alloc: Global, cases: &[&[u8]], index: usize, gate: &G) -> CaseResult
    requires in_range { index < length cases.now }
    requires cases { map (λ case. case.now) cases.now ≡ C.cases }
    ensures { IsAnswer (get_or C.cases index []) result }
{
    let done: NumberedAnswer<C> = check_one(alloc, cases, index, gate);
    let NumberedAnswer {
        index: _,
        answer,
        of: _,
    } = done;
    answer
}
