//! The workers, and the call that starts them.

ghost use Rattle.std.specs.Prelude.{◌≡◌, ◌<◌, List, ℕ, [], map, IfOk, IfSome, length};
ghost use Rattle.std.proofs.Common.{get_or};
ghost use Rattle.parallel_check.specs.Answers.{AnswersEach, IsAnswer};

use crate::gather::gather;
use crate::plain::{CaseResult, answer_to};
use case_forms::OutOfMemory;
use std::alloc::Global;
use std::marker::{Brand, PhantomData};
use std::sync::{Mutex, Wait};
use std::thread;
use std::thread::Threads;

/// Called for each case by the worker that checks it.
pub trait Gate {
    /// Called before the case with this number is checked. Cases are numbered from 0.
    fn before(&self, case: usize);

    /// Called once it is checked.
    fn after(&self, case: usize);
}

/// Which cases are checked. Each call of `check_many_slices` picks its own.
pub(crate) trait Cases {
    /// The texts of the cases, in order.
    ghost cases: { List (List ℕ) };
}

impl Cases for Brand {
    ghost cases = { [] };
}

/// The answer to one of these cases, with the number of the case.
#[derive(Drop)]
pub(crate) struct NumberedAnswer<C: Cases> {
    pub index: usize,
    pub answer: CaseResult,
    pub of: PhantomData<C>,
    pub ghost in_range: { index < length C.cases },
    pub ghost answers: { IsAnswer (get_or C.cases index []) answer },
}

/// Checks one case, between the two calls of the gate.
pub(crate) fn check_one<C: Cases, G: Gate>(
    alloc: Global,
    cases: &[&[u8]],
    index: usize,
    gate: &G,
) -> NumberedAnswer<C>
    requires in_range { index < length cases.now }
    requires cases { map (λ case. case.now) cases.now ≡ C.cases }
    ensures { result.index ≡ index }
{
    gate.before(index);
    let answer = answer_to(alloc, cases[index]);
    gate.after(index);
    NumberedAnswer {
        index,
        answer,
        of: PhantomData,
    }
}

// The first case that none has taken. None: all are taken.
fn take_next<H: Wait>(rt: &H, next: &Mutex<usize>, count: usize) -> Option<usize>
    ensures { IfSome result (λ index. index < count) }
{
    let mut next = next.lock(rt);
    let index = *next;
    if index >= count {
        return None;
    }
    *next = index + 1;
    Some(index)
}

// What one worker does. It finds room for an answer before it takes the case; if there is none it takes no further one.
fn work<C: Cases, G: Gate, H: Wait>(
    rt: &H,
    alloc: Global,
    cases: &[&[u8]],
    next: &Mutex<usize>,
    gate: &G,
) -> Vec<NumberedAnswer<C>>
    requires { map (λ case. case.now) cases.now ≡ C.cases }
{
    let mut done = Vec::new(alloc);
    for _ in 0..cases.len() {
        if done.reserve(1).is_err() {
            break;
        }
        let Some(index) = take_next(rt, next, cases.len()) else {
            break;
        };
        done.push_reserved(check_one(alloc, cases, index, gate));
    }
    done
}

// Checks all of the cases that `C` names.
fn check_named<C: Cases + Send + Sync, G: Gate + Sync, H: Threads + Wait + Sync>(
    rt: &H,
    alloc: Global,
    cases: &[&[u8]],
    workers: usize,
    gate: &G,
) -> Result<Vec<CaseResult>, OutOfMemory>
    requires { map (λ case. case.now) cases.now ≡ C.cases }
    ensures { IfOk result (λ answers. AnswersEach C.cases answers.items) }
{
    let next = Mutex::new(0);
    let parts: Vec<Vec<NumberedAnswer<C>>> = thread::map_indices(
        rt,
        alloc,
        workers,
        &|_| work(rt, alloc, cases, &next, gate),
    )?;
    gather(alloc, cases, parts, gate)
}

/// Checks all cases on this many threads, 1 to 64. If a thread can't be started, the calling thread does its work. A
/// case for which memory runs out has that as its answer; the others aren't affected. `Err` says that memory ran out
/// for the list itself.
pub fn check_many_slices<G: Gate + Sync, H: Threads + Wait + Sync>(
    rt: &H,
    alloc: Global,
    cases: &[&[u8]],
    workers: usize,
    gate: &G,
) -> Result<Vec<CaseResult>, OutOfMemory>
    ensures { IfOk result (λ answers. AnswersEach (map (λ case. case.now) cases.now) answers.items) }
{
    check_named::<Brand, G, H>(rt, alloc, cases, workers, gate)
}

// Each case as a slice.
#[tactic(auto, using(crate::proofs::Slices::firsts_more))]
fn slices_of<'c>(alloc: Global, cases: &'c [Vec<u8>]) -> Result<Vec<&'c [u8]>, OutOfMemory>
    ensures { IfOk result (λ slices. map (λ slice. slice.now) slices.items ≡ map (λ case. case.items) cases.entry.now) }
{
    let mut slices = Vec::with_capacity(alloc, cases.len())?;
    for case in cases {
        slices.push(case.as_slice())?;
    }
    Ok(slices)
}

/// `check_many_slices` for cases that own their memory.
pub fn check_many<G: Gate + Sync, H: Threads + Wait + Sync>(
    rt: &H,
    alloc: Global,
    cases: &[Vec<u8>],
    workers: usize,
    gate: &G,
) -> Result<Vec<CaseResult>, OutOfMemory>
    ensures { IfOk result (λ answers. AnswersEach (map (λ case. case.items) cases.now) answers.items) }
{
    let slices = slices_of(alloc, cases)?;
    check_many_slices(rt, alloc, slices.as_slice(), workers, gate)
}
