//! Where each thread is, and the lines that begin and end a call.

ghost use Rattle.std.specs.Prelude.{◌≡◌, nat_eq, is_some, false, not, IfOk, OnOk, OnErr};
ghost use Rattle.endpoint_state.specs.Turns.{turn_shown};
ghost use Rattle.std.specs.Map.{lookup};
ghost use Rattle.std.specs.Option.{option_copied, option_map};
ghost use Rattle.std.specs.Result.{result_err};
ghost use Rattle.indexmap.specs.IndexMap.{insert_entry};
ghost use Rattle.verdict.specs.Rules.{first_broken};
ghost use Rattle.spec_network.specs.HostRules.{begin_rules, end_rules, pending_rules};
ghost use Rattle.spec_network.specs.Hosts.{Answered, Called, Idle, turn_of};
ghost use Rattle.spec_tcp.specs.Same.{same_answer};
ghost use Rattle.endpoint_state.specs.Turns.{given_answer, pending_call};
ghost use Rattle.endpoint_state.specs.Faults.{fault_rule};

use crate::fault::StepFault;
use case_forms::{Answer, Call, OutOfMemory};
use std::marker::Model;
use tables::Table;
use verdict::Rule;

/// Where a thread is in its calls.
#[derive(Drop)]
pub(crate) enum Place {
    /// In no call.
    Idle,
    /// In a call that had no effect yet.
    Called(Call),
    /// In a call that had its effect, with this answer.
    Answered(Answer),
}

/// A thread's place. Contracts see it as a `Turn` of the model.
#[derive(Drop)]
pub(crate) struct Turn {
    place: Place,
}

impl Model for Turn {
    ghost use Rattle.spec_network.specs.Hosts.{Turn};
    ghost use Rattle.spec_tcp.specs.Machine.{tcp_shape};
    ghost use Rattle.endpoint_state.specs.Turns.{turn_shown};

    ghost Value = { Turn tcp_shape };

    ghost view = { λ t. turn_shown t.place };
}

impl Turn {
    /// A thread at that place.
    pub(crate) fn at(place: Place) -> Turn
        ensures { result ≡ turn_shown place }
    {
        Turn { place }
    }

    /// Its place.
    pub(crate) fn place(&self) -> &Place
        ensures { turn_shown result.now ≡ self.now }
    {
        &self.place
    }
}

/// Whether a thread may begin a call: it is in no other. The error is the broken rule.
pub(crate) fn admits_begin(threads: &Table<Turn>, thread: u32) -> Result<(), Rule>
    ensures { result_err result ≡ first_broken (begin_rules (turn_of thread threads.now.entries)) }
{
    match place_in(threads, thread) {
        Some(Place::Called(_)) | Some(Place::Answered(_)) => Err(Rule::ThreadBusy),
        Some(Place::Idle) | None => Ok(()),
    }
}

/// Whether a thread's call may end with this answer: one is open, and had its effect with it. The error is the first
/// broken rule.
#[inline(always)]
pub(crate) fn admits_end(threads: &Table<Turn>, thread: u32, answer: &Answer) -> Result<(), Rule>
    ensures { result_err result ≡ first_broken
        (end_rules (λ given answer. not (same_answer given answer)) (turn_of thread threads.now.entries) answer.now) }
{
    match place_in(threads, thread) {
        Some(Place::Answered(given)) => {
            if same_answer(given, answer) {
                Ok(())
            } else {
                Err(Rule::AnswerDiffers)
            }
        }
        Some(Place::Called(_)) => Err(Rule::AnswerDiffers),
        Some(Place::Idle) | None => Err(Rule::NoCall),
    }
}

/// The call of a thread that is open and had no effect yet. The error is the first broken rule: there is none, or it
/// had its effect.
pub(crate) fn open_call(threads: &Table<Turn>, thread: u32) -> Result<&Call, Rule>
    ensures call { IfOk result (λ call. turn_of thread threads.now.entries ≡ Called call.now) }
    ensures rule { result_err result ≡ first_broken (pending_rules (turn_of thread threads.now.entries)) }
{
    match place_in(threads, thread) {
        Some(Place::Called(call)) => Ok(call),
        Some(Place::Answered(_)) => Err(Rule::DoneTwice),
        Some(Place::Idle) | None => Err(Rule::NoCall),
    }
}

/// The call of a thread that is open and had no effect yet. None: there is none, or it had its effect.
pub(crate) fn pending_call(threads: &Table<Turn>, thread: u32) -> Option<&Call>
    ensures { option_copied result ≡ pending_call (turn_of thread threads.now.entries) }
{
    match place_in(threads, thread) {
        Some(Place::Called(call)) => Some(call),
        Some(Place::Answered(_)) | Some(Place::Idle) | None => None,
    }
}

/// The answer that a thread's open call had. None: no call is open, or it had no effect yet.
pub(crate) fn given_answer(threads: &Table<Turn>, thread: u32) -> Option<&Answer>
    ensures { option_copied result ≡ given_answer (turn_of thread threads.now.entries) }
{
    match place_in(threads, thread) {
        Some(Place::Answered(answer)) => Some(answer),
        Some(Place::Called(_)) | Some(Place::Idle) | None => None,
    }
}

/// A thread begins a call. The error is the broken rule, or that memory ran out; nothing is changed then.
pub(crate) fn begin(threads: &mut Table<Turn>, thread: u32, call: Call) -> Result<(), StepFault>
    ensures fault { fault_rule result ≡ first_broken (begin_rules (turn_of thread threads.old.entries)) }
    ensures ok { OnOk result (threads.new.entries ≡ insert_entry nat_eq threads.old.entries thread (Called call)) }
    ensures err { OnErr result (threads.new.entries ≡ threads.old.entries) }
{
    admits_begin(threads, thread)?;
    put(threads, thread, Place::Called(call))?;
    Ok(())
}

/// A thread's call ends. The error is the first broken rule, or that memory ran out; nothing is changed then.
pub(crate) fn finish(
    threads: &mut Table<Turn>,
    thread: u32,
    answer: &Answer,
) -> Result<(), StepFault>
    ensures fault { fault_rule result ≡ first_broken (end_rules
        (λ given answer. not (same_answer given answer)) (turn_of thread threads.old.entries) answer.now) }
    ensures ok { OnOk result (threads.new.entries ≡ insert_entry nat_eq threads.old.entries thread Idle) }
    ensures err { OnErr result (threads.new.entries ≡ threads.old.entries) }
{
    admits_end(threads, thread, answer)?;
    put(threads, thread, Place::Idle)?;
    Ok(())
}

/// A thread's call has its effect, with this answer. If memory runs out, nothing is changed; for a thread that called
/// before it can't run out.
pub(crate) fn set_answer(
    threads: &mut Table<Turn>,
    thread: u32,
    answer: Answer,
) -> Result<(), OutOfMemory>
    ensures ok { OnOk result (threads.new.entries ≡ insert_entry nat_eq threads.old.entries thread (Answered answer)) }
    ensures err { OnErr result (threads.new.entries ≡ threads.old.entries) }
    ensures absent { OnErr result (is_some (lookup (nat_eq thread) threads.old.entries) ≡ false) }
{
    put(threads, thread, Place::Answered(answer))
}

fn place_in(threads: &Table<Turn>, thread: u32) -> Option<&Place>
    ensures { option_map (λ place. turn_shown place.now) result ≡ lookup (nat_eq thread) threads.now.entries }
{
    match threads.get(u64::from(thread)) {
        Some(turn) => Some(turn.place()),
        None => None,
    }
}

#[inline(always)]
fn put(threads: &mut Table<Turn>, thread: u32, place: Place) -> Result<(), OutOfMemory>
    ensures ok { OnOk result (threads.new.entries ≡ insert_entry nat_eq threads.old.entries thread (turn_shown place)) }
    ensures err { OnErr result (threads.new.entries ≡ threads.old.entries) }
    ensures absent { OnErr result (is_some (lookup (nat_eq thread) threads.old.entries) ≡ false) }
{
    threads.insert(u64::from(thread), Turn::at(place))?;
    Ok(())
}

#[tactic(auto, using(endpoint::proofs::Bytes::same_bytes_is))]
fn same_answer(given: &Answer, answer: &Answer) -> bool
    ensures { result ≡ same_answer given.now answer.now }
{
    given == answer
}
