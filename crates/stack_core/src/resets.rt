//! Resets that answer segments of the other host, and wait to be sent.

ghost use Rattle.std.specs.Prelude.{◌≡◌, ◌<◌, ◌+◌, ◌^◌, true, false, suc, slice_get, OnOk, OnErr, IfNone};
ghost use Rattle.std.specs.Option.{IfSome};
ghost use Rattle.spec_tcp.specs.declared.endpoint.Emission.{Emission};
ghost use Rattle.spec_tcp.specs.Steps.{step_of};
ghost use Rattle.stack_core.specs.Resets.{AreAwaited, IsResetToGo, IsWaitingReset, NoResetWaits, awaited, made_of};

use crate::recording::Recording;
use case_forms::OutOfMemory;
use spec_step::Label;
use std::collections::VecDeque;

/// A step is about to make a segment under the number after this count; if it is a reset that answers a segment, it
/// joins the queue. The error is that memory ran out; nothing is changed then.
pub(crate) fn await_reset(
    resets: &mut VecDeque<u32>,
    label: &Label,
    count: u32,
) -> Result<(), OutOfMemory>
    requires few { count + 1 < 2 ^ 32 }
    ensures ok { OnOk result (resets.new.items ≡ awaited resets.old.items (step_of label.now) (suc count)) }
    ensures err { OnErr result (resets.new.items ≡ resets.old.items) }
{
    if let Label::R { .. } = label {
        resets.push_back(count + 1)?;
    }
    Ok(())
}

/// The first reset in the queue that still waits; those before it leave the queue. None: no reset waits.
pub(crate) fn next_reset(resets: &mut VecDeque<u32>, recording: &Recording) -> Option<u32>
    requires awaited { AreAwaited (made_of recording.now) resets.old.items }
    ensures awaited { AreAwaited (made_of recording.now) resets.new.items }
    ensures some { IfSome result (λ n. IsResetToGo recording.now n) }
    ensures none { IfNone result (NoResetWaits recording.now) }
{
    while let Some(number) = first_of(resets) {
        if is_waiting(recording, number) {
            return Some(number);
        }
        resets.pop_front();
    }
    None
}

// The first of the queue.
fn first_of(resets: &VecDeque<u32>) -> Option<u32>
    ensures { result ≡ slice_get resets.now.items 0 }
{
    resets.front().copied()
}

// Whether a reset that answers was made under this number, and was not sent.
fn is_waiting(recording: &Recording, number: u32) -> bool
    ensures yes { result ≡ true → (e : Emission) × IsWaitingReset (made_of recording.now) number e }
    ensures no { result ≡ false → (e : Emission) → IsWaitingReset (made_of recording.now) number e → ⊥ }
{
    match recording.made(number) {
        Some(made) => !made.is_sent() && made.emission().is_reset_reply,
        None => false,
    }
}
