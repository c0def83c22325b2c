//! Answers in the slots of their cases, which are numbered from 0.

ghost use Rattle.std.specs.Prelude.{◌≡◌, ◌<◌, Some, length, slice_set};

/// Puts an answer into the slot with this number. An answer that was there is dropped.
#[inline(always)]
pub fn put_at<A: Drop>(slots: &mut Vec<Option<A>>, number: usize, answer: A)
    requires { number < length slots.old.items }
    ensures { slots.new.items ≡ slice_set slots.old.items number (Some answer) }
{
    slots[number] = Some(answer);
}
