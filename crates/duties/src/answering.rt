//! By when a call that waits is answered.
//! `lib.rt` says why each function here is inlined.

ghost use Rattle.std.specs.Prelude.{◌≡◌, max, if◌then◌else◌};
ghost use Rattle.spec_duties.specs.Answering.{answer_due, not_ready, ready_after, ready_since, renewed};
ghost use Rattle.spec_duties.specs.Answering.{unanswered_since};

use crate::deadlines::due_within;
use spec_duties::{Awaited, OpenCall, Ready, Waitable};

/// By when an answer is due that is owed since this moment, in microseconds. None: none is owed.
#[inline(always)]
pub fn answer_due(since: Option<u64>) -> Option<u128>
    ensures { result ≡ answer_due since }
{
    due_within(500_000, since)
}

/// Since when an answer is owed to a call without one, if no such call on its socket has to wait since `ready`.
#[inline(always)]
pub fn unanswered_since(ready: Option<u64>, call: OpenCall) -> Option<u64>
    ensures { result ≡ unanswered_since ready call }
{
    match call {
        OpenCall::Waits { since, .. } => match ready {
            Some(ready) => Some(since.max(ready)),
            None => None,
        },
        OpenCall::Answered { .. } => None,
    }
}

/// Since when no call has to wait that awaits this.
#[inline(always)]
pub(crate) fn ready_since(ready: Ready, awaited: Awaited) -> Option<u64>
    ensures { result ≡ ready_since ready awaited }
{
    match awaited {
        Awaited::Bytes => ready.bytes,
        Awaited::Connection => ready.connection,
        Awaited::Child => ready.child,
    }
}

#[inline(always)]
fn ready_after(may_wait: bool, moment: u64, since: Option<u64>) -> Option<u64>
    ensures { result ≡ ready_after may_wait moment since }
{
    if may_wait {
        None
    } else {
        since.or(Some(moment))
    }
}

/// Since when no call has to wait on a socket, after a step.
#[inline(always)]
pub(crate) fn renewed(may: Waitable, moment: u64, ready: Ready) -> Ready
    ensures { result ≡ renewed may moment ready }
{
    Ready {
        bytes: ready_after(may.bytes, moment, ready.bytes),
        connection: ready_after(may.connection, moment, ready.connection),
        child: ready_after(may.child, moment, ready.child),
    }
}

/// The same before its number is returned.
#[inline(always)]
pub(crate) fn not_ready() -> Ready
    ensures { result ≡ not_ready }
{
    Ready {
        bytes: None,
        connection: None,
        child: None,
    }
}
