//! Runs of positions that were first built at one moment, in a queue.
//!
//! A segment adds one run, however long it is, so a queue is as long as there are segments in flight.

ghost use Rattle.std.specs.Prelude.{◌≡◌, ◌+◌, ◌-◌, ◌<◌, ◌≤◌, ◌++◌, drop, length, replicate};
ghost use Rattle.std.specs.VecDeque.{deque_capacity, deque_len};
ghost use Rattle.streams.specs.Transmissions.{made_moment, once};
ghost use Rattle.streams.specs.Views.{expand};

use std::collections::VecDeque;

/// Consecutive positions that were first built at one moment.
#[derive(Clone, Copy)]
pub(crate) struct Run {
    /// The number of positions.
    pub(crate) count: u64,
    /// When they were first built, in microseconds.
    pub(crate) moment: u64,
}

/// Appends this many positions, if there is room for a run.
pub(crate) fn grow(runs: &mut VecDeque<Run>, count: u64, moment: u64)
    requires { deque_len runs.old < deque_capacity runs.old }
    ensures { expand runs.new.items ≡ expand runs.old.items ++ replicate count (once moment) }
{
    if count == 0 {
        return;
    }
    runs.push_back_reserved(Run { count, moment });
}

/// Removes this many positions from the front.
pub(crate) fn forget(runs: &mut VecDeque<Run>, count: u64)
    requires { count ≤ length (expand runs.old.items) }
    ensures { expand runs.new.items ≡ drop count (expand runs.old.items) }
{
    let mut left = count;
    while left > 0 {
        let Some(first) = runs.pop_front() else {
            return;
        };
        if left < first.count {
            runs.push_front_reserved(Run {
                count: first.count - left,
                moment: first.moment,
            });
            return;
        }
        left -= first.count;
    }
}

/// When this position was first built, in microseconds. `None` means that it wasn't.
pub(crate) fn moment_at(runs: &VecDeque<Run>, position: u64) -> Option<u64>
    ensures { result ≡ made_moment (expand runs.now.items) position }
{
    let mut place = 0usize;
    let mut skip = position;
    while place < runs.len() {
        let run = runs[place];
        if skip < run.count {
            return Some(run.moment);
        }
        skip -= run.count;
        place += 1;
    }
    None
}
