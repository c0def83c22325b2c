//! What is in flight: outstanding positions that the peer didn't report as received (RFC 2018, 3).

ghost use Rattle.std.specs.Prelude.{◌≡◌, ◌≤◌, ◌<◌, ◌++◌, ℕ, suc, [], false, None, Some, IfSome};
ghost use Rattle.std.specs.FinSet as set;
ghost use Rattle.streams.specs.Flying.{flying, flying_in, run_of, state_before};
ghost use Rattle.streams.specs.Ranges.{meets};

use super::flight::Flight;
use super::outstanding::Outstanding;
use super::ranges::Ranges;

/// Positions in flight that were built last with one segment.
#[derive(Clone, Copy)]
pub struct Run {
    /// The first position.
    pub from: u64,
    /// The position after the last one.
    pub upto: u64,
    /// What is known of the last one.
    pub state: Outstanding,
}

/// The first positions in flight from this one on, before `upto`, that were built last with one segment. None: none of
/// these positions is in flight.
pub fn next_run(known: &Flight, told: &Ranges, from: u64, upto: u64) -> Option<Run>
    ensures none { result ≡ None → flying_in known.now told.now from upto ≡ [] }
    ensures some { IfSome result (λ run. (from ≤ run.from) × (run.from < run.upto) × (run.upto ≤ upto)
        × (flying_in known.now told.now from upto ≡ run_of run ++ flying_in known.now told.now run.upto upto)) }
    ensures rests { result ≡ None → (p : ℕ) → from ≤ p → p < upto → flying known.now told.now p ≡ None }
    ensures before { IfSome result (λ run. (p : ℕ) → from ≤ p → p < run.from → flying known.now told.now p ≡ None) }
    ensures alike { IfSome result (λ run. (p : ℕ) → run.from ≤ p → p < run.upto
        → flying known.now told.now p ≡ Some (state_before (suc p) run.upto run.state)) }
{
    let first = told.next_missing(from.max(known.snd_una()));
    if upto <= first {
        return None;
    }
    match known.alike_from(first) {
        Some((end, state)) => {
            let next = untold_upto(told, first, upto.min(end));
            Some(Run {
                from: first,
                upto: next,
                state: state_before(next, end, state),
            })
        }
        None => None,
    }
}

// The first position after this one that was reported, or `most` if that is less.
fn untold_upto(told: &Ranges, from: u64, most: u64) -> u64
    requires from { set.contains told.now from ≡ false }
    requires most { from < most }
    ensures some { from < result }
    ensures most { result ≤ most }
    ensures untold { meets told.now from result ≡ false }
{
    match told.next_held(from) {
        Some(held) => held.min(most),
        None => most,
    }
}

// What is known of the position before `upto`, where the positions to before `end` are alike, and `state` is what is
// known of the last of them.
fn state_before(upto: u64, end: u64, state: Outstanding) -> Outstanding
    ensures { result ≡ state_before upto end state }
{
    if upto < end {
        return Outstanding {
            last: false,
            ..state
        };
    }
    state
}
