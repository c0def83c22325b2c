//! What was sent again first in a recovery, and whether what is acknowledged answers something earlier (RFC 3522, 3.2).

ghost use Rattle.std.specs.Prelude.{◌≡◌};
ghost use Rattle.std.specs.Option.{option_map};
ghost use Rattle.spec_flights.specs.Undoing.{again_built, again_sent, answers_earlier, echoes_older, needed};

use crate::clocks::is_older;
use case_forms::SegmentPlan;
use segment::TimestampPair;
use spec_duties::View;
use spec_flights::{Again, Undoing};

/// Before any recovery, after one was undone, and as fast recovery begins.
pub fn needed() -> Undoing
    ensures { result ≡ needed }
{
    Undoing {
        again: None,
        timeout: None,
        is_spurious: false,
    }
}

/// What was sent again first, after a segment was built under this number. `first`: it is that.
pub fn again_built(
    number: u32,
    plan: &SegmentPlan,
    first: bool,
    again: Option<Again>,
) -> Option<Again>
    ensures { result ≡ again_built number plan.now first again }
{
    if first {
        Some(Again {
            number,
            pos: plan.pos,
            clock: None,
        })
    } else {
        again
    }
}

// What was sent again first, after the segment of this number was sent with these timestamps.
fn again_sent(number: u32, stamps: Option<TimestampPair>, again: Again) -> Again
    ensures { result ≡ again_sent number stamps again }
{
    if again.number != number {
        return again;
    }
    Again {
        clock: match stamps {
            Some(stamps) => Some(stamps.value),
            None => None,
        },
        ..again
    }
}

/// The same, if anything was.
pub fn again_shown(
    number: u32,
    stamps: Option<TimestampPair>,
    again: Option<Again>,
) -> Option<Again>
    ensures { result ≡ option_map (again_sent number stamps) again }
{
    match again {
        Some(again) => Some(again_sent(number, stamps, again)),
        None => None,
    }
}

// Whether the clock that is echoed is older than that of what was sent again.
fn echoes_older(stamps: Option<TimestampPair>, again: Again) -> bool
    ensures { result ≡ echoes_older stamps again }
{
    match (stamps, again.clock) {
        (Some(stamps), Some(clock)) => is_older(stamps.echo, clock),
        _ => false,
    }
}

/// Whether what was sent again first is acknowledged by something that answers what was sent before.
pub fn answers_earlier(
    before: &View,
    after: &View,
    stamps: Option<TimestampPair>,
    again: Again,
) -> bool
    ensures { result ≡ answers_earlier before.now after.now stamps again }
{
    before.snd_una < after.snd_una && again.pos < after.snd_una && echoes_older(stamps, again)
}
