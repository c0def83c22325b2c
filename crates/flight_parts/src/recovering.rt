//! Up to which position an endpoint recovers from a loss.

ghost use Rattle.std.specs.Prelude.{◌≡◌};
ghost use Rattle.spec_flights.specs.Recovering.{is_recovering, is_repairing, none_begun, recovery_after};

use case_forms::{RecoveryChange, Timer};
use spec_duties::{Event, View};
use spec_flights::Recovery;

/// Before any loss.
pub fn none_begun() -> Recovery
    ensures { result ≡ none_begun }
{
    Recovery {
        point: 0,
        is_fast: false,
    }
}

/// Whether something that was sent before the loss isn't acknowledged yet.
pub fn is_recovering(v: &View, recovery: Recovery) -> bool
    ensures { result ≡ is_recovering v.now recovery }
{
    v.snd_una < recovery.point
}

/// Whether it is in fast recovery, and no timeout came since that began.
pub fn is_repairing(v: &View, recovery: Recovery) -> bool
    ensures { result ≡ is_repairing v.now recovery }
{
    is_recovering(v, recovery) && recovery.is_fast
}

/// After a step.
pub fn recovery_after(event: &Event, after: &View, recovery: Recovery) -> Recovery
    ensures { result ≡ recovery_after event.now after.now recovery }
{
    match event {
        Event::Expires(Timer::Rto) => Recovery {
            point: after.snd_max,
            is_fast: false,
        },
        Event::Recovers(RecoveryChange::Begins) => Recovery {
            point: after.snd_max,
            is_fast: true,
        },
        Event::Recovers(RecoveryChange::IsUndone) => Recovery {
            point: 0,
            is_fast: recovery.is_fast,
        },
        Event::Opens
        | Event::Calls { .. }
        | Event::Processes { .. }
        | Event::Drops { .. }
        | Event::Builds(_)
        | Event::Sends(_)
        | Event::Expires(Timer::Persist | Timer::Msl2 | Timer::Giveup | Timer::Pto) => {
            if recovery.point <= after.snd_una {
                Recovery {
                    point: 0,
                    is_fast: recovery.is_fast,
                }
            } else {
                recovery
            }
        }
    }
}
