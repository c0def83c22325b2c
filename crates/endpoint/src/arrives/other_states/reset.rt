//! Second, the RST bit.

ghost use Rattle.spec_tcp.specs.Arrives.OtherStates.Reset.{reset_fault, was_reset};
ghost use Rattle.spec_tcp.specs.Bounds.{IsForgotten};
ghost use Rattle.spec_tcp.specs.Forgetting.{forget_endpoint};
ghost use Rattle.std.specs.Prelude.{◌≡◌};
ghost use Rattle.window_rules.specs.Counts.{HasCounts};

use crate::signals::at_moment;
use case_forms::{State, TakeChoice};
use spec_tcp::{Endpoint, Fault};
use window_rules::Signal;

/// The endpoint is CLOSED, and failed if a connection was being opened or was established.
pub(crate) fn on_reset(endpoint: &mut Endpoint, how: TakeChoice, moment: u64)
    requires forgotten { IsForgotten endpoint.old }
    requires counts { HasCounts endpoint.old.control }
    ensures { endpoint.new ≡ forget_endpoint (was_reset endpoint.old how moment) }
{
    let control = &endpoint.control;
    let control = control.after(
        Signal::Other,
        at_moment(endpoint, moment),
        how.cwnd,
        control.values.ssthresh,
    );
    endpoint.fault = reset_fault(endpoint);
    endpoint.state = State::Closed;
    endpoint.timers.stop_all();
    endpoint.control = control;
    endpoint.unanswered_expiries = 0;
}

// A child whose connection isn't established yet ends without a fault: no call knows of it.
fn reset_fault(endpoint: &Endpoint) -> Option<Fault>
    ensures { result ≡ reset_fault endpoint.now.state endpoint.now }
{
    match endpoint.state {
        State::SynSent => Some(Fault::Refused),
        State::SynReceived => {
            if endpoint.listener.is_some() {
                endpoint.fault
            } else {
                Some(Fault::Refused)
            }
        }
        State::Established | State::FinWait1 | State::FinWait2 | State::CloseWait => {
            Some(Fault::Reset)
        }
        State::Listen | State::Closing | State::LastAck | State::TimeWait | State::Closed => {
            endpoint.fault
        }
    }
}
