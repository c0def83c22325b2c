//! Fast recovery begins (RFC 5681, 3.2), or is undone (RFC 4015, 3.2).

ghost use Rattle.spec_tcp.specs.Bounds.{HasRoom};
ghost use Rattle.spec_tcp.specs.Forgetting.{forget_endpoint};
ghost use Rattle.spec_tcp.specs.Recovery.{after_recovery, greatest_at_recovery, is_bad_change, is_bad_recovery};
ghost use Rattle.spec_tcp.specs.Recovery.{recovery_rules};
ghost use Rattle.spec_tcp.specs.Signals.{at_moment, recovery_signal};
ghost use Rattle.std.specs.Prelude.{◌≡◌};
ghost use Rattle.std.specs.Result.{result_err};
ghost use Rattle.verdict.specs.Rules.{first_broken};
ghost use Rattle.window_rules.specs.Control.{greatest};

use crate::signals::{at_moment, recovery_signal};
use case_forms::{RecoveryChange, Version};
use spec_tcp::Endpoint;
use verdict::Rule;
use window_rules::GREATEST_WINDOW;

/// Whether fast recovery may begin at an endpoint, with this congestion window and slow start threshold (in bytes), or
/// be undone. From version 6 on, it may begin without duplicates, and the model doesn't ask why it is undone. The error
/// is the first rule that is broken.
pub fn admits_recovery(
    version: Version,
    endpoint: &Endpoint,
    change: RecoveryChange,
    cwnd: u32,
    ssthresh: u32,
    moment: u64,
) -> Result<(), Rule>
    ensures { result_err result ≡ first_broken (recovery_rules version endpoint.now change cwnd ssthresh moment) }
{
    if endpoint.state.is_closed() {
        return Err(Rule::NoEndpoint);
    }
    if !endpoint.is_up() {
        return Err(Rule::State);
    }
    if is_bad_change(version, endpoint, change, cwnd, ssthresh, moment) {
        return Err(Rule::Recovery);
    }
    Ok(())
}

// In versions 1 to 5, none is undone.
fn is_bad_change(
    version: Version,
    endpoint: &Endpoint,
    change: RecoveryChange,
    cwnd: u32,
    ssthresh: u32,
    moment: u64,
) -> bool
    ensures { result ≡ is_bad_change version endpoint.now change cwnd ssthresh moment }
{
    match change {
        RecoveryChange::Begins => is_bad_recovery(version, endpoint, cwnd, ssthresh, moment),
        RecoveryChange::IsUndone => !version.says_sender(),
    }
}

fn is_bad_recovery(
    version: Version,
    endpoint: &Endpoint,
    cwnd: u32,
    ssthresh: u32,
    moment: u64,
) -> bool
    ensures { result ≡ is_bad_recovery version endpoint.now cwnd ssthresh moment }
{
    let greatest = greatest_recovery(endpoint, ssthresh, moment);
    !(version.says_sender() || endpoint.control.may_recover())
        || endpoint.stream.snd_una == endpoint.snd_max()
        || greatest.1 < ssthresh as u64
        || greatest.0 < cwnd as u64
}

/// The greatest congestion window and slow start threshold with which fast recovery may begin at a moment in
/// microseconds, all in bytes (RFC 5681, 3.2, steps 2 to 4). The window is the one for this chosen threshold.
pub fn greatest_recovery(endpoint: &Endpoint, ssthresh: u32, moment: u64) -> (u64, u64)
    ensures { result ≡ greatest endpoint.now.control (recovery_signal endpoint.now ssthresh)
        (at_moment endpoint.now moment) }
{
    let signal = recovery_signal(endpoint, ssthresh);
    endpoint
        .control
        .greatest(signal, at_moment(endpoint, moment))
}

/// The greatest pair with which fast recovery may begin at a moment in microseconds, in bytes: the congestion window,
/// for the greatest slow start threshold, and that threshold.
pub fn greatest_at_recovery(endpoint: &Endpoint, moment: u64) -> (u64, u64)
    ensures { result ≡ greatest_at_recovery endpoint.now moment }
{
    let ssthresh = greatest_recovery(endpoint, 0, moment)
        .1
        .min(GREATEST_WINDOW);
    (
        greatest_recovery(endpoint, ssthresh as u32, moment).0,
        ssthresh,
    )
}

/// Fast recovery begins: the congestion window and the slow start threshold become these, in bytes, and all that was
/// sent may be retransmitted (RFC 5681, 3.2, steps 2 and 3). Undoing it changes nothing.
pub fn recover(
    endpoint: &mut Endpoint,
    change: RecoveryChange,
    cwnd: u32,
    ssthresh: u32,
    moment: u64,
)
    requires { HasRoom endpoint.old }
    ensures { endpoint.new ≡ forget_endpoint (after_recovery endpoint.old change cwnd ssthresh moment) }
{
    match change {
        RecoveryChange::Begins => {
            let signal = recovery_signal(endpoint, ssthresh);
            let control = endpoint
                .control
                .after(signal, at_moment(endpoint, moment), cwnd, ssthresh);
            endpoint.recover = endpoint.snd_max();
            endpoint.control = control;
        }
        RecoveryChange::IsUndone => {}
    }
}
