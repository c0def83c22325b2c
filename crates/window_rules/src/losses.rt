//! What a loss does to the congestion window and the slow start threshold (RFC 5681, 3.1 and 3.2). `flight` is the
//! number of outstanding bytes.

ghost use Rattle.std.specs.Prelude.{◌≡◌, ◌≤◌};
ghost use Rattle.window_rules.specs.Windows.{greatest_window};
ghost use Rattle.window_rules.specs.Losses.{halved, on_timeout, recovery_window, on_fast};

use crate::congestion::Congestion;
use crate::windows::capped;

/// The greatest cwnd and ssthresh in bytes after an expiry of the retransmission timer: one segment, and half of the
/// flight or two segments. `syn_pending` means that the SYN is not acknowledged, `again` that the timer expired before
/// and nothing new was acknowledged since: both keep the old ssthresh.
pub fn on_timeout(
    congestion: &Congestion,
    flight: u64,
    syn_pending: bool,
    again: bool,
) -> (u64, u64)
    ensures greatest { result ≡ on_timeout congestion.now flight syn_pending again }
    ensures cwnd_limit { result.0 ≤ greatest_window }
    ensures ssthresh_limit { result.1 ≤ greatest_window }
{
    let cwnd = capped(congestion.smss as u64);
    if syn_pending || again {
        (cwnd, capped(congestion.ssthresh as u64))
    } else {
        (cwnd, halved(congestion, flight))
    }
}

/// The greatest cwnd and ssthresh in bytes if fast recovery begins; the cwnd is the one for the greatest ssthresh.
pub fn on_fast(congestion: &Congestion, flight: u64) -> (u64, u64)
    ensures greatest { result ≡ on_fast congestion.now flight }
    ensures cwnd_limit { result.0 ≤ greatest_window }
    ensures ssthresh_limit { result.1 ≤ greatest_window }
{
    let ssthresh = halved(congestion, flight);
    (recovery_window(congestion, ssthresh as u32), ssthresh)
}

/// The greatest cwnd in bytes if fast recovery begins with this ssthresh: a segment more for each duplicate
/// acknowledgment.
pub fn recovery_window(congestion: &Congestion, ssthresh: u32) -> u64
    ensures greatest { result ≡ recovery_window congestion.now ssthresh }
    ensures limit { result ≤ greatest_window }
{
    capped(ssthresh as u64 + congestion.dup as u64 * congestion.smss as u64)
}

fn halved(congestion: &Congestion, flight: u64) -> u64
    ensures value { result ≡ halved congestion.now flight }
    ensures limit { result ≤ greatest_window }
{
    capped((flight / 2).max(2 * congestion.smss as u64))
}
