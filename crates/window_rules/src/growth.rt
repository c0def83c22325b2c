//! What an acknowledgment does to the congestion window (RFC 5681, 3.1 and 3.2). Windows count bytes.

ghost use Rattle.std.specs.Prelude.{◌≡◌, ◌+◌, ◌-◌, ◌*◌, ◌≤◌, ◌<◌, ◌^◌};
ghost use Rattle.window_rules.specs.Windows.{greatest_window};
ghost use Rattle.window_rules.specs.Growth.{slow_start, fills_window, increment, avoidance, growth, may_grow};
ghost use Rattle.window_rules.specs.Growth.{is_avoiding, counted_after, on_duplicate};

use crate::congestion::Congestion;
use crate::windows::capped;

/// How many bytes slow start may add to cwnd for each new acknowledgment (RFC 5681, 3.1).
#[derive(Clone, Copy)]
pub enum SlowStart {
    /// What the RFC recommends: as many as are newly acknowledged, at most SMSS (equation 2).
    Recommended,
    /// What it permits: SMSS, however few are acknowledged.
    Permitted,
}

/// The greatest cwnd in bytes after an acknowledgment of `acked` new positions, not counting the SYN; ssthresh if it
/// ends fast recovery. Which slow start applies depends on the version, which no other argument shows.
pub fn may_grow(slow: SlowStart, congestion: &Congestion, acked: u64) -> u64
    ensures greatest { result ≡ may_grow slow congestion.now acked }
    ensures limit { result ≤ greatest_window }
{
    if congestion.fast {
        return capped(congestion.ssthresh as u64);
    }
    capped(growth(slow, congestion, acked))
}

/// How many bytes are counted after an acknowledgment of `acked` new positions, not counting the SYN. Both counts are
/// below 2^63.
pub fn counted_after(congestion: &Congestion, acked: u64) -> u64
    requires acked { acked < 2 ^ 63 }
    requires counted { congestion.now.counted < 2 ^ 63 }
    ensures value { result ≡ counted_after congestion.now acked }
    ensures limit { result ≤ congestion.now.counted + acked }
{
    if congestion.fast || congestion.cwnd < congestion.ssthresh {
        return congestion.counted;
    }
    let counted = congestion.counted + acked;
    if fills_window(congestion, acked) {
        counted - congestion.cwnd as u64
    } else {
        counted
    }
}

/// The greatest cwnd in bytes after a duplicate acknowledgment: a segment more in fast recovery.
pub fn on_duplicate(congestion: &Congestion) -> u64
    ensures greatest { result ≡ on_duplicate congestion.now }
    ensures limit { result ≤ greatest_window }
{
    let cwnd = congestion.cwnd as u64;
    capped(if congestion.fast {
        cwnd + congestion.smss as u64
    } else {
        cwnd
    })
}

fn growth(slow: SlowStart, congestion: &Congestion, acked: u64) -> u64
    ensures { result ≡ growth slow congestion.now acked }
{
    let starting = slow_start(slow, congestion, acked);
    let avoiding = avoidance(congestion, acked);
    if congestion.cwnd < congestion.ssthresh {
        starting
    } else if congestion.ssthresh < congestion.cwnd {
        avoiding
    } else {
        starting.max(avoiding)
    }
}

fn slow_start(slow: SlowStart, congestion: &Congestion, acked: u64) -> u64
    ensures { result ≡ slow_start slow congestion.now acked }
{
    let segment = congestion.smss as u64;
    let added = match slow {
        SlowStart::Recommended => acked.min(segment),
        SlowStart::Permitted => segment,
    };
    congestion.cwnd as u64 + added
}

fn avoidance(congestion: &Congestion, acked: u64) -> u64
    ensures { result ≡ avoidance congestion.now acked }
{
    let added = if fills_window(congestion, acked) {
        congestion.smss as u64
    } else {
        increment(congestion)
    };
    congestion.cwnd as u64 + added
}

fn fills_window(congestion: &Congestion, acked: u64) -> bool
    ensures { result ≡ fills_window congestion.now acked }
{
    (congestion.cwnd as u64).saturating_sub(acked) <= congestion.counted
}

fn increment(congestion: &Congestion) -> u64
    ensures value { result ≡ increment congestion.now }
    ensures small { result ≤ (2 ^ 32 - 1) * (2 ^ 32 - 1) }
{
    let smss = congestion.smss as u64;
    let cwnd = congestion.cwnd.max(1) as u64;
    (smss * smss / cwnd).max(1)
}
