//! How far new data may reach, and the first congestion window. Positions and windows count bytes.

ghost use Rattle.std.specs.Prelude.{◌≡◌, ◌+◌, ◌≤◌, ◌<◌, ◌^◌};
ghost use Rattle.window_rules.specs.Windows.{greatest_window, capped, offered_edge, limited_transmit, congestion_edge};
ghost use Rattle.window_rules.specs.Windows.{initial_window, initial_window_6928, scaled_window};

use crate::congestion::Congestion;

/// The greatest congestion window and slow start threshold, in bytes.
pub const GREATEST_WINDOW: u64 = 4_294_967_295;

/// The position at which new data ends at most, given the window of `wnd` bytes that the peer offers from position
/// `una` on, which is below 2^63; a byte later if that window is 0 and a probe is due (RFC 9293, 3.8.6 and 3.8.6.1).
pub fn offered_edge(una: u64, wnd: u32, probe: bool) -> u64
    requires { una < 2 ^ 63 }
    ensures { result ≡ offered_edge una wnd probe }
{
    let probed = if wnd == 0 && probe { 1 } else { 0 };
    una + wnd as u64 + probed
}

/// The position at which new data ends at most, given the congestion window from position `una` on, which is below
/// 2^63; two segments later at the first and the second duplicate acknowledgment, outside fast recovery (RFC 5681, 3.1
/// and 3.2).
pub fn congestion_edge(una: u64, congestion: &Congestion) -> u64
    requires { una < 2 ^ 63 }
    ensures value { result ≡ congestion_edge una congestion.now }
    ensures small { result < una + 2 ^ 35 }
{
    una + congestion.cwnd as u64 + limited_transmit(congestion)
}

/// The greatest cwnd in bytes once the SYN is acknowledged: two to four segments of `smss` bytes, one if a SYN was lost
/// (RFC 5681, 3.1).
pub fn initial_window(smss: u32, syn_lost: bool) -> u64
    ensures greatest { result ≡ initial_window smss syn_lost }
    ensures limit { result ≤ greatest_window }
{
    let smss = smss as u64;
    let window = if syn_lost {
        smss
    } else if 2190 < smss {
        2 * smss
    } else if 1095 < smss {
        3 * smss
    } else {
        4 * smss
    };
    capped(window)
}

/// The same by RFC 6928, 2: ten segments, at most 14600 bytes, or two segments if these are more. Lost SYNs don't
/// matter.
pub fn initial_window_6928(smss: u32) -> u64
    ensures greatest { result ≡ initial_window_6928 smss }
    ensures limit { result ≤ greatest_window }
{
    let smss = smss as u64;
    capped((10 * smss).min((2 * smss).max(14_600)))
}

/// The bytes of a window, by its shift; a shift above 14 is read as 14 (RFC 7323, 2.2 and 2.3).
pub fn scaled_window(window: u16, shift: u8) -> u32
    ensures value { result ≡ scaled_window window shift }
    ensures small { result < 2 ^ 30 }
{
    u32::from(window) << shift.min(14)
}

/// A window in bytes, or the greatest window if that is less.
pub(crate) fn capped(window: u64) -> u64
    ensures value { result ≡ capped window }
    ensures limit { result ≤ greatest_window }
{
    window.min(GREATEST_WINDOW)
}

fn limited_transmit(congestion: &Congestion) -> u64
    ensures value { result ≡ limited_transmit congestion.now }
    ensures small { result < 2 ^ 34 }
{
    if !congestion.fast && (congestion.dup == 1 || congestion.dup == 2) {
        2 * congestion.smss as u64
    } else {
        0
    }
}
