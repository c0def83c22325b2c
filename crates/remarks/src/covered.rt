//! Which remarks rules 40 to 52 make needless. They are left out if the header has a slack, so that these rules are
//! judged: what they permit is no remark then, and what they refuse is a no.
//!
//! | remark | rule that judges it |
//! |---|---|
//! | drops an acceptable segment | `dropped` |
//! | processes a segment but discards what is next in order | `discarded` |
//! | sends a segment long after building it | `send-late` |
//! | sends nothing, and its timer is overdue | `expiry-late`, `resend-late`, `probe-late` |
//! | sends nothing while bytes wait | `start-late` |
//! | retransmits several times after one expiry, or without back-off | `resent`, unless it is a SYN with ACK |
//! | retransmits beyond the loss window | `resent-beyond` |
//!
//! By `resent`, each retransmission needs an expiry of its own, and `timer-early` requires the back-off of that. At the
//! level `none` it isn't judged, and `resent-beyond` only at `full`. `process-late`, `ack-late` and `reset-late` judge
//! what no remark says. These remarks stay, since no rule says what they say:
//!
//! - a segment beyond a gap is discarded, or bytes beyond the window are kept
//! - equal acknowledgments: `ack-excess` permits one for each segment, and these are counted against those that asked
//! - SACK blocks are missing, or the first one reports nothing of what came last
//! - a reset follows a reset, or a SYN is given up early
//! - what is left at the end, except timers and open windows

use case_forms::{Header, Judged};

/// Which rules of duties and limits judge a case.
#[derive(Clone, Copy)]
pub(crate) struct Covered {
    /// Those that are judged at each level.
    pub duties: bool,
    /// `resent`.
    pub repeats: bool,
    /// `resent-beyond`.
    pub windows: bool,
}

impl Covered {
    /// What is judged with a header.
    pub(crate) fn by(header: &Header) -> Covered {
        let duties = header.slack.is_some();
        let (repeats, windows) = match header.congestion {
            Judged::Full => (true, true),
            Judged::Recovery => (true, false),
            Judged::NoControl => (false, false),
        };
        Covered {
            duties,
            repeats: duties && repeats,
            windows: duties && windows,
        }
    }
}
