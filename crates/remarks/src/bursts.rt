//! What is retransmitted at once after an expiry of the retransmission timer, beyond the loss window. An expiry leaves
//! a congestion window of one segment until something new is acknowledged (RFC 5681, 3.1).

use crate::found::{Found, Lines, Stretch, Who};
use crate::notes::{Note, Permit, Permits};
use crate::sendings::Sending;
use crate::waits::Now;
use case_forms::{OutOfMemory, SegmentPlan};
use spec_tcp::Endpoint;

/// What an endpoint retransmits after one permit.
#[derive(Clone, Copy)]
pub(crate) struct Burst {
    who: Who,
    permits: Permits,
    /// The bytes beyond the loss window, and the lines that show them.
    beyond: Option<(Stretch, Lines)>,
}

impl Burst {
    // The burst with one more segment, which has these bytes beyond the loss window.
    fn longer(mut self, bytes: Stretch, line: u64) -> Burst {
        let (before, Lines(first, _)) = self.beyond.unwrap_or((bytes, Lines(line, line)));
        let bytes = Stretch {
            first: bytes.first.min(before.first),
            end: bytes.end.max(before.end),
        };
        self.beyond = Some((bytes, Lines(first, line)));
        self
    }

    /// Remarks on the bytes beyond the loss window, if there are any and no rule judges them.
    pub(crate) fn say(&self, found: &mut Found) -> Result<(), OutOfMemory> {
        let Some((bytes, lines)) = self.beyond else {
            return Ok(());
        };
        if found.covered.windows {
            return Ok(());
        }
        let beyond = "beyond the loss window of one segment (RFC 5681, 3.1)";
        let what = &format_args!("{bytes} {}, {beyond}", self.permits.last);
        found.add_at(lines, self.who, "retransmits", what)
    }
}

impl Note {
    /// Takes a retransmission. Returns the burst before it, if that has come to an end. The first one after a permit
    /// may be any segment: the lines may lack what it was sent for.
    pub(crate) fn count_burst(&mut self, sending: &Sending, now: Now) -> Option<Burst> {
        let (who, permits) = (now.who, sending.permits);
        match self.burst {
            Some(burst) if burst.permits.count == permits.count => {
                if let Some(bytes) = sending.beyond {
                    self.burst = Some(burst.longer(bytes, now.line));
                }
                None
            }
            ended => {
                self.burst = Some(Burst {
                    who,
                    permits,
                    beyond: None,
                });
                ended
            }
        }
    }
}

/// The bytes of a segment beyond the loss window of the last expiry. None: there are none, it begins with the oldest
/// position that is not acknowledged, or something arrived since the endpoint last sent, which it may answer.
pub(crate) fn beyond_loss_window(
    endpoint: &Endpoint,
    plan: &SegmentPlan,
    note: &Note,
) -> Option<Stretch> {
    let una = endpoint.stream.snd_una;
    let is_expired = matches!(note.permits.last, Permit::Rto(_)) && note.expired_at == una;
    if !is_expired || note.heard || plan.pos <= una {
        return None;
    }
    let edge = una.saturating_add(u64::from(endpoint.control.values.smss));
    let end = plan.pos.saturating_add(u64::from(plan.len));
    Stretch::up_to(plan.pos, end)?.within(edge, u64::MAX)
}
