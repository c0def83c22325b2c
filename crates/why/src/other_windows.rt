//! If `congestion` or `offered` refuses a segment: the windows with other rules that it would fit. They are kept for
//! one endpoint while a case is replayed, in constant time for each segment sent or acknowledged.

use crate::arrivals::acknowledges_more;
use crate::changes::{Change, Values, grown};
use crate::loss_windows::LossWindows;
use crate::scene::{Object, Scene};
use crate::segment_window::SegmentWindow;
use case_forms::{Host, Label, OutOfMemory, POSITIONS, Step};
use endpoint_state::{Endpoint, World};
use plain_words::{Known, Sheet};
use replayed::end_of;
use spec_tcp::Arrived;
use std::alloc::Global;
use verdict::Rule;
use window_rules::{Congestion, SlowStart, congestion_edge, on_duplicate};

/// Other windows of the endpoint that builds the segment of a step.
#[derive(Drop)]
pub(crate) struct OtherWindows {
    host: Host,
    lport: u16,
    rport: u16,
    /// The endpoint's values before the next step.
    now: Values,
    /// The moment of the last step that sent or acknowledged something, in microseconds.
    moved: u64,
    /// The greatest window if slow start adds SMSS bytes for each acknowledgment of new data, in bytes (RFC 5681, 3.1).
    upper: Congestion,
    segments: SegmentWindow,
    losses: LossWindows,
    /// SND.WND if any new acknowledgment updates it, even if SND.WL1 is greater (Linux).
    latest: u32,
    /// SND.WND, SND.WL1 and SND.WL2 of the endpoint.
    offered: (u32, u64, u64),
}

// SND.WND, SND.WL1 and SND.WL2.
fn offered_to(endpoint: &Endpoint) -> (u32, u64, u64) {
    let window = &endpoint.window;
    (window.snd_wnd, window.snd_wl1, window.snd_wl2)
}

impl OtherWindows {
    /// The windows for a step. None: it builds no segment.
    pub(crate) fn from_step(alloc: Global, step: Option<&Step>) -> Option<OtherWindows> {
        let Label::M { host, plan } = &step?.label else {
            return None;
        };
        let congestion = Congestion::start();
        Some(OtherWindows {
            host: *host,
            lport: plan.lport,
            rport: plan.rport,
            now: Values {
                una: 0,
                sent: 0,
                backoffs: 0,
                congestion,
                ready: 0,
            },
            moved: 0,
            upper: congestion,
            segments: SegmentWindow::new(alloc),
            losses: LossWindows::new(),
            latest: 0,
            offered: (0, 0, 0),
        })
    }

    /// Notes the window of a segment, before the step that processes it.
    pub(crate) fn note(&mut self, world: &World, step: &Step) {
        if let Some(window) = self.acknowledging_window(world, step) {
            self.latest = window;
        }
    }

    // The window, in bytes, of the new acknowledgment that the endpoint processes. None: the step does something else.
    fn acknowledging_window(&self, world: &World, step: &Step) -> Option<u32> {
        let Label::T { host, line, .. } = &step.label else {
            return None;
        };
        let m = world.waiting(*host, *line)?;
        if *host != self.host || m.rport != self.lport || m.lport != self.rport {
            return None;
        }
        let endpoint = world.body(*host).endpoint_of(m.rport, m.lport)?;
        let m = Arrived::checked_read(world.header().version, endpoint, m)?;
        acknowledges_more(endpoint, &m).then_some(endpoint.peer_window(&m))
    }

    /// Follows the world after one step, which has this moment.
    pub(crate) fn follow(&mut self, world: &World, moment: u64) -> Result<(), OutOfMemory> {
        let Some(endpoint) = world.body(self.host).endpoint_of(self.lport, self.rport) else {
            return Ok(());
        };
        let after = Values::new(endpoint);
        let change = self.now.change(&after);
        self.segments.follow(change, &self.now, &after)?;
        if matches!(change, Change::Acknowledged(_)) && self.waits(world, moment) {
            self.losses = self.losses.without_fitting(&self.now);
        }
        let slow = endpoint.control.profile.slow_start();
        self.losses = self.losses.after(change, &self.now, &after, slow);
        self.upper = self.upper_after(change, &after);
        if self.now.una != after.una || self.now.sent != after.sent {
            self.moved = moment;
        }
        self.now = after;
        let offered = offered_to(endpoint);
        if self.offered != offered {
            self.offered = offered;
            self.latest = offered.0;
        }
        Ok(())
    }

    // Whether a segment of SMSS bytes waits at a moment although the stack had the time to send it.
    fn waits(&self, world: &World, moment: u64) -> bool {
        let slack = world.header().slack.unwrap_or(0);
        self.moved.saturating_add(slack) < moment && self.now.next_end() <= self.now.ready
    }

    // The upper window after a step. Only its growth differs from the endpoint's own.
    fn upper_after(&self, change: Change, after: &Values) -> Congestion {
        let was = Congestion {
            cwnd: self.upper.cwnd,
            counted: self.upper.counted,
            ..self.now.congestion
        };
        match change {
            Change::Begins | Change::Timeout | Change::Recovery => after.congestion,
            Change::Acknowledged(acked) => {
                let Congestion { cwnd, counted, .. } = grown(SlowStart::Permitted, &was, acked);
                Congestion {
                    cwnd,
                    counted,
                    ..after.congestion
                }
            }
            Change::Duplicate => Congestion {
                cwnd: on_duplicate(&was) as u32,
                ..was
            },
            Change::Other => was,
        }
    }

    /// The cwnd, in bytes, of a stack that leaves out a change at a loss, if a segment up to this position fits it.
    pub(crate) fn fitting(&self, known: Known, end: u64) -> Option<u32> {
        let (una, now) = (self.now.una, self.now.congestion);
        let cwnd = self.losses.greater(&now, known)?;
        if una < POSITIONS && end <= congestion_edge(una, &Congestion { cwnd, ..now }) {
            Some(cwnd)
        } else {
            None
        }
    }
}

/// Writes which other windows the segment of the step would fit; nothing if there are none. A segment of more than SMSS
/// bytes fits none.
pub(crate) fn say_fitting(out: &mut Sheet, scene: &Scene, rule: Rule) {
    match (scene.object(), scene.others) {
        (Object::Building(it), Some(others)) if rule == Rule::Offered => {
            fits_latest(out, others, end_of(it.plan));
        }
        (Object::Building(it), Some(others))
            if rule == Rule::Congestion && u32::from(it.plan.len) <= others.now.congestion.smss => {
            if it.endpoint.control.profile.slow_start() == SlowStart::Recommended {
                fits_upper(out, others, end_of(it.plan));
            }
            fits_after_loss(out, others, end_of(it.plan));
            fits_segments(out, others);
        }
        _ => {}
    }
}

fn fits_latest(out: &mut Sheet, others: &OtherWindows, end: u64) {
    let latest = others.latest;
    if end <= others.now.una.saturating_add(u64::from(latest)) {
        out.say(
            "it would fit the window {} of the last new acknowledgment (Linux). RFC 9293, 3.10.7.4, doesn't \
use that: SND.WL1 is greater\n",
            &[u64::from(latest)],
        );
    }
}

fn fits_upper(out: &mut Sheet, others: &OtherWindows, end: u64) {
    let (una, cwnd) = (others.now.una, others.upper.cwnd);
    let window = Congestion {
        cwnd,
        ..others.now.congestion
    };
    if una < POSITIONS && end <= congestion_edge(una, &window) {
        out.say(
            "it would fit if slow start added one SMSS for each acknowledgment, with cwnd {}. RFC 5681, 3.1, \
and version 5 allow that; this version allows min(N, SMSS)\n",
            &[u64::from(cwnd)],
        );
    }
}

// What a stack may leave out at a loss.
const LEFT_OUT: [(Known, &str); 3] = [
    (
        Known::NotDeflated,
        "the end of fast recovery hadn't set cwnd to ssthresh",
    ),
    (Known::ThresholdKept, "no loss had set ssthresh"),
    (Known::NotReduced, "the expiry hadn't reduced cwnd"),
];

fn fits_after_loss(out: &mut Sheet, others: &OtherWindows, end: u64) {
    for (known, what) in &LEFT_OUT {
        if let Some(cwnd) = others.fitting(*known, end) {
            out.put("it would fit if ");
            out.put(what);
            out.say(", with cwnd {}\n", &[u64::from(cwnd)]);
        }
    }
}

fn fits_segments(out: &mut Sheet, others: &OtherWindows) {
    let flight = others.segments.flight().saturating_add(1);
    let allowed = others.segments.allowed(&others.now);
    if flight <= allowed {
        out.say(
            "it would fit a window that counts segments (Linux): {} are in flight with this one, and the \
window would be {}\n",
            &[flight, allowed],
        );
    }
}
