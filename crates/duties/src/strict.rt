//! The duties that are stricter in version 6, or have later deadlines.
//! `lib.rt` says why each function here is inlined.

ghost use Rattle.std.specs.Prelude.{◌≡◌, ◌*◌, ◌^◌, min, if◌then◌else◌};
ghost use Rattle.spec_duties.specs.Strict.{answered_after, answered_often, asks_strictly, brought_by};
ghost use Rattle.spec_duties.specs.Strict.{earlier_of, given_back, is_sent_before_text, sends_keep_alive};
ghost use Rattle.spec_duties.specs.Strict.{builds_answer, clock_error, coarse_expiry_due, coarse_probing_due};
ghost use Rattle.spec_duties.specs.Strict.{doubled_error, is_fin_alone, is_spared, longest_coarse_run};
ghost use Rattle.spec_duties.specs.Strict.{next_coarse_probe_due, nothing_strict, opens, rebuilds_oldest};
ghost use Rattle.spec_duties.specs.Strict.{restarted_after, sends_oldest_or_probe, sends_probe, strict_after};
ghost use Rattle.spec_duties.specs.Strict.{strict_lates, strict_probe_after, strict_retransmit_after, taken_over};
ghost use Rattle.spec_duties.specs.Strict.{unbuilt_answer_after, with_brought};

use crate::acknowledge::{acknowledge_due, answered_lately, asks_ack};
use crate::credits::kept_alive_after;
use crate::deadlines::{is_late, is_late_at_once};
use crate::expire::has_expiry_due;
use crate::owed::lates_of;
use crate::probe::is_probing_segment;
use crate::resent::making_length;
use crate::retransmit::{acknowledges_more, holds, is_probe_timeout, is_timeout};
use crate::sampling::timed_after;
use case_forms::{SegmentPlan, State};
use spec_duties::{
    Event, Lates, Owed, Probing, Sampling, StrictOwed, TouchedEndpoint, Unsent, View,
};
use timer_rules::LONGEST_RTO;

/// Before any step touches an endpoint.
#[inline(always)]
pub(crate) fn nothing_strict() -> StrictOwed
    ensures { result ≡ nothing_strict }
{
    StrictOwed {
        acknowledge: None,
        retransmit: None,
        probe: None,
        restarted: 0,
        timed: 0,
        widest: 0,
        answered: [None; 10],
        kept_alive: None,
    }
}

#[inline(always)]
fn builds_answer(event: &Event) -> bool
    ensures { result ≡ builds_answer event.now }
{
    match event {
        Event::Builds(plan) => plan.flags.ack || plan.flags.rst,
        Event::Opens
        | Event::Calls { .. }
        | Event::Processes { .. }
        | Event::Drops { .. }
        | Event::Sends(_)
        | Event::Expires(_)
        | Event::Recovers(_) => false,
    }
}

/// The time in which stacks may limit themselves to ten answers, in microseconds (RFC 5961, 7).
const RATE_PERIOD: u64 = 5_000_000;

// Whether an endpoint sent ten segments with ACK in that time.
#[inline(always)]
fn answered_often(moment: u64, answered: &[Option<u64>; 10]) -> bool
    ensures { result ≡ answered_often moment answered.now }
{
    match answered[9] {
        Some(m) => moment as u128 <= m as u128 + RATE_PERIOD as u128,
        None => false,
    }
}

// When an endpoint sent its last ten segments with ACK, after a step.
#[inline(always)]
fn answered_after(event: &Event, moment: u64, answered: [Option<u64>; 10]) -> [Option<u64>; 10]
    ensures { result ≡ answered_after event.now moment answered }
{
    match event {
        Event::Sends(sending) => {
            if sending.flags.ack {
                let [a, b, c, d, e, f, g, h, i, _] = answered;
                [Some(moment), a, b, c, d, e, f, g, h, i]
            } else {
                answered
            }
        }
        Event::Opens
        | Event::Calls { .. }
        | Event::Processes { .. }
        | Event::Drops { .. }
        | Event::Builds(_)
        | Event::Expires(_)
        | Event::Recovers(_) => answered,
    }
}

// Whether a step makes an acknowledgment due.
#[inline(always)]
fn asks_strictly(
    event: &Event,
    state: State,
    moment: u64,
    acknowledged: Option<u64>,
    answered: &[Option<u64>; 10],
) -> bool
    ensures { result ≡ asks_strictly event.now state moment acknowledged answered.now }
{
    match event {
        Event::Drops { asks, unlimited } => {
            *asks
                && (*unlimited
                    || !(answered_lately(moment, acknowledged) || answered_often(moment, answered)))
        }
        Event::Opens
        | Event::Calls { .. }
        | Event::Processes { .. }
        | Event::Builds(_)
        | Event::Sends(_)
        | Event::Expires(_)
        | Event::Recovers(_) => asks_ack(event, state, moment, acknowledged),
    }
}

// Since when an acknowledgment is owed for which no segment was built, after a step.
#[inline(always)]
fn unbuilt_answer_after(
    event: &Event,
    before: &View,
    moment: u64,
    acknowledged: Option<u64>,
    owed: &StrictOwed,
) -> Option<u64>
    ensures { result ≡ unbuilt_answer_after event.now before.now moment acknowledged owed.now.answered
        owed.now.acknowledge }
{
    let since = owed.acknowledge;
    if builds_answer(event) {
        None
    } else if asks_strictly(event, before.state, moment, acknowledged, &owed.answered) {
        since.or(Some(moment))
    } else {
        since
    }
}

/// Since when the acknowledgment is owed that a segment takes over which is built now.
#[inline(always)]
pub(crate) fn taken_over(event: &Event, since: Option<u64>) -> Option<u64>
    ensures { result ≡ taken_over event.now since }
{
    if builds_answer(event) { since } else { None }
}

/// Since when the acknowledgment is owed that a segment brings which is sent. None: it brings none.
#[inline(always)]
pub(crate) fn brought_by(sent: &Option<Unsent>) -> Option<u64>
    ensures { result ≡ brought_by sent.now }
{
    match sent {
        Some(unsent) => unsent.acknowledge,
        None => None,
    }
}

// Whether the segment that is sent is a keep-alive.
#[inline(always)]
fn sends_keep_alive(sent: &Option<Unsent>) -> bool
    ensures { result ≡ sends_keep_alive sent.now }
{
    match sent {
        Some(unsent) => unsent.keeps_alive,
        None => false,
    }
}

#[inline(always)]
fn is_sent_before_text(event: &Event) -> bool
    ensures { result ≡ is_sent_before_text event.now }
{
    match event {
        Event::Sends(sending) => sending.before_text,
        Event::Opens
        | Event::Calls { .. }
        | Event::Processes { .. }
        | Event::Drops { .. }
        | Event::Builds(_)
        | Event::Expires(_)
        | Event::Recovers(_) => false,
    }
}

#[inline(always)]
fn earlier_of(a: Option<u64>, b: Option<u64>) -> Option<u64>
    ensures { result ≡ earlier_of a b }
{
    match (a, b) {
        (None, b) => b,
        (Some(a), None) => Some(a),
        (Some(a), Some(b)) => Some(a.min(b)),
    }
}

// Since when the endpoint owes an acknowledgment, if it owes again what the segment took over which is sent: its line
// shows the number from before the text.
#[inline(always)]
fn given_back(event: &Event, brought: Option<u64>, since: Option<u64>) -> Option<u64>
    ensures { result ≡ given_back event.now brought since }
{
    if is_sent_before_text(event) {
        earlier_of(brought, since)
    } else {
        since
    }
}

/// Whether a segment that is built need not be sent.
#[inline(always)]
pub(crate) fn is_spared(event: &Event, before: &View) -> bool
    ensures { result ≡ is_spared event.now before.now }
{
    match event {
        Event::Builds(plan) => plan.flags.rst && before.state.is_time_wait(),
        Event::Opens
        | Event::Calls { .. }
        | Event::Processes { .. }
        | Event::Drops { .. }
        | Event::Sends(_)
        | Event::Expires(_)
        | Event::Recovers(_) => false,
    }
}

#[inline(always)]
fn is_fin_alone(plan: &SegmentPlan, v: &View) -> bool
    ensures { result ≡ is_fin_alone plan.now v.now }
{
    plan.flags.fin && plan.len == 0 && plan.pos < v.snd_max
}

// Whether a segment is built that holds the oldest unacknowledged position, which was built before.
#[inline(always)]
fn rebuilds_oldest(event: &Event, v: &View) -> bool
    ensures { result ≡ rebuilds_oldest event.now v.now }
{
    match event {
        Event::Builds(plan) => {
            v.snd_una < v.snd_max
                && plan.pos <= v.snd_una
                && v.snd_una - plan.pos < making_length(plan)
                && !is_fin_alone(plan, v)
        }
        Event::Opens
        | Event::Calls { .. }
        | Event::Processes { .. }
        | Event::Drops { .. }
        | Event::Sends(_)
        | Event::Expires(_)
        | Event::Recovers(_) => false,
    }
}

// Whether the offered window opens.
#[inline(always)]
fn opens(before: &View, after: &View) -> bool
    ensures { result ≡ opens before.now after.now }
{
    before.snd_wnd == 0 && 0 < after.snd_wnd
}

// When the retransmission timer last got its whole time again, after a step.
#[inline(always)]
fn restarted_after(event: &Event, before: &View, after: &View, moment: u64, restarted: u64) -> u64
    ensures { result ≡ restarted_after event.now before.now after.now moment restarted }
{
    if rebuilds_oldest(event, before) || opens(before, after) {
        moment
    } else {
        restarted
    }
}

// By how much a timeout is too long at most, with a clock of this granularity in microseconds.
#[inline(always)]
fn clock_error(grain: u64) -> u128
    ensures { result ≡ clock_error grain }
{
    5 * grain as u128
}

// The same after the timeout was doubled so often.
#[inline(always)]
fn doubled_error(grain: u64, backoffs: u32) -> u128
    ensures { result ≡ doubled_error grain backoffs }
{
    clock_error(grain) << backoffs.min(26)
}

#[inline(always)]
fn longest_coarse_run(grain: u64, v: &View) -> u128
    ensures { result ≡ longest_coarse_run grain v.now }
{
    if v.timers.srtt.is_some() {
        (v.timers.rto as u128 + doubled_error(grain, v.backoffs)).min(LONGEST_RTO as u128)
    } else {
        3 * v.timers.rto as u128
    }
}

/// By when the retransmission timer has to expire in version 6, in microseconds, with a clock of this granularity, if
/// it last got its whole time again at this moment. None: there is no such deadline.
#[inline(always)]
pub fn coarse_expiry_due(grain: u64, v: &View, restarted: u64) -> Option<u128>
    ensures { result ≡ coarse_expiry_due grain v.now restarted }
{
    if !has_expiry_due(v) {
        return None;
    }
    match v.timers.rto_armed {
        Some(since) => Some(since.max(restarted) as u128 + longest_coarse_run(grain, v)),
        None => None,
    }
}

#[inline(always)]
fn next_coarse_probe_due(grain: u64, rto: u64, probing: Probing) -> Option<u128>
    ensures { result ≡ next_coarse_probe_due grain rto probing }
{
    let factor = probing.factor as u128;
    if (rto as u128 * factor) < LONGEST_RTO as u128 {
        Some(probing.since as u128 + (rto as u128 + clock_error(grain)) * factor)
    } else {
        None
    }
}

/// By when the next probe is due in version 6, in microseconds, with a clock of this granularity. None: none is.
#[inline(always)]
pub fn coarse_probing_due(grain: u64, v: &View, probing: Option<Probing>) -> Option<u128>
    ensures { result ≡ coarse_probing_due grain v.now probing }
{
    match probing {
        Some(probing) => next_coarse_probe_due(grain, v.timers.rto, probing),
        None => None,
    }
}

#[inline(always)]
fn sends_oldest_or_probe(event: &Event, v: &View) -> bool
    ensures { result ≡ sends_oldest_or_probe event.now v.now }
{
    match event {
        Event::Sends(sending) => {
            holds(sending, v.snd_una) || v.snd_wnd == 0 && is_probing_segment(sending, v)
        }
        Event::Opens
        | Event::Calls { .. }
        | Event::Processes { .. }
        | Event::Drops { .. }
        | Event::Builds(_)
        | Event::Expires(_)
        | Event::Recovers(_) => false,
    }
}

// Since when the oldest position is to be sent again, after a step.
#[inline(always)]
fn strict_retransmit_after(
    event: &Event,
    before: &View,
    after: &View,
    moment: u64,
    since: Option<u64>,
) -> Option<u64>
    ensures { result ≡ strict_retransmit_after event.now before.now after.now moment since }
{
    if is_timeout(event) {
        since.or(Some(moment))
    } else if sends_oldest_or_probe(event, before) || acknowledges_more(before, after) {
        None
    } else {
        since
    }
}

#[inline(always)]
fn sends_probe(event: &Event, v: &View) -> bool
    ensures { result ≡ sends_probe event.now v.now }
{
    match event {
        Event::Sends(sending) => is_probing_segment(sending, v),
        Event::Opens
        | Event::Calls { .. }
        | Event::Processes { .. }
        | Event::Drops { .. }
        | Event::Builds(_)
        | Event::Expires(_)
        | Event::Recovers(_) => false,
    }
}

// Since when a probe is to be sent because the persist timer expired, after a step.
#[inline(always)]
fn strict_probe_after(
    event: &Event,
    before: &View,
    after: &View,
    moment: u64,
    since: Option<u64>,
) -> Option<u64>
    ensures { result ≡ strict_probe_after event.now before.now after.now moment since }
{
    if is_probe_timeout(event) {
        since.or(Some(moment))
    } else if sends_probe(event, before)
        || acknowledges_more(before, after)
        || opens(before, after)
    {
        None
    } else {
        since
    }
}

/// What an endpoint owes by the stricter duties after a step that touched it, if it is then seen like this.
/// `acknowledged`: when it last sent a segment with ACK, before the step; `sent`: the segment that it sends.
#[inline(always)]
pub(crate) fn strict_after(
    sampling: Sampling,
    touched: &TouchedEndpoint,
    after: &View,
    moment: u64,
    acknowledged: Option<u64>,
    sent: &Option<Unsent>,
    owed: &StrictOwed,
) -> StrictOwed
    ensures { result ≡ strict_after sampling touched.now.event touched.now.before after.now moment acknowledged
        sent.now owed.now }
{
    let (event, before) = (&touched.event, &touched.before);
    let since = unbuilt_answer_after(event, before, moment, acknowledged, owed);
    StrictOwed {
        acknowledge: given_back(event, brought_by(sent), since),
        retransmit: strict_retransmit_after(event, before, after, moment, owed.retransmit),
        probe: strict_probe_after(event, before, after, moment, owed.probe),
        restarted: restarted_after(event, before, after, moment, owed.restarted),
        timed: timed_after(sampling, event, before, after, owed.timed),
        widest: owed.widest.max(after.snd_wnd),
        answered: answered_after(event, moment, owed.answered),
        kept_alive: kept_alive_after(sends_keep_alive(sent), moment, owed.kept_alive),
    }
}

/// Which duties of an endpoint are late in version 6, with a clock of this granularity in microseconds.
#[inline(always)]
pub(crate) fn strict_lates(
    grain: u64,
    slack: u64,
    moment: u64,
    v: &View,
    listener_closed: Option<u64>,
    owed: &Owed,
    strict: &StrictOwed,
) -> Lates
    ensures { result ≡ strict_lates grain slack moment v.now listener_closed owed.now strict.now }
{
    let lates = lates_of(slack, moment, v, listener_closed, owed);
    if v.state.is_closed() {
        return lates;
    }
    Lates {
        acknowledge: is_late(slack, moment, acknowledge_due(strict.acknowledge)),
        expire: is_late(slack, moment, coarse_expiry_due(grain, v, strict.restarted)),
        retransmit: is_late_at_once(slack, moment, strict.retransmit)
            || is_late_at_once(slack, moment, strict.probe),
        probe: is_late(slack, moment, coarse_probing_due(grain, v, owed.probing)),
        ..lates
    }
}

/// The same, if the segment that brings an acknowledgment is late with it.
#[inline(always)]
pub fn with_brought(late: bool, lates: Lates) -> Lates
    ensures { result ≡ with_brought late lates }
{
    Lates {
        acknowledge: late || lates.acknowledge,
        ..lates
    }
}
