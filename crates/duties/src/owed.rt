//! What an endpoint owes, which of it is late, and how a step changes it.
//! `lib.rt` says why functions here are inlined.

ghost use Rattle.std.specs.Prelude.{◌≡◌};
ghost use Rattle.std.specs.Result.{result_err};
ghost use Rattle.verdict.specs.Rules.{first_broken};
ghost use Rattle.spec_duties.specs.Owed.{late_rules, lates_of, lates_of_open, none_late, nothing, once_closed};
ghost use Rattle.spec_duties.specs.Owed.{owed_after};
ghost use Rattle.spec_duties.specs.Owed.{owed_open};
ghost use Rattle.spec_duties.specs.End.{either};

use crate::acknowledge::{acknowledge_after, acknowledge_due, acknowledged_after};
use crate::deadlines::{is_late, is_late_at_once};
use crate::excess::answers_after;
use crate::expire::{expiry_due, opened_after};
use crate::probe::{probing_after, probing_due};
use crate::resent::again_after;
use crate::reset::{reset_after, reset_since};
use crate::retransmit::{probe_after, retransmit_after};
use crate::start::{start_after, start_due};
use spec_duties::{Lates, Owed, TouchedEndpoint, View};
use verdict::Rule;

/// Before any step touches an endpoint.
#[inline(always)]
pub(crate) fn nothing() -> Owed
    ensures { result ≡ nothing }
{
    Owed {
        acknowledge: None,
        opened: 0,
        retransmit: None,
        probe: None,
        probing: None,
        start: None,
        reset: None,
        again: 0,
        answers: 0,
        acknowledged: None,
    }
}

/// None, or a reset alone.
pub fn none_late(reset: bool) -> Lates
    ensures { result ≡ none_late reset }
{
    Lates {
        acknowledge: false,
        expire: false,
        retransmit: false,
        probe: false,
        start: false,
        reset,
    }
}

#[inline(always)]
fn lates_of_open(slack: u64, moment: u64, v: &View, owed: &Owed, reset: bool) -> Lates
    ensures { result ≡ lates_of_open slack moment v.now owed.now reset }
{
    Lates {
        acknowledge: is_late(slack, moment, acknowledge_due(owed.acknowledge)),
        expire: is_late(slack, moment, expiry_due(v, owed.opened)),
        retransmit: is_late_at_once(slack, moment, owed.retransmit)
            || is_late_at_once(slack, moment, owed.probe),
        probe: is_late(slack, moment, probing_due(v, owed.probing)),
        start: is_late(slack, moment, start_due(owed.start)),
        reset,
    }
}

/// Those of an endpoint whose listener was closed at this moment, if it was.
#[inline(always)]
pub fn lates_of(
    slack: u64,
    moment: u64,
    v: &View,
    listener_closed: Option<u64>,
    owed: &Owed,
) -> Lates
    ensures { result ≡ lates_of slack moment v.now listener_closed owed.now }
{
    let since = reset_since(v, listener_closed, owed.reset);
    let reset = is_late_at_once(slack, moment, since);
    if v.state.is_closed() {
        none_late(reset)
    } else {
        lates_of_open(slack, moment, v, owed, reset)
    }
}

/// What is late in one or the other.
pub fn either(a: Lates, b: Lates) -> Lates
    ensures { result ≡ either a b }
{
    Lates {
        acknowledge: a.acknowledge || b.acknowledge,
        expire: a.expire || b.expire,
        retransmit: a.retransmit || b.retransmit,
        probe: a.probe || b.probe,
        start: a.start || b.start,
        reset: a.reset || b.reset,
    }
}

/// Whether none is late. The error is the first rule that one breaks.
#[inline(always)]
pub fn admits_lates(lates: Lates) -> Result<(), Rule>
    ensures { result_err result ≡ first_broken (late_rules lates) }
{
    if lates.acknowledge {
        return Err(Rule::AckLate);
    }
    if lates.expire {
        return Err(Rule::ExpiryLate);
    }
    if lates.retransmit {
        return Err(Rule::ResendLate);
    }
    if lates.probe {
        return Err(Rule::ProbeLate);
    }
    if lates.start {
        return Err(Rule::StartLate);
    }
    if lates.reset {
        return Err(Rule::ResetLate);
    }
    Ok(())
}

#[inline(always)]
fn admits_open(slack: u64, moment: u64, v: &View, owed: &Owed, reset: bool) -> Result<(), Rule>
    ensures { result_err result ≡ first_broken (late_rules (lates_of_open slack moment v.now owed.now reset)) }
{
    if is_late(slack, moment, acknowledge_due(owed.acknowledge)) {
        return Err(Rule::AckLate);
    }
    if is_late(slack, moment, expiry_due(v, owed.opened)) {
        return Err(Rule::ExpiryLate);
    }
    if is_late_at_once(slack, moment, owed.retransmit)
        || is_late_at_once(slack, moment, owed.probe)
    {
        return Err(Rule::ResendLate);
    }
    if is_late(slack, moment, probing_due(v, owed.probing)) {
        return Err(Rule::ProbeLate);
    }
    if is_late(slack, moment, start_due(owed.start)) {
        return Err(Rule::StartLate);
    }
    if reset {
        return Err(Rule::ResetLate);
    }
    Ok(())
}

/// Whether an endpoint is late with none of what it owes. The error is the first broken rule.
#[inline(always)]
pub(crate) fn admits_owed(
    slack: u64,
    moment: u64,
    v: &View,
    listener_closed: Option<u64>,
    owed: &Owed,
) -> Result<(), Rule>
    ensures { result_err result ≡ first_broken (late_rules (lates_of slack moment v.now listener_closed owed.now)) }
{
    let since = reset_since(v, listener_closed, owed.reset);
    let reset = is_late_at_once(slack, moment, since);
    if v.state.is_closed() {
        admits_lates(none_late(reset))
    } else {
        admits_open(slack, moment, v, owed, reset)
    }
}

#[inline(always)]
pub(crate) fn owed_open(
    touched: &TouchedEndpoint,
    after: &View,
    moment: u64,
    listener_closed: Option<u64>,
    counts: bool,
    owed: &Owed,
) -> Owed
    ensures { result ≡ owed_open touched.now.event touched.now.before after.now moment listener_closed counts owed.now }
{
    let (event, before) = (&touched.event, &touched.before);
    Owed {
        acknowledge: acknowledge_after(
            event,
            before.state,
            moment,
            owed.acknowledged,
            owed.acknowledge,
        ),
        opened: opened_after(before, after, moment, owed.opened),
        retransmit: retransmit_after(event, before, after, moment, owed.retransmit),
        probe: probe_after(event, before, after, moment, owed.probe),
        probing: probing_after(event, before, after, moment, owed.probing),
        start: start_after(after, moment, owed.start),
        reset: reset_after(event, before, after, moment, listener_closed, owed.reset),
        again: again_after(event, before, after, owed.again),
        answers: answers_after(event, before, counts, owed.answers),
        acknowledged: acknowledged_after(event, moment, owed.acknowledged),
    }
}

#[inline(always)]
fn once_closed(owed: Owed) -> Owed
    ensures { result ≡ once_closed owed }
{
    Owed {
        acknowledge: None,
        retransmit: None,
        probe: None,
        probing: None,
        start: None,
        ..owed
    }
}

/// What an endpoint owes after a step that touched it, if it is then seen like this. `counts`: it sends a mere
/// acknowledgment.
#[inline(always)]
pub(crate) fn owed_after(
    touched: &TouchedEndpoint,
    after: &View,
    moment: u64,
    listener_closed: Option<u64>,
    counts: bool,
    owed: &Owed,
) -> Owed
    ensures { result
        ≡ owed_after touched.now.event touched.now.before after.now moment listener_closed counts owed.now }
{
    let next = owed_open(touched, after, moment, listener_closed, counts, owed);
    if after.state.is_closed() {
        once_closed(next)
    } else {
        next
    }
}
