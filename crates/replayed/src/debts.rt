//! What endpoints owe, by when, and which of it is late where a case is refused. Moments are microseconds.

use crate::case::Refusal;
use crate::replay::Replay;
use case_forms::{Header, Host};
use duties::{
    Duties, acknowledge_due, admits_lates, coarse_expiry_due, coarse_probing_due, expiry_due,
    is_late_at_once, probing_due, reset_since, start_due, view_of,
};
use spec_duties::{Owed, View};
use spec_tcp::{Endpoint, EndpointId};
use verdict::Rule;

/// Something that an endpoint owes.
#[derive(Clone, Copy)]
pub struct Debt {
    /// The rule that is broken if it is late.
    pub rule: Rule,
    /// What is owed, in words.
    pub what: &'static str,
    /// Since when it is owed.
    pub since: u64,
    /// By when it is due, without the slack.
    pub due: u128,
}

impl Debt {
    // A debt that arose at a moment. None: nothing is owed, or it has no deadline.
    fn new(rule: Rule, what: &'static str, since: Option<u64>, due: Option<u128>) -> Option<Debt> {
        Some(Debt {
            rule,
            what,
            since: since?,
            due: due?,
        })
    }

    // A debt that is due at once.
    fn at_once(rule: Rule, what: &'static str, since: Option<u64>) -> Option<Debt> {
        let since = since?;
        let due = u128::from(since);
        Some(Debt {
            rule,
            what,
            since,
            due,
        })
    }

    /// Whether it is due as soon as it arises.
    pub fn is_due_at_once(&self) -> bool {
        self.due == u128::from(self.since)
    }

    // False if it is due at once and isn't late at a moment.
    fn may_be_late(&self, slack: u64, moment: u64) -> bool {
        !self.is_due_at_once() || is_late_at_once(slack, moment, Some(self.since))
    }
}

/// What an endpoint owes, in the order of the rules. A closed one owes no more than a reset.
pub fn debts_of(
    header: &Header,
    duties: &Duties,
    id: EndpointId,
    endpoint: &Endpoint,
) -> [Option<Debt>; 7] {
    let (view, owed) = (view_of(endpoint), owed_as_judged(header, duties, id));
    let closed = duties.listener_closed(id.host, &view);
    let since = reset_since(&view, closed, owed.reset);
    let reset = Debt::at_once(Rule::ResetLate, "a reset", since);
    if view.state.is_closed() {
        [None, None, None, None, None, None, reset]
    } else {
        debts_of_open(header, &view, &owed, reset)
    }
}

// What an endpoint owes, in version 6 by the stricter duties.
fn owed_as_judged(header: &Header, duties: &Duties, id: EndpointId) -> Owed {
    let owed = duties.owed_by(id.host, id.number);
    if !header.version.says_sender() {
        return owed;
    }
    let strict = duties.strict_by(id.host, id.number);
    Owed {
        acknowledge: strict.acknowledge,
        opened: strict.restarted,
        retransmit: strict.retransmit,
        probe: strict.probe,
        ..owed
    }
}

// By when the retransmission timer has to expire, and by when the next probe is due.
fn timer_deadlines(header: &Header, view: &View, owed: &Owed) -> (Option<u128>, Option<u128>) {
    if header.version.says_sender() {
        let expiry = coarse_expiry_due(header.grain, view, owed.opened);
        (expiry, coarse_probing_due(header.grain, view, owed.probing))
    } else {
        (
            expiry_due(view, owed.opened),
            probing_due(view, owed.probing),
        )
    }
}

// The retransmission timer runs since it was armed, or since the window was opened if that was later.
fn debts_of_open(
    header: &Header,
    view: &View,
    owed: &Owed,
    reset: Option<Debt>,
) -> [Option<Debt>; 7] {
    let armed = view.timers.rto_armed;
    let ack = acknowledge_due(owed.acknowledge);
    let (expiry, probe) = timer_deadlines(header, view, owed);
    let probing = owed.probing.map(|probing| probing.since);
    let start = start_due(owed.start);
    let (again, any) = ("a retransmission", "a segment after the expiry of persist");
    [
        Debt::new(Rule::AckLate, "an acknowledgment", owed.acknowledge, ack),
        Debt::new(Rule::ExpiryLate, "an expiry of rto", armed, expiry),
        Debt::at_once(Rule::ResendLate, again, owed.retransmit),
        Debt::at_once(Rule::ResendLate, any, owed.probe),
        Debt::new(Rule::ProbeLate, "a probe", probing, probe),
        Debt::new(Rule::StartLate, "what waits to be sent", owed.start, start),
        reset,
    ]
}

/// An endpoint that is late with something.
#[derive(Clone, Copy)]
pub struct Debtor {
    pub id: EndpointId,
    pub debt: Debt,
}

/// When a late duty was due. Moments are microseconds.
#[derive(Clone, Copy)]
pub struct Late {
    /// Since when it is owed.
    pub since: u64,
    /// By when it was due, without the slack.
    pub due: u128,
    /// The moment of the refused step; after the last step, that of the last one.
    pub at: u64,
}

impl Late {
    /// A debt that is late at a moment.
    pub(crate) fn new(debt: Debt, at: u64) -> Late {
        let Debt { since, due, .. } = debt;
        Late { since, due, at }
    }

    /// Something that was due at once since a moment, if there is one, and is late at another.
    pub(crate) fn at_once(since: Option<u64>, at: u64) -> Option<Late> {
        let since = since?;
        let due = u128::from(since);
        Some(Late { since, due, at })
    }
}

impl Replay<'_> {
    /// The endpoint whose duty is late where the case is refused, once the steps before that were done. After the last
    /// step it is the first one, in the order of hosts and of creation. None: the rule is none of 44 to 49.
    pub fn debtor(&self) -> Option<Debtor> {
        match self.case().refusal() {
            Refusal::At { step, rule } => {
                debtor_at(&self.watched, self.touched(step)?, rule, step.moment)
            }
            Refusal::Late { rule, .. } => {
                let last = self.case().steps_before_refusal().last();
                debtor_after(&self.watched, rule, last.map_or(0, |step| step.moment))
            }
            Refusal::Nowhere | Refusal::Unplaced(_) => None,
        }
    }
}

/// The first endpoint, in the order of hosts and of creation, whose duty is late after the last step, which had this
/// moment, and which breaks this rule. None: there is none.
pub(crate) fn debtor_after(watched: &watched::Case, rule: Rule, moment: u64) -> Option<Debtor> {
    let zero = debtor_of(watched, Host::Zero, rule, moment);
    zero.or_else(|| debtor_of(watched, Host::One, rule, moment))
}

// The first one of a host.
fn debtor_of(watched: &watched::Case, host: Host, rule: Rule, moment: u64) -> Option<Debtor> {
    let count = watched.world().body(host).endpoint_count();
    for number in 0..u32::try_from(count).unwrap_or(u32::MAX) {
        let late = debtor_at(watched, EndpointId { host, number }, rule, moment);
        if late.is_some() {
            return late;
        }
    }
    None
}

/// An endpoint, if this is the first rule that it breaks at a moment by a duty that is late.
pub(crate) fn debtor_at(
    watched: &watched::Case,
    id: EndpointId,
    rule: Rule,
    moment: u64,
) -> Option<Debtor> {
    let (world, duties) = (watched.world(), watched.duties());
    let slack = world.header().slack?;
    let endpoint = world.body(id.host).endpoint_at(id.number)?;
    let header = world.header();
    let lates = duties.judged_lates(header, slack, moment, None, id, &view_of(endpoint));
    if admits_lates(lates).err() != Some(rule) {
        return None;
    }
    for debt in debts_of(header, duties, id, endpoint) {
        if let Some(debt) = debt
            && debt.rule == rule
            && debt.may_be_late(slack, moment)
        {
            return Some(Debtor { id, debt });
        }
    }
    None
}
