//! What endpoints owe, and what is late at the end.

use super::Progress;
use crate::calls::key_at;
use crate::key::EndpointKey;
use case_forms::{Host, MOST_STEPS};
use duties::{acknowledge_due, admits_lates, expiry_due, is_late, is_late_at_once, view_of};
use spec_duties::Unsent;
use spec_tcp::EndpointId;
use verdict::Rule;
use watched::late_at_end;

/// A duty that is late after the last line.
#[derive(Clone, Copy)]
pub(crate) struct Overdue {
    pub rule: Rule,
    /// The endpoint that owes it. None: it isn't known.
    pub key: Option<EndpointKey>,
}

impl Progress {
    /// Whether an armed retransmission timer has to expire at some moment, if duties are judged.
    pub(crate) fn has_expiry_due(&self, key: EndpointKey) -> bool {
        if self.slack().is_none() {
            return false;
        }
        let endpoint = self.endpoint(key);
        endpoint.is_some_and(|endpoint| expiry_due(&view_of(endpoint), 0).is_some())
    }

    /// Whether an endpoint sent as many mere acknowledgments as segments came, if duties are judged.
    pub(crate) fn is_all_answered(&self, key: EndpointKey) -> bool {
        if self.slack().is_none() {
            return false;
        }
        let place = self.world.body(key.host()).place_of(key.lport, key.rport);
        match place {
            Some(place) => self.beside.duties.owed_by(key.host(), place).answers == 0,
            None => false,
        }
    }

    /// The duty that is late after the last line. None: no duty is.
    pub(crate) fn overdue_at_end(&self) -> Option<Overdue> {
        let (slack, moment) = (self.slack()?, self.log.moment);
        if self.world.steps() > MOST_STEPS {
            return None;
        }
        let header = self.world.header();
        let (_, rule) = late_at_end(header, slack, moment, &self.beside.duties, &self.world)?;
        let key = match self.late_on(Host::Zero, slack, rule) {
            None => self.late_on(Host::One, slack, rule),
            zero => zero,
        };
        let key = key.or(self.late_with_unsent(slack, rule));
        Some(Overdue { rule, key })
    }

    // The endpoint that built the first segment that wasn't sent and breaks this rule after the last line (version 6).
    fn late_with_unsent(&self, slack: u64, rule: Rule) -> Option<EndpointKey> {
        for entry in self.beside.duties.unsent() {
            if let Some(unsent) = &entry.1
                && self.is_unsent_late(unsent, slack, rule)
            {
                return self.builder_of(u32::try_from(entry.0).ok()?);
            }
        }
        None
    }

    // Whether a segment that wasn't sent breaks this rule after the last line.
    fn is_unsent_late(&self, unsent: &Unsent, slack: u64, rule: Rule) -> bool {
        let moment = self.log.moment;
        match rule {
            Rule::SendLate => {
                !unsent.spared && is_late_at_once(slack, moment, Some(unsent.since))
            }
            Rule::AckLate => is_late(slack, moment, acknowledge_due(unsent.acknowledge)),
            _ => false,
        }
    }

    // The endpoint that built a segment.
    fn builder_of(&self, number: u32) -> Option<EndpointKey> {
        for host in [Host::Zero, Host::One] {
            if let Some(made) = self.world.made(host, number) {
                let m = made.emission();
                return Some(EndpointKey::new(host, m.lport, m.rport));
            }
        }
        None
    }

    // The first endpoint of a host that breaks this rule after the last line.
    fn late_on(&self, host: Host, slack: u64, rule: Rule) -> Option<EndpointKey> {
        let count = self.world.body(host).endpoint_count();
        let count = u32::try_from(count).unwrap_or(u32::MAX);
        for place in 0..count {
            if self.is_late(host, place, slack, rule) {
                return key_at(&self.world, host, place);
            }
        }
        None
    }

    // Whether the endpoint of a host at a place breaks this rule after the last line.
    fn is_late(&self, host: Host, place: u32, slack: u64, rule: Rule) -> bool {
        let Some(endpoint) = self.world.body(host).endpoint_at(place) else {
            return false;
        };
        let id = EndpointId {
            host,
            number: place,
        };
        let (header, view) = (self.world.header(), view_of(endpoint));
        let moment = self.log.moment;
        let lates = self
            .beside
            .duties
            .judged_lates(header, slack, moment, None, id, &view);
        admits_lates(lates).err() == Some(rule)
    }
}
