//! Segments that were built and are late in version 6: they are sent too late, or never.

use crate::case::Refusal;
use crate::debts::Late;
use crate::replay::Replay;
use case_forms::{Extras, Label, NamedLine, Step};
use duties::{Duties, acknowledge_due, is_late, is_late_at_once};
use spec_duties::Unsent;
use verdict::Rule;

/// A segment that was built, and is late.
#[derive(Clone, Copy)]
pub struct Held {
    /// Its number.
    pub number: u32,
    /// When it was built, in microseconds.
    pub built: u64,
    /// When it was due; if the rule is `ack-late`, when the acknowledgment was that it brings.
    pub late: Late,
}

impl Replay<'_> {
    /// In version 6, the segment that brings its acknowledgment too late with the refused step, or the first one that
    /// was never sent and is late after the last step. None: there is none.
    pub fn held(&self) -> Option<Held> {
        let (duties, slack) = (self.watched.duties(), self.world().header().slack?);
        match self.case().refusal() {
            Refusal::At { step, rule } => held_at(duties, slack, step, rule),
            Refusal::Late { rule, .. } => {
                let last = self.case().steps_before_refusal().last();
                held_after(duties, slack, rule, last.map_or(0, |step| step.moment))
            }
            Refusal::Nowhere | Refusal::Unplaced(_) => None,
        }
    }
}

/// The segment that is sent with a step, if the acknowledgment that it brings is late, and that is the broken rule.
pub(crate) fn held_at(duties: &Duties, slack: u64, step: &Step, rule: Rule) -> Option<Held> {
    if rule != Rule::AckLate {
        return None;
    }
    let number = u64::from(sent_by(step));
    for entry in duties.unsent() {
        if entry.0 == number {
            return held_by(entry, slack, rule, step.moment);
        }
    }
    None
}

/// The first segment that wasn't sent and breaks a rule after the last step, which had this moment.
pub(crate) fn held_after(duties: &Duties, slack: u64, rule: Rule, moment: u64) -> Option<Held> {
    for entry in duties.unsent() {
        let held = held_by(entry, slack, rule, moment);
        if held.is_some() {
            return held;
        }
    }
    None
}

// A built segment with its number, if it isn't sent yet and breaks a rule at a moment.
fn held_by(entry: &(u64, Option<Unsent>), slack: u64, rule: Rule, moment: u64) -> Option<Held> {
    let (number, unsent) = (u32::try_from(entry.0).ok()?, entry.1?);
    let late = match rule {
        Rule::SendLate => late_sending(&unsent, slack, moment)?,
        Rule::AckLate => late_answer(&unsent, slack, moment)?,
        _ => return None,
    };
    let built = unsent.since;
    Some(Held {
        number,
        built,
        late,
    })
}

// With what a segment is late that has to be sent at once. None: it isn't late.
fn late_sending(unsent: &Unsent, slack: u64, moment: u64) -> Option<Late> {
    if unsent.spared || !is_late_at_once(slack, moment, Some(unsent.since)) {
        return None;
    }
    Late::at_once(Some(unsent.since), moment)
}

// With what it is late if it brings an acknowledgment that is owed.
fn late_answer(unsent: &Unsent, slack: u64, moment: u64) -> Option<Late> {
    let due = acknowledge_due(unsent.acknowledge);
    if !is_late(slack, moment, due) {
        return None;
    }
    let (since, due) = (unsent.acknowledge?, due?);
    let at = moment;
    Some(Late { since, due, at })
}

/// The number of the segment that a step sends; 0 if it sends none.
pub(crate) fn sent_by(step: &Step) -> u32 {
    match &step.label {
        Label::L(
            NamedLine {
                extras: Extras::One(number),
                ..
            },
        ) => *number,
        _ => 0,
    }
}
