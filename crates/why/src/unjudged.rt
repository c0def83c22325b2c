//! Which level, in a header of version 4 or 5, leaves a refusal unjudged.

use crate::losses::may_begin;
use crate::scene::{Object, Scene};
use case_forms::{Judged, RecoveryChange, Version};
use endpoint_state::Endpoint;
use plain_words::{Control, LEVEL_RULES, Sheet, word_if};
use replayed::{Reason, old_data_reason};
use verdict::Rule;

/// Writes which level leaves the refusal unjudged, if the header's level doesn't and another one does.
pub(crate) fn say_unjudged(out: &mut Sheet, scene: &Scene, rule: Rule) {
    let header = scene.header();
    let level = match (header.congestion, lenient_level(scene, rule)) {
        (Judged::Full, Some(Judged::Recovery)) => "recovery",
        (Judged::Full | Judged::Recovery, Some(Judged::NoControl)) => "none",
        _ => return,
    };
    let (before, after) = match header.version {
        Version::One | Version::Two | Version::Three => ("in version 4, the header line ", ""),
        Version::Four
        | Version::FourHalf
        | Version::Five
        | Version::FiveHalf
        | Version::Six
        | Version::SixHalf => { ("", " in the header") }
    };
    // In version 6, the level `none` judges no data that goes again.
    let needs_recovery = rule == Rule::OldData && !header.version.says_sender();
    let condition = word_if(needs_recovery, " if an F step comes first");
    let stacks = match rule {
        // Version 6 judges SACK.
        Rule::OldData | Rule::Recovery if header.version.says_sender() => "",
        _ => "stacks with CUBIC, BBR, SACK or RACK-TLP do this; ",
    };
    out.put(stacks);
    out.put(before);
    out.put("`congestion ");
    out.put(level);
    out.put("`");
    out.put(after);
    out.put(" leaves it unjudged");
    out.put(condition);
    out.put("\n");
}

// The strictest level at which the step doesn't break the rule. None: it breaks it at every level.
fn lenient_level(scene: &Scene, rule: Rule) -> Option<Judged> {
    let (_, control) = LEVEL_RULES.iter().find(|(of_level, _)| *of_level == rule)?;
    match (control, scene.object()) {
        // A child begins with a window of 0 at every level.
        (Control::Windows, Object::Building(_) | Object::Processing(_) | Object::Expiring(_)) => {
            Some(Judged::Recovery)
        }
        (Control::Retransmission, Object::Building(_)) if rule == Rule::Resent => {
            Some(Judged::NoControl)
        }
        // Fast recovery, which permits retransmitting outstanding data, begins only after the handshake.
        (Control::Retransmission, Object::Building(it)) => match old_data_reason(
            it.endpoint,
            it.plan,
        ) {
            Reason::Again { .. } if it.endpoint.is_up() => Some(Judged::NoControl),
            _ => None,
        },
        // Whether a recovery may be undone is judged at every level.
        (Control::Retransmission, Object::Recovering(endpoint, it)) => match it.change {
            RecoveryChange::Begins => at_recovery(scene, endpoint),
            RecoveryChange::IsUndone => None,
        },
        _ => None,
    }
}

// Something has to be outstanding at every level.
fn at_recovery(scene: &Scene, endpoint: &Endpoint) -> Option<Judged> {
    let may_recover = match scene.standing {
        Some(standing) => may_begin(endpoint.control.values.dup, standing),
        None => endpoint.control.may_recover(),
    };
    if endpoint.stream.snd_una == endpoint.snd_max() {
        None
    } else if may_recover {
        Some(Judged::Recovery)
    } else {
        Some(Judged::NoControl)
    }
}
