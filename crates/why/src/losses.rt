//! What an endpoint knows of losses if both SYNs permitted SACK.

use flights::{Fate, Loss, Standing};
use plain_words::{Known, Sheet, word_if};
use spec_flights::Probe;

/// Why a position may not be sent again.
pub(crate) fn say_kept(out: &mut Sheet, grain: u64, it: Standing) {
    let position = it.position;
    if let Fate::Told = it.fate {
        out.say(
            "the peer's SACK blocks report position {}; only a later expiry permits sending it again\n",
            &[position],
        );
        return;
    }
    if it.recovers_upto.is_none() {
        out.put("no recovery is going on: an F step or an expiry has to come first\n");
    }
    say_loss(out, grain, it);
}

/// Whether a position in flight counts as lost, and from when on it does.
pub(crate) fn say_loss(out: &mut Sheet, grain: u64, it: Standing) {
    let Fate::InFlight {
        moment,
        again,
        loss,
    } = it.fate
    else {
        return;
    };
    let (position, again) = (it.position, word_if(again, " again"));
    out.say("position {} was built", &[position]);
    out.put(again);
    out.say(" at {}", &[moment]);
    match loss {
        Loss::Lost => out.put(", and counts as lost\n"),
        Loss::Later {
            round_trip,
            reordering,
        } => say_later(out, grain, moment, round_trip, reordering),
        Loss::Unknown => {
            out.put("; nothing built later was delivered, so it doesn't count as lost");
            out.put(again);
            out.put("\n");
        }
    }
}

fn say_later(out: &mut Sheet, grain: u64, moment: u64, round_trip: u64, reordering: u64) {
    let from = moment
        .saturating_add(round_trip)
        .saturating_add(reordering)
        .saturating_sub(grain);
    out.say(
        "; it counts as lost once SACK blocks report three whole segments, or from {} on ",
        &[from],
    );
    out.say(
        "= {} + round trip {} + reordering {} - grain {}\n",
        &[moment, round_trip, reordering, grain],
    );
}

/// Whether fast recovery may begin after this many duplicate acknowledgments.
pub(crate) fn may_begin(duplicates: u32, it: Standing) -> bool {
    let is_lost = matches!(
        it.fate,
        Fate::InFlight {
            loss: Loss::Lost,
            ..
        }
    );
    it.recovers_upto.is_none() && (2 < duplicates || is_lost)
}

/// Whether this is known of a position that may not be sent again. `tail`: its segment ends with all that was sent.
pub(crate) fn is_known_of_kept(it: Standing, tail: bool, known: Known) -> bool {
    if let Probe::Due = it.probe {
        let is_reported = tail && it.reported.is_some();
        return if is_reported {
            known == Known::Reported
        } else {
            known == Known::ProbeElsewhere
        };
    }
    match it.fate {
        Fate::Told => known == Known::Reported,
        Fate::InFlight { again, loss, .. } => match loss {
            Loss::Lost => false,
            Loss::Later { .. } => known == Known::NotLostYet,
            Loss::Unknown => match it.recovers_upto {
                Some(_) if again => known == Known::SentTwice,
                None if tail => known == known_of_tail(it.probe),
                Some(_) | None => known == Known::NothingLater,
            },
        },
    }
}

// What is known of the last segment, if nothing permits sending it again.
fn known_of_tail(probe: Probe) -> Known {
    match probe {
        Probe::Nothing | Probe::Due => Known::TailProbe,
        Probe::Out(_) => Known::ProbeAgain,
    }
}

/// Whether this is known where fast recovery may not begin after this many duplicate acknowledgments.
pub(crate) fn is_known_of_beginning(duplicates: u32, it: Standing, known: Known) -> bool {
    match known {
        Known::StillRecovers => it.recovers_upto.is_some(),
        Known::NotLostYet => duplicates < 3 && is_known_of_kept(it, false, known),
        _ => false,
    }
}
