//! What an endpoint owes.

use crate::scene::Scene;
use endpoint_state::Endpoint;
use plain_words::{Sheet, word_if};
use replayed::{Debt, debts_of};
use spec_tcp::EndpointId;

/// Writes what an endpoint owes, if the header has a slack.
pub(crate) fn describe_owed(out: &mut Sheet, scene: &Scene, id: EndpointId, endpoint: &Endpoint) {
    let Some(slack) = scene.header().slack else {
        return;
    };
    out.put("  owes:");
    let start = out.len();
    let debts = debts_of(scene.header(), scene.duties, id, endpoint);
    say_debts(out, &debts);
    if start == out.len() {
        out.put(" nothing\n")
    } else {
        out.say(" (and {} of slack)\n", &[slack]);
    }
}

fn say_debts(out: &mut Sheet, debts: &[Option<Debt>]) {
    let start = out.len();
    for debt in debts {
        if let Some(debt) = debt {
            out.put(word_if(start < out.len(), ";"));
            say_debt(out, debt);
        }
    }
}

fn say_debt(out: &mut Sheet, debt: &Debt) {
    out.put(" ");
    out.put(debt.what);
    out.say(" since {}, ", &[debt.since]);
    if debt.is_due_at_once() {
        return out.put("due at once");
    }
    out.put("due by ");
    out.show(&debt.due);
}
