//! Why a recovery may not be undone.

use crate::scene::{Scene, witness_line};
use case_forms::{Event, Host, Label, Recovery, RecoveryChange, SegmentPlan, Step, Timer};
use endpoint_state::Endpoint;
use flights::ProbeStanding;
use plain_words::{Known, Sheet, word_if};

// What a step did to a recovery.
#[derive(Clone, Copy, PartialEq, Eq)]
enum Did {
    /// It began as rto expired.
    Expired,
    /// Fast recovery began.
    Began,
    /// It was undone.
    Undid,
}

// The first segment that was sent again.
#[derive(Clone, Copy)]
struct Again {
    /// The line of the witness that built it.
    line: u64,
    /// Its lowest position.
    pos: u64,
}

// The last step of an endpoint that began a recovery or undid it.
#[derive(Clone, Copy)]
struct Last {
    /// Its line of the witness.
    line: u64,
    did: Did,
    /// The position after all that was built before.
    point: u64,
    /// What was sent again first since then. None: nothing was.
    again: Option<Again>,
}

// The recoveries of one endpoint, followed through a witness.
#[derive(Clone, Copy)]
struct Recoveries {
    host: Host,
    lport: u16,
    rport: u16,
    /// The position after all that was built.
    sent: u64,
    last: Option<Last>,
}

// The position after a segment.
fn end_of(plan: &SegmentPlan) -> u64 {
    plan.pos
        .saturating_add(u64::from(plan.len))
        .saturating_add(u64::from(plan.flags.syn))
        .saturating_add(u64::from(plan.flags.fin))
}

// Whether a segment holds what was built before, and isn't a FIN without bytes.
fn goes_again(plan: &SegmentPlan, sent: u64) -> bool {
    let is_fin_alone = plan.flags.fin && plan.len == 0;
    plan.pos < sent && plan.pos < end_of(plan) && !is_fin_alone
}

impl Recoveries {
    fn is_at(&self, host: Host, lport: u16, rport: u16) -> bool {
        host == self.host && lport == self.lport && rport == self.rport
    }

    // A step begins or undoes a recovery.
    fn note(&mut self, line: u64, did: Did) {
        self.last = Some(Last {
            line,
            did,
            point: self.sent,
            again: None,
        });
    }

    fn build(&mut self, line: u64, plan: &SegmentPlan) {
        // The first SYN belongs to a new connection.
        if plan.iss.is_some() {
            self.sent = 0;
            self.last = None;
        }
        if let Some(last) = self.last
            && last.again.is_none()
            && goes_again(plan, self.sent)
        {
            let again = Some(Again {
                line,
                pos: plan.pos,
            });
            self.last = Some(Last { again, ..last });
        }
        self.sent = self.sent.max(end_of(plan));
    }

    // The next step, with its line of the witness.
    fn follow(&mut self, scene: &Scene, line: u64, step: &Step) {
        match &step.label {
            Label::M { host, plan } if self.is_at(*host, plan.lport, plan.rport) => {
                self.build(line, plan);
            }
            Label::F { host, recovery } if self.is_at(*host, recovery.lport, recovery.rport) => {
                self.note(line, did_by(recovery.change));
            }
            Label::L(named) => {
                if let Some(event) = scene.line(named.number).map(|line| &line.event)
                    && let Event::Expired(host, lport, rport, Timer::Rto) = event
                    && self.is_at(*host, *lport, *rport)
                {
                    self.note(line, Did::Expired);
                }
            }
            _ => {}
        }
    }
}

fn did_by(change: RecoveryChange) -> Did {
    match change {
        RecoveryChange::Begins => Did::Began,
        RecoveryChange::IsUndone => Did::Undid,
    }
}

// The last step before the refused one that began or undid a recovery of an endpoint.
fn last_of(scene: &Scene, endpoint: &Endpoint) -> Option<Last> {
    let mut recoveries = Recoveries {
        host: scene.touched?.host,
        lport: endpoint.lport,
        rport: endpoint.rport,
        sent: 0,
        last: None,
    };
    for (place, step) in scene.before.iter().enumerate() {
        recoveries.follow(scene, witness_line(Some(place)), step);
    }
    recoveries.last
}

/// Which recovery the step undoes, and what would have shown that it wasn't needed.
pub(crate) fn say_needed(out: &mut Sheet, scene: &Scene, endpoint: &Endpoint) {
    let Some(last) = last_of(scene, endpoint) else {
        return out.put("there is nothing to undo: no F step and no expiry of rto came before\n");
    };
    let line = last.line;
    match last.did {
        Did::Undid => {
            out.say(
                "there is nothing to undo: witness line {} undid the last recovery\n",
                &[line],
            );
            return;
        }
        Did::Began => out.say("fast recovery began in witness line {}", &[line]),
        Did::Expired => out.say(
            "the recovery began with the expiry in witness line {}",
            &[line],
        ),
    }
    match last.again {
        Some(again) => say_shown(out, scene, endpoint, last, again),
        None => out.put(
            ", and nothing was sent again since then, which an acknowledgment could answer\n",
        ),
    }
}

// Which acknowledgments would have shown that a recovery wasn't needed.
fn say_shown(out: &mut Sheet, scene: &Scene, endpoint: &Endpoint, last: Last, again: Again) {
    let (Again { line, pos }, point) = (again, last.point);
    out.say(
        "; witness line {} was the first to send something again, from position {} on\n",
        &[line, pos],
    );
    out.say(
        "no acknowledgment above {} echoes an earlier timestamp than that of this segment\n",
        &[pos],
    );
    if last.did == Did::Expired && is_selective(scene) {
        let una = endpoint.stream.snd_una;
        out.say(
            "none below {} that acknowledges more than before the expiry delivers what was built before the \
expiry; SND.UNA is {}\n",
            &[point, una],
        );
    }
}

// Whether both SYNs of the endpoint that the step touches permitted SACK.
fn is_selective(scene: &Scene) -> bool {
    let standing = scene.touched.and_then(|id| scene.probe_standing(id));
    !matches!(standing, Some(ProbeStanding::Plain { .. }) | None)
}

/// Whether the last recovery of the endpoint that the step touches may be undone.
pub(crate) fn may_be_undone(scene: &Scene) -> bool {
    match scene.touched {
        Some(id) => scene.flights.is_spurious(id.host, id.number),
        None => false,
    }
}

/// Writes that the recovery may be undone that refuses the step, if that's so.
pub(crate) fn say_undoable(out: &mut Sheet, scene: &Scene) {
    let undoable = may_be_undone(scene);
    out.put(word_if(
        undoable,
        "that recovery wasn't needed, so a U step may undo it first\n",
    ))
}

/// Whether this is known where a recovery is undone that may have been needed.
pub(crate) fn is_known_of_undoing(scene: &Scene, endpoint: &Endpoint, known: Known) -> bool {
    let found = match last_of(scene, endpoint) {
        Some(last) if last.did != Did::Undid => match last.again {
            Some(_) if last.point <= endpoint.stream.snd_una => Known::UndoneAtEnd,
            Some(_) => Known::UndoneNeeded,
            None => Known::UndoneUnsent,
        },
        Some(_) | None => Known::NothingToUndo,
    };
    known == found
}
