//! A timer expires.

ghost use Rattle.std.specs.Prelude.{◌≡◌, ◌<◌, ◌≤◌, true, length, slice_get, IfNone, IfOk, OnErr, Some};
ghost use Rattle.case_forms.specs.declared.timer.Timer.TheVariants.{Msl2, Persist, Rto};
ghost use Rattle.std.specs.Option.{IfSome};
ghost use Rattle.spec_tcp.specs.Bounds.{most_steps};
ghost use Rattle.spec_tcp.specs.declared.endpoint.Endpoint.{Endpoint};
ghost use Rattle.stack_core.specs.CoreWorlds.{Leaves};
ghost use Rattle.stack_core.specs.CoreWorlds.CoreCall.{Timers};
ghost use Rattle.stack_core.specs.Cores.{IsAfter, IsRecorded, event_begun};
ghost use Rattle.stack_core.specs.Entries.{steps_in};
ghost use Rattle.stack_core.specs.TimerEvents.{HasTried, IfChosen, IsDueAt, IsNotDueAt, IsRefused, IsTimed, NoneDue};
ghost use Rattle.stack_core.specs.TimerEvents.{NoneDueAt};
ghost use Rattle.stack_core.specs.Tended.{AreTimed, IsDueSince, IsSlow, IsStill, IsStillBefore, kept_ends, least};

use crate::deadline_queue::{Deadline, DeadlineQueue};
use crate::greatest::at_timeout;
use crate::host_core::HostCore;
use crate::recording::Recording;
use crate::tick::Tick;
use case_forms::{Expired, Header, OutOfMemory, Ports, RtoChoice, TakenLine};
use endpoint::has_more;
use endpoint_state::{Endpoint, HostTcp};
use recording_parts::{Due, due_if};
use spec_step::Label;

// A core gives up after this many expiries without an answer.
const TRIES: u32 = 12;

impl HostCore {
    /// A timer that is due expires, which is a line; none probes for a loss (RFC 8985, 7). False: nothing is changed,
    /// because no line of a retransmission timer, a persist timer or a wait in TIME-WAIT is permitted. The error is
    /// that memory ran out; then the tick has passed, and nothing is added.
    pub fn timers(&mut self, tick: Tick) -> Result<bool, OutOfMemory>
        requires tick { IsAfter self.old.last tick }
        requires events { self.old.events < 10000000 }
        ensures ok { IfOk result (λ found. IsTimed self.old tick found self.new) }
        ensures err { OnErr result (self.new ≡ event_begun self.old tick) }
        ensures leaves { Leaves self.old tick (Timers result) self.new }
        ensures kept { IsRecorded self.new }
    {
        let timed = self.record_expiry(tick);
        self.is_recording();
        timed
    }

    // The same, without the fact that what is then recorded is a run.
    fn record_expiry(&mut self, tick: Tick) -> Result<bool, OutOfMemory>
        requires tick { IsAfter self.old.last tick }
        requires events { self.old.events < 10000000 }
        ensures ok { IfOk result (λ found. IsTimed self.old tick found self.new) }
        ensures err { OnErr result (self.new ≡ event_begun self.old tick) }
    {
        self.bounds();
        let Some(due) = self.due(tick.moment) else {
            return Ok(false);
        };
        self.begin_event(tick);
        let line = TakenLine::Expired {
            line: self.line(),
            host: self.me(),
            ports: due.ports,
            expired: due.expired,
        };
        let affected = self.affected_at(due.ports.lport, due.ports.rport);
        self.add(Label::L(line), affected)?;
        self.update_after_expiry(due);
        Ok(true)
    }

    // Remembers what an expiry requires of its endpoint.
    fn update_after_expiry(&mut self, due: Due)
        ensures { self.new ≡ self.old }
    {
        let body = self.recording.body();
        let Some(place) = body.place_of(due.ports.lport, due.ports.rport) else {
            return;
        };
        if let Some(endpoint) = body.endpoint_at(place) {
            let send_state = self
                .send_states
                .at(place)
                .after_expiry(endpoint, due.expired);
            self.send_states.set(place, send_state);
        }
    }

    // A timer that may expire at a moment.
    fn due(&mut self, moment: u64) -> Option<Due>
        requires steps { steps_in self.old.recorded.entries < most_steps }
        ensures same { self.new ≡ self.old }
        ensures some { IfSome result (λ due. IsDueAt self.old.recorded moment due.ports due.expired) }
        ensures tried { IfSome result (λ due. IfChosen self.old.recorded due.ports due.expired) }
        ensures none { IfNone result (NoneDue self.old moment) }
    {
        find_due(&mut self.wakes, &self.recording, moment)
    }
}

// A timer that may expire at a moment, at an endpoint that is to be visited by then. None: no retransmission timer,
// persist timer or wait in TIME-WAIT may.
fn find_due(wakes: &mut DeadlineQueue, recording: &Recording, moment: u64) -> Option<Due>
    requires steps { steps_in recording.now.entries < most_steps }
    requires timed { AreTimed recording.now.header wakes.old.looked wakes.old.entries.keys (kept_ends recording.now) }
    ensures some { IfSome result (λ due. IsDueAt recording.now moment due.ports due.expired) }
    ensures tried { IfSome result (λ due. IfChosen recording.now due.ports due.expired) }
    ensures none { IfNone result (NoneDueAt recording.now moment) }
    ensures timed { AreTimed recording.now.header wakes.new.looked wakes.new.entries.keys (kept_ends recording.now) }
{
    recording.few_endpoints();
    if wakes.list_new(recording.body()) {
        return find_among(wakes, recording, moment);
    }
    find_any_due(recording, moment)
}

// The same, if each endpoint was visited or is to be.
fn find_among(wakes: &mut DeadlineQueue, recording: &Recording, moment: u64) -> Option<Due>
    requires steps { steps_in recording.now.entries < most_steps }
    requires all { length (kept_ends recording.now) ≤ wakes.old.looked }
    requires timed { AreTimed recording.now.header wakes.old.looked wakes.old.entries.keys (kept_ends recording.now) }
    ensures some { IfSome result (λ due. IsDueAt recording.now moment due.ports due.expired) }
    ensures tried { IfSome result (λ due. IfChosen recording.now due.ports due.expired) }
    ensures none { IfNone result (NoneDueAt recording.now moment) }
    ensures timed { AreTimed recording.now.header wakes.new.looked wakes.new.entries.keys (kept_ends recording.now) }
{
    let body = recording.body();
    for _ in 0..=wakes.len() {
        let Some(wake) = wakes.first() else {
            return None;
        };
        if moment < wake.moment {
            return None;
        }
        if let Some(endpoint) = body.endpoint_at(wake.place) {
            if let Some(due) = due_at(recording, moment, endpoint) {
                return Some(due);
            }
        }
        if !look_later(wakes, wake, recording.header(), body) {
            return find_any_due(recording, moment);
        }
    }
    // A newer endpoint has the ports of the one whose timer would be due.
    find_any_due(recording, moment)
}

// The endpoint of the first entry is to be visited when its next timer may expire. False: memory ran out.
fn look_later(wakes: &mut DeadlineQueue, wake: Deadline, header: &Header, body: &HostTcp) -> bool
    requires first { slice_get wakes.old.entries.keys 0 ≡ Some wake }
    requires timed { AreTimed header.now wakes.old.looked wakes.old.entries.keys body.now.endpoints }
    ensures timed { AreTimed header.now wakes.new.looked wakes.new.entries.keys body.now.endpoints }
    ensures looked { result ≡ true → wakes.new.looked ≡ wakes.old.looked }
{
    match next_due(header, body, wake.place) {
        Some(moment) => wakes.renew(Deadline {
            moment,
            place: wake.place,
        }),
        None => {
            wakes.leave();
            true
        }
    }
}

// The moment before which no timer that the endpoint at a place has to keep may expire. None: none may ever.
fn next_due(header: &Header, body: &HostTcp, place: u32) -> Option<u64>
    ensures some { IfSome result (λ m. (e : Endpoint) → slice_get body.now.endpoints place ≡ Some e
        → IsStillBefore header.now m e) }
    ensures none { IfNone result ((e : Endpoint) → slice_get body.now.endpoints place ≡ Some e → IsStill header.now e) }
{
    match body.endpoint_at(place) {
        Some(endpoint) => earliest(header, endpoint),
        None => None,
    }
}

// The same for an endpoint.
fn earliest(header: &Header, endpoint: &Endpoint) -> Option<u64>
    ensures some { IfSome result (λ m. IsStillBefore header.now m endpoint.now) }
    ensures none { IfNone result (IsStill header.now endpoint.now) }
{
    if endpoint.state.is_closed() {
        return None;
    }
    let again = again_due(header, endpoint);
    let probe = probe_due(header, endpoint);
    let over = wait_over(header, endpoint);
    least(again, least(probe, over))
}

// The same for the retransmission timer only.
fn again_due(header: &Header, endpoint: &Endpoint) -> Option<u64>
    ensures { IsSlow header.now endpoint.now Rto result }
{
    let timers = &endpoint.timers;
    due_since(timers.rto_armed, timers.rto, header.grain)
}

// For the persist timer, which needs something to send.
fn probe_due(header: &Header, endpoint: &Endpoint) -> Option<u64>
    ensures { IsSlow header.now endpoint.now Persist result }
{
    if !endpoint.is_up() {
        return None;
    }
    if !has_more(endpoint) {
        return None;
    }
    let timers = &endpoint.timers;
    due_since(timers.persist_armed, timers.rto, header.grain)
}

// For the wait in TIME-WAIT.
fn wait_over(header: &Header, endpoint: &Endpoint) -> Option<u64>
    ensures { IsSlow header.now endpoint.now Msl2 result }
{
    let time = header.msl.saturating_mul(2);
    due_since(endpoint.timers.msl_armed, time, header.grain)
}

// When a timer that is armed since a moment and runs for so long may expire at the earliest, by a clock of this grain.
fn due_since(armed: Option<u64>, time: u64, grain: u64) -> Option<u64>
    ensures { IsDueSince armed time grain result }
{
    match armed {
        Some(since) => Some(since.max(since.saturating_add(time).saturating_sub(grain))),
        None => None,
    }
}

// The lesser of two moments, if both exist; else the one that does.
fn least(one: Option<u64>, other: Option<u64>) -> Option<u64>
    ensures { result ≡ least one other }
{
    match (one, other) {
        (Some(one), Some(other)) => Some(one.min(other)),
        (Some(one), None) => Some(one),
        (None, other) => other,
    }
}

// A timer that may expire at a moment, at any endpoint. This goes over all of them, for the case that memory ran out
// for the list of those to visit. None: no retransmission timer, persist timer or wait in TIME-WAIT may.
fn find_any_due(recording: &Recording, moment: u64) -> Option<Due>
    requires steps { steps_in recording.now.entries < most_steps }
    ensures some { IfSome result (λ due. IsDueAt recording.now moment due.ports due.expired) }
    ensures tried { IfSome result (λ due. IfChosen recording.now due.ports due.expired) }
    ensures none { IfNone result (NoneDueAt recording.now moment) }
{
    recording.few_endpoints();
    let body = recording.body();
    let mut place = 0u32;
    while let Some(endpoint) = body.endpoint_at(place) {
        if let Some(due) = due_at(recording, moment, endpoint) {
            return Some(due);
        }
        place += 1;
    }
    None
}

// The same for an endpoint.
fn due_at(recording: &Recording, moment: u64, endpoint: &Endpoint) -> Option<Due>
    requires steps { steps_in recording.now.entries < most_steps }
    ensures some { IfSome result (λ due. IsDueAt recording.now moment due.ports due.expired) }
    ensures tried { IfSome result (λ due. IfChosen recording.now due.ports due.expired) }
    ensures none { IfNone result (IsRefused recording.now moment
        (record { lport = endpoint.now.lport; rport = endpoint.now.rport })) }
{
    let ports = Ports {
        lport: endpoint.lport,
        rport: endpoint.rport,
    };
    if has_tried(recording, ports) {
        if let Some(due) = ask(recording, moment, ports, Expired::Giveup) {
            return Some(due);
        }
    }
    let least = Expired::Rto(RtoChoice {
        cwnd: 0,
        ssthresh: 0,
    });
    if let Some(due) = ask(recording, moment, ports, least) {
        return match ask(
            recording,
            moment,
            ports,
            Expired::Rto(at_timeout(endpoint, moment)),
        ) {
            Some(greatest) => Some(greatest),
            None => Some(due),
        };
    }
    if let Some(due) = ask(recording, moment, ports, Expired::Persist) {
        return Some(due);
    }
    ask(recording, moment, ports, Expired::Msl2)
}

// Whether so many timers of the endpoint of these ports expired that it gives up.
fn has_tried(recording: &Recording, ports: Ports) -> bool
    ensures { result ≡ true → HasTried recording.now ports }
{
    match recording.body().endpoint_of(ports.lport, ports.rport) {
        Some(endpoint) => TRIES <= endpoint.unanswered_expiries && !endpoint.state.is_fin_wait_2(),
        None => false,
    }
}

// The timer, if it may expire.
fn ask(recording: &Recording, moment: u64, ports: Ports, expired: Expired) -> Option<Due>
    requires steps { steps_in recording.now.entries < most_steps }
    ensures some { IfSome result (λ due. IsDueAt recording.now moment due.ports due.expired) }
    ensures same { IfSome result (λ due. due ≡ record { ports = ports; expired = expired }) }
    ensures none { IfNone result (IsNotDueAt recording.now moment ports expired) }
{
    let line = TakenLine::Expired {
        line: 0,
        host: recording.me(),
        ports,
        expired,
    };
    let may = recording.admits(moment, &Label::L(line)).is_ok();
    due_if(may, Due { ports, expired })
}
