//! The open call of a thread has its effect, and ends.

ghost use Rattle.std.specs.Prelude.{◌≡◌, ◌<◌, ◌≤◌, false, length, IfNone, IfOk, OnErr};
ghost use Rattle.std.specs.Option.{IfSome};
ghost use Rattle.spec_network.specs.Tables.{lane};
ghost use Rattle.spec_network.specs.Hosts.{turn_of};
ghost use Rattle.stack_core.specs.Cores.{GivesNext, IsAfter, IsRecorded, next_socket, own_body, world};
ghost use Rattle.stack_core.specs.Entries.{steps_in};
ghost use Rattle.stack_core.specs.Answers.{is_again};
ghost use Rattle.stack_core.specs.CoreWorlds.{Leaves};
ghost use Rattle.stack_core.specs.CoreWorlds.CoreCall.{Attempt};
ghost use Rattle.stack_core.specs.CallEvents.{IsAttempted, IsAttemptShort, KeptNoAnswer, MayAnswer, NoAnswer};

use crate::answered::Answered;
use crate::answers::choose;
use crate::deadline_queue::Affected;
use crate::host_core::HostCore;
use crate::tick::Tick;
use case_forms::{Answer, Call, Host, OutOfMemory};
use endpoint_state::HostTcp;
use recording_parts::call_end;
use spec_step::Label;
use spec_tcp::SocketTarget;
use spec_tcp_laws::forgetting_is_free;

// What a call is about.
#[derive(Clone, Copy)]
enum Subject {
    /// No endpoint whose duties the call changes.
    Nothing,
    /// The endpoint that it opens, by its ports.
    Opened(u16, u16),
    /// The endpoint at this place.
    At(u32),
}

impl HostCore {
    /// The open call of a thread of this host has its effect, and ends with that answer, which is a line. If it gives a
    /// socket number, that is the next one. None: nothing is changed, because the thread has no open call without
    /// effect, or the call waits (for `send`: before the handshake is done, or while the ring is full). The error is
    /// that memory ran out; then the tick has passed, and the effect may be recorded without the end.
    pub fn attempt(&mut self, thread: u32, tick: Tick) -> Result<Option<Answered>, OutOfMemory>
        requires tick { IsAfter self.old.last tick }
        requires events { self.old.events < 10000000 }
        requires lane { lane thread ≡ self.old.recorded.me }
        ensures some { IfOk result (λ o. IfSome o (λ a. IsAttempted self.old tick thread a self.new)) }
        ensures once { IfOk result (λ o. IfSome o (λ a. is_again a.answer ≡ false)) }
        ensures gives { IfOk result (λ o. IfSome o
            (λ a. GivesNext self.old.recorded.me (own_body self.old)
            (turn_of thread (world self.old).threads) a.answer)) }
        ensures none { IfOk result (λ o. IfNone o ((self.new ≡ self.old) × NoAnswer self.old thread)) }
        ensures err { OnErr result (IsAttemptShort self.old tick thread self.new) }
        ensures leaves { Leaves self.old tick (Attempt thread result) self.new }
        ensures kept { IsRecorded self.new }
    {
        let attempted = self.record_attempt(thread, tick);
        self.is_recording();
        attempted
    }

    // The same, without the fact that what is then recorded is a run.
    fn record_attempt(&mut self, thread: u32, tick: Tick) -> Result<Option<Answered>, OutOfMemory>
        requires tick { IsAfter self.old.last tick }
        requires events { self.old.events < 10000000 }
        requires lane { lane thread ≡ self.old.recorded.me }
        ensures some { IfOk result (λ o. IfSome o (λ a. IsAttempted self.old tick thread a self.new)) }
        ensures once { IfOk result (λ o. IfSome o (λ a. is_again a.answer ≡ false)) }
        ensures gives { IfOk result (λ o. IfSome o
            (λ a. GivesNext self.old.recorded.me (own_body self.old)
            (turn_of thread (world self.old).threads) a.answer)) }
        ensures none { IfOk result (λ o. IfNone o ((self.new ≡ self.old) × NoAnswer self.old thread)) }
        ensures err { OnErr result (IsAttemptShort self.old tick thread self.new) }
    {
        self.bounds();
        let answer = match self.answer(thread) {
            Ok(Some(answer)) => answer,
            Ok(None) => return Ok(None),
            Err(error) => {
                self.begin_event(tick);
                return Err(error);
            }
        };
        let subject = self.subject(thread);
        self.begin_event_with_room(tick)?;
        let effect = Label::D {
            thread,
            answer: answer.copy()?,
        };
        let ending = answer.copy()?;
        let affected = self.affected_by_thread(thread);
        self.add(effect, affected)?;
        let end = call_end(self.line(), thread, ending);
        self.add(end, Affected::Nobody)?;
        self.update_after_answer(subject, &answer);
        Ok(Some(Answered { thread, answer }))
    }

    // What the open call of a thread is about.
    fn subject(&self, thread: u32) -> Subject {
        let Some(call) = self.recording.pending_call(thread) else {
            return Subject::Nothing;
        };
        match call {
            Call::Connect(_, lport, rport) => Subject::Opened(*lport, *rport),
            Call::Send(number, _)
            | Call::Recv(number, _)
            | Call::Shut(number)
            | Call::Close(number)
            | Call::Abort(number) => match self.recording.body().target(*number) {
                Some(SocketTarget::EndpointAt(place)) => Subject::At(place),
                Some(SocketTarget::ListenerAt(_)) | None => Subject::Nothing,
            },
            Call::Listen(_, _, _) | Call::Await(_) | Call::Accept(_) | Call::Status(_) => {
                Subject::Nothing
            }
        }
    }

    // Remembers what an answer requires of the endpoint that it is about.
    fn update_after_answer(&mut self, subject: Subject, answer: &Answer)
        ensures { self.new ≡ self.old }
    {
        let body = self.recording.body();
        let found = match subject {
            Subject::Nothing => None,
            Subject::Opened(lport, rport) => body.place_of(lport, rport),
            Subject::At(place) => Some(place),
        };
        let Some(place) = found else {
            return;
        };
        if let Some(endpoint) = body.endpoint_at(place) {
            let send_state = self
                .send_states
                .at(place)
                .after_call(endpoint, answer, self.config.ring);
            self.send_states.set(place, send_state);
        }
    }

    // The answer that the open call of a thread has now. None: there is no such call, or it waits.
    fn answer(&self, thread: u32) -> Result<Option<Answer>, OutOfMemory>
        requires few { steps_in self.now.recorded.entries < 1000000000 }
        ensures permitted { IfOk result (λ o. IfSome o (λ a. MayAnswer self.now thread a)) }
        ensures once { IfOk result (λ o. IfSome o (λ a. is_again a ≡ false)) }
        ensures gives { IfOk result (λ o. IfSome o
            (λ a. GivesNext self.now.recorded.me (own_body self.now) (turn_of thread (world self.now).threads) a)) }
        ensures none { IfOk result (λ o. IfNone o (KeptNoAnswer self.now thread)) }
    {
        forgetting_is_free();
        self.bounds();
        self.recording.is_recording();
        let Some(call) = self.recording.pending_call(thread) else {
            return Ok(None);
        };
        let body = self.recording.body();
        choose(
            self.recording.allocator(),
            self.recording.header().version,
            body,
            call,
            next_socket(self.me(), body),
            self.config.ring,
        )
    }
}

// The next socket number that a host gives.
fn next_socket(me: Host, body: &HostTcp) -> u32
    requires few { length body.now.sockets ≤ 1000000000 }
    ensures { result ≡ next_socket me body.now }
{
    let first = match me {
        Host::Zero => 2,
        Host::One => 3,
    };
    first + 2 * body.socket_count() as u32
}
