//! Calls that wait: whether their answers are late, and what is kept of them after a step.
//! `lib.rt` says why functions here are inlined.

ghost use Rattle.std.specs.Prelude.{◌≡◌, OnOk, None, Some};
ghost use Rattle.std.specs.Result.{result_err};
ghost use Rattle.verdict.specs.Rules.{first_broken};
ghost use Rattle.spec_network.specs.Tables.{waiting};
ghost use Rattle.spec_duties.specs.Answering.{answer_since, answered, answered_since, call_noted, is_answer_late};
ghost use Rattle.spec_duties.specs.Answering.{not_ready, owed_by_thread, ready_at, ready_for, renewed, renewed_at};
ghost use Rattle.spec_duties.specs.Answering.{threads_after, unanswered_since, with_ready};
ghost use Rattle.spec_duties.specs.Watching.{answer_rules};

use crate::answering::{answer_due, not_ready, ready_since, renewed, unanswered_since};
use crate::deadlines::is_late;
use crate::steps::{Duties, rule_of};
use case_forms::{Host, OutOfMemory};
use spec_duties::{CallChange, OpenCall, Untruth, Waitable, Waiting};
use spec_tcp::SocketTarget;
use verdict::Rule;

impl Duties {
    /// The open calls that may have to wait, each with its thread; None once it ended.
    pub fn open_calls(&self) -> &[(u64, Option<OpenCall>)]
        ensures { result.now ≡ self.now.waits.threads }
    {
        self.waits.threads()
    }

    /// Since when no such call has to wait, in microseconds. None: it may have to.
    pub fn ready_for(&self, waiting: Waiting) -> Option<u64>
        ensures { result ≡ ready_for self.now.waits waiting }
    {
        match self.waits.ready_at(waiting.host, waiting.target) {
            Some(ready) => ready_since(ready, waiting.awaited),
            None => None,
        }
    }

    /// Since when an answer is owed to a call that has it, in microseconds. None: none is owed.
    pub fn answered_since(&self, call: OpenCall) -> Option<u64>
        ensures { result ≡ answered_since self.now.waits call }
    {
        match call {
            OpenCall::Waits { .. } => None,
            OpenCall::Answered {
                since,
                host,
                target,
            } => match self.waits.ready_at(host, target) {
                Some(_) => Some(since),
                None => None,
            },
        }
    }

    // Since when an answer is owed to the call of a thread that waits for this.
    fn unanswered_by(&self, thread: u32, waiting: Waiting) -> Option<u64>
        ensures { result ≡ owed_by_thread self.now.waits thread (unanswered_since (ready_for self.now.waits waiting)) }
    {
        match self.waits.call_of(thread) {
            Some(call) => unanswered_since(self.ready_for(waiting), call),
            None => None,
        }
    }

    /// Since when an answer is owed to the call that gets its answer in a step, or whose program does.
    pub fn answer_since(&self, change: CallChange) -> Option<u64>
        ensures { result ≡ answer_since self.now.waits change }
    {
        match change {
            CallChange::Answers {
                thread,
                waiting: Some(waiting),
            } => self.unanswered_by(thread, waiting),
            CallChange::Ends(thread) => match self.waits.call_of(thread) {
                Some(call) => self.answered_since(call),
                None => None,
            },
            CallChange::Nothing
            | CallChange::Begins { .. }
            | CallChange::Answers { waiting: None, .. } => None,
        }
    }

    // Whether nothing is refused of a step that touches no endpoint.
    #[inline(always)]
    pub(super) fn admits_answer(
        &self,
        slack: u64,
        moment: u64,
        untrue: Option<Untruth>,
        change: CallChange,
    ) -> Result<(), Rule>
        ensures { result_err result ≡ first_broken (answer_rules slack moment self.now untrue change) }
    {
        if let Some(untruth) = untrue {
            return Err(rule_of(untruth));
        }
        if is_late(slack, moment, answer_due(self.answer_since(change))) {
            return Err(Rule::AnswerLate);
        }
        Ok(())
    }

    fn answered(&self, moment: u64, thread: u32, waiting: Waiting) -> OpenCall
        ensures { result ≡ answered self.now.waits moment thread waiting }
    {
        let since = match self.unanswered_by(thread, waiting) {
            Some(since) => since,
            None => moment,
        };
        OpenCall::Answered {
            since,
            host: waiting.host,
            target: waiting.target,
        }
    }

    /// Notes what a step does to the call of a thread. If memory runs out, the duties are of no use any more.
    pub fn note_call(&mut self, moment: u64, change: CallChange) -> Result<(), OutOfMemory>
        ensures { OnOk result (self.new
            ≡ record self.old { waits = call_noted moment change self.old.waits }) }
    {
        match change {
            CallChange::Nothing => Ok(()),
            CallChange::Begins {
                thread,
                socket,
                awaited,
            } => {
                let call = OpenCall::Waits {
                    since: moment,
                    socket,
                    awaited,
                };
                self.waits.insert_thread(thread, Some(call))
            }
            CallChange::Answers {
                thread,
                waiting: Some(waiting),
            } => {
                let call = self.answered(moment, thread, waiting);
                self.waits.insert_thread(thread, Some(call))
            }
            CallChange::Answers {
                thread,
                waiting: None,
            } => self.waits.insert_thread(thread, None),
            CallChange::Ends(thread) => self.waits.insert_thread(thread, None),
        }
    }

    /// Notes which calls on what a socket number names may have to wait after a step, if the number is live. If memory
    /// runs out, the duties are of no use any more.
    pub fn note_waitable(
        &mut self,
        moment: u64,
        host: Host,
        target: SocketTarget,
        may: Waitable,
    ) -> Result<(), OutOfMemory>
        ensures { OnOk result (self.new
            ≡ record self.old { waits = renewed_at may moment host target self.old.waits }) }
    {
        match self.waits.ready_at(host, target) {
            Some(ready) => {
                let next = renewed(may, moment, ready);
                self.waits.insert_ready(host, target, Some(next))
            }
            None => Ok(()),
        }
    }

    /// Notes that a step returns a socket number for this target. If memory runs out, the duties are of no use any
    /// more.
    pub fn note_given(
        &mut self,
        moment: u64,
        host: Host,
        target: SocketTarget,
        may: Waitable,
    ) -> Result<(), OutOfMemory>
        ensures { OnOk result (self.new ≡ record self.old {
          waits = with_ready self.old.waits host target (Some (renewed may moment not_ready));
        }) }
    {
        let ready = renewed(may, moment, not_ready());
        self.waits.insert_ready(host, target, Some(ready))
    }

    /// Notes that the socket number of this target isn't live any more. If memory runs out, the duties are of no use
    /// any more.
    pub fn note_closed(&mut self, host: Host, target: SocketTarget) -> Result<(), OutOfMemory>
        ensures { OnOk result (self.new
            ≡ record self.old { waits = with_ready self.old.waits host target None }) }
    {
        self.waits.insert_ready(host, target, None)
    }
}
