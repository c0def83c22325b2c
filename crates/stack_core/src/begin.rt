//! A thread begins a call.

ghost use Rattle.std.specs.Prelude.{◌≡◌, ◌<◌, OnOk, OnErr};
ghost use Rattle.spec_network.specs.Hosts.{Idle, turn_of};
ghost use Rattle.spec_network.specs.Tables.{lane};
ghost use Rattle.spec_tcp.specs.Machine.{aim};
ghost use Rattle.spec_merge.specs.Books.{Aims};
ghost use Rattle.stack_core.specs.Cores.{IsAfter, IsCallWithin, IsRecorded, event_begun, world};
ghost use Rattle.stack_core.specs.CallEvents.{begun};
ghost use Rattle.stack_core.specs.CoreWorlds.{Leaves};
ghost use Rattle.stack_core.specs.CoreWorlds.CoreCall.{Begin};

use crate::deadline_queue::Affected;
use crate::host_core::HostCore;
use crate::tick::Tick;
use case_forms::{Call, OutOfMemory, TakenLine};
use spec_step::Label;

impl HostCore {
    /// A thread of this host, which is in no call, begins one on this host or on a socket number of its own. This adds
    /// the line of the call. The error is that memory ran out; then the tick has passed, and nothing is added.
    pub fn begin(&mut self, thread: u32, call: &Call, tick: Tick) -> Result<(), OutOfMemory>
        requires tick { IsAfter self.old.last tick }
        requires events { self.old.events < 10000000 }
        requires idle { turn_of thread (world self.old).threads ≡ Idle }
        requires lane { lane thread ≡ self.old.recorded.me }
        requires aims { Aims self.old.recorded.me (aim call.now) }
        requires within { IsCallWithin call.now }
        ensures ok { OnOk result (self.new ≡ begun self.old tick thread call.now) }
        ensures err { OnErr result (self.new ≡ event_begun self.old tick) }
        ensures leaves { Leaves self.old tick (Begin thread call.now result) self.new }
        ensures kept { IsRecorded self.new }
    {
        let begun = self.record_begin(thread, call, tick);
        self.is_recording();
        begun
    }

    // The same, without the fact that what is then recorded is a run.
    fn record_begin(&mut self, thread: u32, call: &Call, tick: Tick) -> Result<(), OutOfMemory>
        requires tick { IsAfter self.old.last tick }
        requires events { self.old.events < 10000000 }
        requires idle { turn_of thread (world self.old).threads ≡ Idle }
        requires lane { lane thread ≡ self.old.recorded.me }
        requires aims { Aims self.old.recorded.me (aim call.now) }
        requires within { IsCallWithin call.now }
        ensures ok { OnOk result (self.new ≡ begun self.old tick thread call.now) }
        ensures err { OnErr result (self.new ≡ event_begun self.old tick) }
    {
        self.begin_event(tick);
        let line = TakenLine::CallBegin {
            line: self.line(),
            thread,
            call: call.copy()?,
        };
        self.add(Label::L(line), Affected::Nobody)
    }
}
