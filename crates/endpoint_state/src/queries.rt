//! Further queries of a world: what waits in an inbox, and the answer that a call had.

ghost use Rattle.std.specs.Prelude.{◌≡◌};
ghost use Rattle.std.specs.Option.{option_copied};
ghost use Rattle.spec_network.specs.Hosts.{turn_of};
ghost use Rattle.spec_network.specs.Tables.{pick, waiting};
ghost use Rattle.endpoint_state.specs.Turns.{given_answer};

use crate::threads::given_answer;
use crate::world::World;
use case_forms::{Answer, Host};
use spec_tcp::Emission;

impl World {
    /// The segment that arrived at a host with this line, and waits in its inbox. None: none arrived with it, or it no
    /// longer waits.
    pub fn waiting(&self, host: Host, line: u64) -> Option<&Emission>
        ensures { option_copied result ≡ waiting line (pick self.now.world.hosts host).inbox }
    {
        self.hosts.near(host).waiting(line)
    }

    /// The answer that a thread's open call had. None: no call is open, or it had no effect yet.
    pub fn given_answer(&self, thread: u32) -> Option<&Answer>
        ensures { option_copied result ≡ given_answer (turn_of thread self.now.world.threads) }
    {
        given_answer(&self.threads, thread)
    }
}
