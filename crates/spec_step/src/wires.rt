//! What is on the hosts' wires, by host and line.

ghost use Rattle.std.specs.Prelude.{◌≡◌, nat_eq, OnOk, OnErr};
ghost use Rattle.std.specs.Map.{lookup};
ghost use Rattle.std.specs.Option.{option_copied};
ghost use Rattle.spec_network.specs.Tables.{pick};
ghost use Rattle.spec_tcp.specs.Bounds.{IsSmallEmission};
ghost use Rattle.endpoint_state.specs.Worlds.{brought};

use case_forms::{Host, OutOfMemory};
use endpoint_state::World;
use spec_tcp::Emission;

/// The segment that a host sent with this line of the trace, or that `bring` put there. None: there is none.
pub fn sent(world: &World, host: Host, line: u64) -> Option<&Emission>
    ensures { option_copied result ≡ lookup (nat_eq line) (pick world.now.world.hosts host).wire }
{
    world.sent(host, line)
}

/// Puts a segment on a host's wire under this line, replacing any that was there. It isn't a step and changes nothing
/// else: a copy that already arrived stays as it was. The error is that memory ran out; nothing is changed then.
pub fn bring(
    world: &mut World,
    host: Host,
    line: u64,
    emission: &Emission,
) -> Result<(), OutOfMemory>
    requires small { IsSmallEmission emission.now }
    ensures ok { OnOk result (world.new ≡ brought world.old host line emission.now) }
    ensures err { OnErr result (world.new ≡ world.old) }
{
    world.bring(host, line, emission)
}
