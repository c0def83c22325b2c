//! Facts on segments in transit, for callers that prove more: contracts of calls that do nothing.

ghost use Rattle.std.specs.Prelude.{◌≡◌, ◌++◌, List};
ghost use Rattle.case_forms.specs.Traces.{first_event_line};
ghost use Rattle.case_forms.specs.declared.calls.Host.{Host};
ghost use Rattle.case_forms.specs.declared.calls.Host.TheVariants.{Zero, One};
ghost use Rattle.case_forms.specs.declared.trace.Header.{Header};
ghost use Rattle.spec_network.specs.Tables.{Both};
ghost use Rattle.spec_tcp.specs.Machine.{tcp, tcp_shape};
ghost use Rattle.spec_merge.specs.Books.{Bring, Flying};
ghost use Rattle.spec_merge.specs.Keys.{Books, NamesOne};
ghost use Rattle.spec_merge.specs.Recordings.{IsKept, TcpEntry};
ghost use Rattle.stack_core.specs.declared.tick.Tick.{Tick};
ghost use Rattle.stack_core.specs.CoreWorlds.{Event, IsCoreWorld, Side, entries_of};
ghost use Rattle.stack_core.specs.Flown.{HasFlown, IsAbove};
ghost use Rattle.stack_core.specs.Keys.{key_of};
ghost use Rattle.stack_core.specs.Recordings.{Recorded, world_left};

/// A segment that a host sent is on its wire from then on, however the host's recording grows. If it is brought at a
/// tick above the event that sent it, what is brought names it.
pub fn what_flew_is_named()
    ensures stays { (h : Header) (me : Host) (old more : List TcpEntry) (f : Flying tcp_shape)
        → HasFlown (record { header = h; me = me; entries = old }) f → IsKept h me (first_event_line h) (old ++ more)
        → HasFlown (record { header = h; me = me; entries = old ++ more }) f }
    ensures named { (r : Recorded) (me : Host) (f : Flying tcp_shape) (tick : Tick) → HasFlown r f → IsAbove f tick
        → NamesOne (tcp r.header) r.me (world_left r) r.entries (key_of me tick) (Bring f) }
{}

/// Two cores have one header, after any events of both, some of which may have run out of memory. Segments that one
/// sent arrive at the other any number of times, in any order, or never. Then their recordings are two matching books.
pub fn core_worlds_are_books()
    ensures books { (h : Header) (events : List Event) (cores : Both Side) → IsCoreWorld h events cores
        → Books (tcp h) (first_event_line h) (entries_of Zero cores) (entries_of One cores) }
    ensures hosts { (h : Header) (events : List Event) (cores : Both Side) → IsCoreWorld h events cores
        → (cores.zero.core.recorded ≡ record { header = h; me = Zero; entries = entries_of Zero cores })
        × (cores.one.core.recorded ≡ record { header = h; me = One; entries = entries_of One cores }) }
{}
