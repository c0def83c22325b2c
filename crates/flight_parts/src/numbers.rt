//! The numbers of segments, under which they are built and sent.

ghost use Rattle.std.specs.Prelude.{◌≡◌, suc};
ghost use Rattle.spec_flights.specs.Scoreboard.{number_built, number_sent};

use spec_duties::BuiltChange;

/// The number under which a step builds a segment.
pub fn number_built(change: BuiltChange) -> u32
    ensures { result ≡ number_built change }
{
    match change {
        BuiltChange::Builds(number) => number,
        BuiltChange::Nothing | BuiltChange::Sends(_) => 0,
    }
}

/// The number under which what a step sends was built.
pub fn number_sent(change: BuiltChange) -> u32
    ensures { result ≡ number_sent change }
{
    match change {
        BuiltChange::Sends(number) => number,
        BuiltChange::Nothing | BuiltChange::Builds(_) => 0,
    }
}

/// The number after this one.
pub fn number_after(number: u32) -> u64
    ensures { result ≡ suc number }
{
    u64::from(number) + 1
}
