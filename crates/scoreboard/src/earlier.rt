//! Whether something is delivered that was built before a timeout (RFC 5682, 3).

ghost use Rattle.std.specs.Prelude.{◌≡◌};
ghost use Rattle.spec_flights.specs.Delivered.{within};
ghost use Rattle.spec_flights.specs.Undoing.{any_below, delivers_below, delivers_earlier};

use crate::scoreboard::Scoreboard;
use crate::walk::is_any_below;
use flight_parts::number_after;
use spec_duties::View;
use spec_flights::{Began, Reports, Stretch};

impl Scoreboard {
    // Whether something in flight of these positions was built under a lower number.
    fn is_any_below(&self, number: u64, stretch: Stretch) -> bool
        ensures { result ≡ any_below number (within stretch self.now) }
    {
        is_any_below(&self.known, &self.told, number, stretch)
    }

    // The same of what an acknowledgment of these positions delivers.
    fn delivers_below(&self, number: u64, acked: Stretch, r: &Reports) -> bool
        ensures { result ≡ delivers_below number acked.from acked.upto r.now self.now }
    {
        self.is_any_below(number, acked)
            || self.is_any_below(number, r.first)
            || self.is_any_below(number, r.second)
            || self.is_any_below(number, r.third)
            || self.is_any_below(number, r.fourth)
    }

    /// Whether more is acknowledged than at the timeout, though not all that was sent then, and something is delivered
    /// that was built before it. `point`: the position up to which was sent then; `ack`: what is acknowledged.
    pub fn delivers_earlier(
        &self,
        point: u64,
        before: &View,
        after: &View,
        r: &Reports,
        ack: u64,
        timeout: Began,
    ) -> bool
        ensures { result ≡ delivers_earlier point before.now after.now r.now self.now ack timeout }
    {
        let acked = Stretch {
            from: before.snd_una,
            upto: after.snd_una,
        };
        timeout.snd_una < ack
            && ack < point
            && self.delivers_below(number_after(timeout.newest), acked, r)
    }
}
