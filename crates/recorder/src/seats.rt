//! Seats that are returned if a recorder isn't finished.

ghost use Rattle.std.specs.Prelude.{◌≡◌};

use crate::seat::Seat;
use std::marker::Model;
use std::sync::ledger::Ledger;

/// Seats in the order in which they were handed in, which contracts see as a list.
#[derive(Drop)]
pub struct Seats<L: Ledger> {
    seats: Vec<Seat<L>>,
}

impl<L: Ledger> Model for Seats<L> {
    ghost use Rattle.std.specs.Prelude.{List};
    ghost use Rattle.recorder.specs.Views.{SeatView};

    ghost Value = { List SeatView };

    ghost view = { λ s. s.seats.items };
}

impl<L: Ledger> Seats<L> {
    // These seats.
    pub(crate) fn new(seats: Vec<Seat<L>>) -> Seats<L>
        ensures { result ≡ seats.items }
    {
        Seats { seats }
    }

    /// The seats in their order.
    pub fn as_slice(&self) -> &[Seat<L>]
        ensures { result.now ≡ self.now }
    {
        self.seats.as_slice()
    }

    /// The seats as `Recorder::finish` takes them.
    pub fn into_vec(self) -> Vec<Seat<L>>
        ensures { result.items ≡ self }
    {
        let Seats { seats } = self;
        seats
    }
}
