//! What an acknowledgment delivers.

ghost use Rattle.std.specs.Prelude.{◌≡◌, OnOk};
ghost use Rattle.std.specs.FinSet.{from_list, items};
ghost use Rattle.spec_flights.specs.Delivered.{delivered, heard, latest_after, least_after, with_all_ends, within};

use crate::scoreboard::Scoreboard;
use crate::walk::{add_ends, latest_in, least_in};
use case_forms::OutOfMemory;
use flight_parts::add_reports;
use spec_flights::{Latest, Reports, Stretch};

impl Scoreboard {
    // The least round trip, by what is in flight of these positions.
    fn least_in(&self, moment: u64, least: Option<u64>, stretch: Stretch) -> Option<u64>
        ensures { result ≡ least_after moment least (within stretch self.now) }
    {
        least_in(&self.known, &self.told, moment, least, stretch)
    }

    // The same by all that is delivered.
    fn least_after(&self, moment: u64, acked: Stretch, r: &Reports) -> Option<u64>
        ensures { result ≡ least_after moment self.now.least (delivered acked.from acked.upto r.now self.now) }
    {
        let least = self.least_in(moment, self.least, acked);
        let least = self.least_in(moment, least, r.first);
        let least = self.least_in(moment, least, r.second);
        let least = self.least_in(moment, least, r.third);
        self.least_in(moment, least, r.fourth)
    }

    // What was delivered and built last, by what is in flight of these positions.
    fn latest_in(
        &self,
        moment: u64,
        least: Option<u64>,
        latest: Option<Latest>,
        stretch: Stretch,
    ) -> Option<Latest>
        ensures { result ≡ latest_after moment least latest (within stretch self.now) }
    {
        latest_in(&self.known, &self.told, moment, least, latest, stretch)
    }

    // The same by all that is delivered.
    fn latest_after(
        &self,
        moment: u64,
        least: Option<u64>,
        acked: Stretch,
        r: &Reports,
    ) -> Option<Latest>
        ensures { result ≡ latest_after moment least self.now.latest (delivered acked.from acked.upto r.now self.now) }
    {
        let latest = self.latest_in(moment, least, self.latest, acked);
        let latest = self.latest_in(moment, least, latest, r.first);
        let latest = self.latest_in(moment, least, latest, r.second);
        let latest = self.latest_in(moment, least, latest, r.third);
        self.latest_in(moment, least, latest, r.fourth)
    }

    // Adds the positions with which segments end, of what is reported.
    fn note_ends(&mut self, r: &Reports) -> Result<(), OutOfMemory>
        ensures { OnOk result (self.new ≡ record self.old {
          ends = items (with_all_ends (from_list self.old.ends) r.now self.old);
        }) }
    {
        add_ends(&mut self.ends, &self.known, &self.told, r.first)?;
        add_ends(&mut self.ends, &self.known, &self.told, r.second)?;
        add_ends(&mut self.ends, &self.known, &self.told, r.third)?;
        add_ends(&mut self.ends, &self.known, &self.told, r.fourth)
    }

    /// Takes an acknowledgment of these positions, with these reports. If memory runs out, nothing of it is of use any
    /// more.
    pub(crate) fn hear(
        &mut self,
        moment: u64,
        acked: Stretch,
        r: &Reports,
    ) -> Result<(), OutOfMemory>
        ensures { OnOk result (self.new ≡ heard moment acked.from acked.upto r.now self.old) }
    {
        let least = self.least_after(moment, acked, r);
        self.latest = self.latest_after(moment, least, acked, r);
        self.least = least;
        self.note_ends(r)?;
        add_reports(&mut self.told, r)?;
        self.told.forget_below(acked.upto);
        self.ends.forget_below(acked.upto);
        self.known.forget_below(acked.upto);
        Ok(())
    }
}
