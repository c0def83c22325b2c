//! The stricter duties of version 6: which are late at an endpoint, and what is kept for them after a step.
//! `lib.rt` says why functions here are inlined.

ghost use Rattle.std.specs.Prelude.{◌≡◌, if◌then◌else◌, OnOk};
ghost use Rattle.spec_network.specs.Tables.{on, pick, with_host};
ghost use Rattle.spec_duties.specs.Sampling.{is_sample_due};
ghost use Rattle.spec_duties.specs.Watching.{built_unsent, credits_after, credits_earned};
ghost use Rattle.spec_duties.specs.Watching.{credits_spent, judged_lates, lacks_credit};
ghost use Rattle.spec_duties.specs.Watching.{sends_in_excess, sent_by, strict_by};
ghost use Rattle.spec_duties.specs.Watching.{strict_table_after, unsent_after};

use crate::acknowledge::acknowledge_due;
use crate::credits::{earliest_credit, is_keep_alive, needs_credit};
use crate::deadlines::is_late;
use crate::owed::lates_of;
use crate::sampling::is_sample_due;
use crate::steps::Duties;
use crate::strict::{is_spared, strict_after, strict_lates, taken_over, with_brought};
use case_forms::{Header, Host, OutOfMemory};
use spec_duties::{
    BuiltChange, Lates, Observation, Sampling, StrictOwed, TouchedEndpoint, Unsent, View,
};
use spec_tcp::EndpointId;

impl Duties {
    /// What the endpoint at a place owes by the stricter duties.
    #[inline(always)]
    pub fn strict_by(&self, host: Host, place: u32) -> StrictOwed
        ensures { result ≡ strict_by self.now host place }
    {
        self.strict.owed_by(host, place)
    }

    /// The segments that were built in version 6, each with its number; None once it was sent.
    pub fn unsent(&self) -> &[(u64, Option<Unsent>)]
        ensures { result.now ≡ self.now.unsent }
    {
        self.strict.unsent()
    }

    // The segment that was built in version 6 and is sent.
    #[inline(always)]
    pub(super) fn sent_by(&self, built_change: BuiltChange) -> Option<Unsent>
        ensures { result ≡ sent_by self.now built_change }
    {
        match built_change {
            BuiltChange::Sends(number) => self.strict.unsent_at(number),
            BuiltChange::Nothing | BuiltChange::Builds(_) => None,
        }
    }

    // Whether a segment needs a credit that its endpoint doesn't have.
    #[inline(always)]
    fn lacks_credit(&self, slack: u64, host: Host, place: u32, unsent: &Unsent) -> bool
        ensures { result ≡ lacks_credit slack self.now host place unsent.now }
    {
        unsent.costs
            && !self
                .strict
                .has_credit(host, place, earliest_credit(slack, unsent.since))
    }

    // Whether a segment is sent that needs such a credit.
    #[inline(always)]
    pub(super) fn sends_in_excess(
        &self,
        header: &Header,
        slack: u64,
        sent: &Option<Unsent>,
        touched: &TouchedEndpoint,
    ) -> bool
        ensures { result ≡ sends_in_excess header.now slack self.now sent.now touched.now }
    {
        match sent {
            Some(unsent) => {
                header.version.says_sender()
                    && self.lacks_credit(slack, touched.host, touched.place, unsent)
            }
            None => false,
        }
    }

    // Whether a measurement is due at the endpoint that a step touches, and isn't made.
    #[inline(always)]
    pub(super) fn is_sample_due(&self, sampling: Sampling, touched: &TouchedEndpoint) -> bool
        ensures { result ≡ is_sample_due sampling (strict_by self.now touched.now.host touched.now.place).timed }
    {
        match sampling {
            Sampling::Skips(_) => {
                let strict = self.strict_by(touched.host, touched.place);
                is_sample_due(sampling, strict.timed)
            }
            Sampling::Nothing | Sampling::Measures => false,
        }
    }

    /// Which duties of an endpoint are late, if it is seen like this: in version 6, by the stricter ones. `brought`:
    /// since when the acknowledgment is owed that a segment brings which is sent now.
    #[inline(always)]
    pub fn judged_lates(
        &self,
        header: &Header,
        slack: u64,
        moment: u64,
        brought: Option<u64>,
        id: EndpointId,
        v: &View,
    ) -> Lates
        ensures { result ≡ judged_lates header.now slack moment self.now brought id.host id.number v.now }
    {
        let closed = self.listener_closed(id.host, v);
        let owed = self.owed_by(id.host, id.number);
        if !header.version.says_sender() {
            return lates_of(slack, moment, v, closed, &owed);
        }
        let strict = self.strict_by(id.host, id.number);
        let lates = strict_lates(header.grain, slack, moment, v, closed, &owed, &strict);
        with_brought(is_late(slack, moment, acknowledge_due(brought)), lates)
    }

    #[inline(always)]
    fn built_unsent(&self, moment: u64, touched: &Option<TouchedEndpoint>, after: &View) -> Unsent
        ensures { result ≡ built_unsent after.now moment self.now touched.now }
    {
        match touched {
            Some(touched) => {
                let (event, before) = (&touched.event, &touched.before);
                let strict = self.strict_by(touched.host, touched.place);
                Unsent {
                    since: moment,
                    acknowledge: taken_over(event, strict.acknowledge),
                    spared: is_spared(event, before),
                    costs: needs_credit(event, before, after, moment, strict.kept_alive),
                    keeps_alive: is_keep_alive(event, before, after),
                }
            }
            None => Unsent {
                since: moment,
                acknowledge: None,
                spared: false,
                costs: false,
                keeps_alive: false,
            },
        }
    }

    #[inline(always)]
    fn note_unsent(
        &mut self,
        moment: u64,
        seen: &Observation,
        after: &View,
    ) -> Result<(), OutOfMemory>
        ensures { OnOk result (self.new ≡ record self.old {
          unsent = unsent_after after.now moment self.old seen.now.touched seen.now.built_change;
        }) }
    {
        match seen.built_change {
            BuiltChange::Nothing => Ok(()),
            BuiltChange::Builds(number) => {
                let built = self.built_unsent(moment, &seen.touched, after);
                self.strict.insert_unsent(number, Some(built))
            }
            BuiltChange::Sends(number) => self.strict.insert_unsent(number, None),
        }
    }

    #[inline(always)]
    fn note_strict_at(
        &mut self,
        moment: u64,
        sent: &Option<Unsent>,
        sampling: Sampling,
        touched: &TouchedEndpoint,
        after: &View,
    ) -> Result<(), OutOfMemory>
        ensures { OnOk result (self.new ≡ record self.old {
          strict = strict_table_after after.now moment self.old sent.now sampling touched.now;
        }) }
    {
        let acknowledged = self.owed_by(touched.host, touched.place).acknowledged;
        let owed = self.strict_by(touched.host, touched.place);
        let next = strict_after(sampling, touched, after, moment, acknowledged, sent, &owed);
        self.strict.insert_owed(touched.host, touched.place, next)
    }

    // The segment that is sent takes a credit, if it needs one.
    #[inline(always)]
    fn spend_credit(
        &mut self,
        slack: u64,
        sent: &Option<Unsent>,
        touched: &TouchedEndpoint,
    ) -> Result<(), OutOfMemory>
        ensures { OnOk result (self.new ≡ record self.old {
          credits = with_host self.old.credits touched.now.host
              (credits_spent slack touched.now.place sent.now (pick self.old.credits touched.now.host));
        }) }
    {
        match sent {
            Some(unsent) if unsent.costs => {
                let from = earliest_credit(slack, unsent.since);
                self.strict.spend(touched.host, touched.place, from)
            }
            Some(_) | None => Ok(()),
        }
    }

    // The endpoint that a step touches earns a credit, if it does by this step.
    #[inline(always)]
    fn earn_credit(
        &mut self,
        moment: u64,
        earns: bool,
        touched: &TouchedEndpoint,
    ) -> Result<(), OutOfMemory>
        ensures { OnOk result (self.new ≡ record self.old {
          credits = with_host self.old.credits touched.now.host
              (credits_earned earns moment touched.now.place (pick self.old.credits touched.now.host));
        }) }
    {
        if earns {
            self.strict.earn(touched.host, touched.place, moment)
        } else {
            Ok(())
        }
    }

    #[inline(always)]
    fn note_credits(
        &mut self,
        slack: u64,
        moment: u64,
        sent: &Option<Unsent>,
        earns: bool,
        touched: &TouchedEndpoint,
    ) -> Result<(), OutOfMemory>
        ensures { OnOk result (self.new
            ≡ record self.old { credits = credits_after slack moment self.old sent.now earns touched.now }) }
    {
        self.spend_credit(slack, sent, touched)?;
        self.earn_credit(moment, earns, touched)
    }

    // What a step does at the endpoint that it touches. `sent`: the segment that it sends.
    #[inline(always)]
    fn note_touched(
        &mut self,
        slack: u64,
        moment: u64,
        sent: &Option<Unsent>,
        seen: &Observation,
        after: &View,
    ) -> Result<(), OutOfMemory>
        ensures { OnOk result (self.new ≡ record self.old {
          strict =
              on seen.now.touched self.old.strict
              (strict_table_after after.now moment self.old sent.now seen.now.sampling);
          credits =
              on seen.now.touched self.old.credits
              (credits_after slack moment self.old sent.now seen.now.earns);
        }) }
    {
        let Some(touched) = &seen.touched else {
            return Ok(());
        };
        self.note_credits(slack, moment, sent, seen.earns, touched)?;
        self.note_strict_at(moment, sent, seen.sampling, touched, after)
    }

    #[inline(always)]
    fn note_strict(
        &mut self,
        slack: u64,
        moment: u64,
        seen: &Observation,
        after: &View,
    ) -> Result<(), OutOfMemory>
        ensures { OnOk result (self.new ≡ record self.old {
          strict =
              on seen.now.touched self.old.strict
              (strict_table_after after.now moment self.old (sent_by self.old seen.now.built_change)
              seen.now.sampling);
          unsent = unsent_after after.now moment self.old seen.now.touched seen.now.built_change;
          credits =
              on seen.now.touched self.old.credits
              (credits_after slack moment self.old (sent_by self.old seen.now.built_change) seen.now.earns);
        }) }
    {
        let sent = self.sent_by(seen.built_change);
        self.note_unsent(moment, seen, after)?;
        self.note_touched(slack, moment, &sent, seen, after)
    }

    // Notes a step for the stricter duties, if they are judged, before it is noted for the others.
    #[inline(always)]
    pub(super) fn note_if_strict(
        &mut self,
        strict: bool,
        slack: u64,
        moment: u64,
        seen: &Observation,
        after: &View,
    ) -> Result<(), OutOfMemory>
        ensures { OnOk result (self.new ≡ record self.old {
          strict =
              if strict
              then on seen.now.touched self.old.strict
              (strict_table_after after.now moment self.old (sent_by self.old seen.now.built_change)
              seen.now.sampling)
              else self.old.strict;
          unsent =
              if strict then unsent_after after.now moment self.old seen.now.touched seen.now.built_change
              else self.old.unsent;
          credits =
              if strict
              then on seen.now.touched self.old.credits
              (credits_after slack moment self.old (sent_by self.old seen.now.built_change) seen.now.earns)
              else self.old.credits;
        }) }
    {
        if strict {
            self.note_strict(slack, moment, seen, after)
        } else {
            Ok(())
        }
    }
}
