//! The rules of duties at a step, and what is kept after it.
//! `lib.rt` says why functions here are inlined.

ghost use Rattle.std.specs.Prelude.{◌≡◌, ◌++◌, ℕ, false, nat_eq, unwrap_or, OnOk};
ghost use Rattle.std.specs.Map.{lookup};
ghost use Rattle.std.specs.Option.{option_map, option_map_or};
ghost use Rattle.std.specs.Result.{result_err};
ghost use Rattle.indexmap.specs.IndexMap.{insert_entry};
ghost use Rattle.verdict.specs.Rules.{first_broken};
ghost use Rattle.spec_network.specs.Tables.{on, pick, waiting};
ghost use Rattle.spec_duties.specs.Owed.{late_rules, lates_of, nothing, owed_after};
ghost use Rattle.spec_duties.specs.Watching.{sends_in_excess, sent_by};
ghost use Rattle.spec_duties.specs.Watching.{built_after, built_by, builds_mere_ack, closed_at, counts_for, counts_now};
ghost use Rattle.spec_duties.specs.Watching.{drops_needed, duties_after, duty_rules, inbox_after, is_needed};
ghost use Rattle.spec_duties.specs.Watching.{is_droppable};
ghost use Rattle.spec_duties.specs.Watching.{joined, leaves_late, left, limit_rules, listener_closed, listening_after};
ghost use Rattle.spec_duties.specs.Watching.{listening_at, moved, moved_by, new_listening, owed_by, owed_table_after};
ghost use Rattle.spec_duties.specs.Watching.{queued, rule_of, sent_late, start, touched_rules};

mod answers;
mod strict;

use crate::answer_tables::AnswerTables;
use crate::deadlines::is_late_at_once;
use crate::excess::{is_excess, is_mere_ack, one_more};
use crate::owed::{admits_lates, admits_owed, nothing, owed_after, owed_open};
use crate::per_host::PerHost;
use crate::resent::{is_resent, is_resent_beyond};
use crate::strict::brought_by;
use crate::strict_tables::StrictTables;
use case_forms::{Header, Host, OutOfMemory};
use spec_duties::{
    Built, BuiltChange, Droppable, Dropping, Event, InboxChange, Lates, Listening, Observation,
    Owed, Queueing, TouchedEndpoint, Untruth, View,
};
use spec_tcp::EndpointId;
use std::alloc::Global;
use std::marker::Model;
use tables::Table;
use verdict::Rule;

/// What duties keep: what each endpoint owes, each listener's children, since when each segment in an inbox waits, and
/// when each segment was built that isn't sent yet. The last two are for version 6: its stricter duties, and calls that
/// wait.
#[derive(Drop)]
pub struct Duties {
    owed: PerHost<Table<Owed>>,
    listening: PerHost<Table<Listening>>,
    inbox: Table<Option<u64>>,
    built: Table<Option<Built>>,
    strict: StrictTables,
    waits: AnswerTables,
}

impl Model for Duties {
    ghost use Rattle.spec_duties.specs.Watching.{Duties};
    ghost use Rattle.duties.specs.HostTables.{entries_of};

    ghost Value = { Duties };

    ghost view = { λ a. record {
      owed = entries_of a.owed;
      listening = entries_of a.listening;
      inbox = a.inbox.entries;
      built = a.built.entries;
      strict = a.strict.owed;
      unsent = a.strict.unsent;
      credits = a.strict.credits;
      waits = a.waits;
    } };
}

impl Duties {
    /// Before the first step.
    pub fn start(alloc: Global) -> Duties
        ensures { result ≡ start }
    {
        Duties {
            owed: PerHost::new(Table::new(alloc), Table::new(alloc)),
            listening: PerHost::new(Table::new(alloc), Table::new(alloc)),
            inbox: Table::new(alloc),
            built: Table::new(alloc),
            strict: StrictTables::new(alloc),
            waits: AnswerTables::new(alloc),
        }
    }

    /// What the endpoint at a place owes.
    #[inline(always)]
    pub fn owed_by(&self, host: Host, place: u32) -> Owed
        ensures { result ≡ owed_by self.now host place }
    {
        owed_in(self.owed.get(host), u64::from(place))
    }

    #[inline(always)]
    fn listening_at(&self, host: Host, place: u32) -> Listening
        ensures { result ≡ listening_at (pick self.now.listening host) place }
    {
        listening_at(self.listening.get(host), place)
    }

    /// When the listener was closed that created an endpoint, in microseconds. None: it wasn't, or there is none.
    #[inline(always)]
    pub fn listener_closed(&self, host: Host, v: &View) -> Option<u64>
        ensures { result ≡ listener_closed self.now host v.now }
    {
        match v.listener {
            Some(place) => self.listening_at(host, place).closed,
            None => None,
        }
    }

    /// The segments that came, each with its line and the moment since which it waits, in microseconds; None if it left
    /// the inbox.
    pub fn inbox(&self) -> &[(u64, Option<u64>)]
        ensures { result.now ≡ self.now.inbox }
    {
        self.inbox.entries()
    }

    /// Since when the segment of a line waits in an inbox, in microseconds. None: it doesn't.
    pub fn waiting_since(&self, line: u64) -> Option<u64>
        ensures { result ≡ waiting line self.now.inbox }
    {
        match self.inbox.get(line) {
            Some(since) => *since,
            None => None,
        }
    }

    /// When the segment of a number was built, in microseconds. None: it was sent, or there is none.
    pub fn built_since(&self, number: u32) -> Option<u64>
        ensures { result ≡ option_map (λ b. b.since) (waiting number self.now.built) }
    {
        match self.built.get(u64::from(number)) {
            Some(Some(built)) => Some(built.since),
            Some(None) | None => None,
        }
    }

    #[inline(always)]
    fn is_droppable(&self, host: Host, droppable: Droppable) -> bool
        ensures { result ≡ is_droppable self.now host droppable }
    {
        match droppable {
            Droppable::No => false,
            Droppable::Yes => true,
            Droppable::IfFull { listener, backlog } => {
                u32::from(backlog) <= self.listening_at(host, listener).children
            }
            Droppable::IfStale { place, behind } => {
                u64::from(self.strict_by(host, place).widest) < behind
            }
        }
    }

    #[inline(always)]
    fn is_needed(&self, dropping: &Dropping) -> bool
        ensures { result ≡ is_needed self.now dropping.now }
    {
        dropping.takeable && !self.is_droppable(dropping.host, dropping.droppable)
            || dropping.answerable
    }

    #[inline(always)]
    fn drops_needed(&self, dropping: &Option<Dropping>) -> bool
        ensures { result ≡ drops_needed self.now dropping.now }
    {
        match dropping {
            Some(dropping) => self.is_needed(dropping),
            None => false,
        }
    }

    #[inline(always)]
    fn leaves_late(&self, slack: u64, moment: u64, inbox_change: InboxChange) -> bool
        ensures { result ≡ leaves_late slack moment self.now inbox_change }
    {
        match inbox_change {
            InboxChange::Leaves(line) => match self.inbox.get(line) {
                Some(since) => is_late_at_once(slack, moment, *since),
                None => false,
            },
            InboxChange::Nothing | InboxChange::Enters(_) => false,
        }
    }

    #[inline(always)]
    fn built_by(&self, built_change: BuiltChange) -> Option<Built>
        ensures { result ≡ built_by self.now built_change }
    {
        match built_change {
            BuiltChange::Sends(number) => match self.built.get(u64::from(number)) {
                Some(built) => *built,
                None => None,
            },
            BuiltChange::Nothing | BuiltChange::Builds(_) => None,
        }
    }

    // The same in version 6.
    #[inline(always)]
    fn admits_strictly(
        &self,
        header: &Header,
        slack: u64,
        moment: u64,
        sends: Sends,
        seen: &Observation,
        touched: &TouchedEndpoint,
    ) -> Result<(), Rule>
        ensures { result_err result ≡ first_broken (touched_rules header.now slack moment self.now sends.counts
            sends.untrue (sent_by self.now seen.now.built_change) seen.now.sampling touched.now) }
    {
        let id = EndpointId {
            host: touched.host,
            number: touched.place,
        };
        let sent = self.sent_by(seen.built_change);
        let brought = brought_by(&sent);
        let lates = self.judged_lates(header, slack, moment, brought, id, &touched.before);
        let limited = Limited {
            sends,
            lacks: self.sends_in_excess(header, slack, &sent, touched),
            due: self.is_sample_due(seen.sampling, touched),
        };
        let owed = self.owed_by(touched.host, touched.place);
        admits_both(header, lates, limited, touched, &owed)
    }

    // Whether a step is neither late nor too much at the endpoint that it touches.
    #[inline(always)]
    fn admits_touched(
        &self,
        header: &Header,
        slack: u64,
        moment: u64,
        sends: Sends,
        seen: &Observation,
        touched: &TouchedEndpoint,
    ) -> Result<(), Rule>
        ensures { result_err result ≡ first_broken (touched_rules header.now slack moment self.now sends.counts
            sends.untrue (sent_by self.now seen.now.built_change) seen.now.sampling touched.now) }
    {
        if header.version.says_sender() {
            return self.admits_strictly(header, slack, moment, sends, seen, touched);
        }
        let due = self.is_sample_due(seen.sampling, touched);
        let limited = Limited {
            sends,
            lacks: false,
            due,
        };
        let closed = self.listener_closed(touched.host, &touched.before);
        let table = self.owed.get(touched.host);
        match table.get(u64::from(touched.place)) {
            Some(owed) => { admits_endpoint(header, slack, moment, closed, limited, touched, owed) }
            None => {
                let owed = nothing();
                admits_endpoint(header, slack, moment, closed, limited, touched, &owed)
            }
        }
    }

    /// Whether no duty refuses a step, with this slack in microseconds. `untrue`: what the line of a segment shows that
    /// may not be. The error is the first broken rule.
    #[inline(always)]
    pub fn admits(
        &self,
        header: &Header,
        slack: u64,
        moment: u64,
        untrue: Option<Untruth>,
        seen: &Observation,
    ) -> Result<(), Rule>
        ensures { result_err result ≡ first_broken (duty_rules header.now slack moment self.now untrue seen.now) }
    {
        if self.drops_needed(&seen.dropping) {
            return Err(Rule::Dropped);
        }
        if seen.discards {
            return Err(Rule::Discarded);
        }
        if self.leaves_late(slack, moment, seen.inbox_change) {
            return Err(Rule::ProcessLate);
        }
        let built = self.built_by(seen.built_change);
        if is_sent_late(slack, moment, built) {
            return Err(Rule::SendLate);
        }
        match &seen.touched {
            Some(touched) => {
                let counts = counts_now(built);
                let sends = Sends { counts, untrue };
                self.admits_touched(header, slack, moment, sends, seen, touched)
            }
            None => self.admits_answer(slack, moment, untrue, seen.call_change),
        }
    }
}

/// The rule that the line of a segment breaks by what it shows.
#[inline(always)]
pub fn rule_of(untruth: Untruth) -> Rule
    ensures { result ≡ rule_of untruth }
{
    match untruth {
        Untruth::Blocks => Rule::SackUntrue,
        Untruth::Echo => Rule::Echo,
        Untruth::Clock => Rule::ClockFalls,
    }
}

#[inline(always)]
fn listening_at(table: &Table<Listening>, place: u32) -> Listening
    ensures { result ≡ listening_at table.now.entries place }
{
    match table.get(u64::from(place)) {
        Some(listening) => *listening,
        None => Listening {
            children: 0,
            closed: None,
        },
    }
}

#[inline(always)]
fn is_sent_late(slack: u64, moment: u64, built: Option<Built>) -> bool
    ensures { result ≡ sent_late slack moment built }
{
    match built {
        Some(built) => is_late_at_once(slack, moment, Some(built.since)),
        None => false,
    }
}

#[inline(always)]
fn counts_now(built: Option<Built>) -> bool
    ensures { result ≡ counts_now built }
{
    match built {
        Some(built) => built.counts,
        None => false,
    }
}

// What a step sends: a mere acknowledgment; a segment whose line shows what may not be.
#[derive(Clone, Copy)]
struct Sends {
    counts: bool,
    untrue: Option<Untruth>,
}

// What a step does too much of, or not at all: what it sends; it sends an acknowledgment without a credit; it makes no
// measurement that is due.
#[derive(Clone, Copy)]
struct Limited {
    sends: Sends,
    lacks: bool,
    due: bool,
}

#[inline(always)]
fn admits_limits(
    header: &Header,
    touched: &TouchedEndpoint,
    limited: Limited,
    owed: &Owed,
) -> Result<(), Rule>
    ensures { result_err result ≡ first_broken
        (limit_rules header.now touched.now limited.sends.counts limited.lacks limited.sends.untrue limited.due
        owed.now) }
{
    let judges = !header.version.says_sender();
    let (event, before) = (&touched.event, &touched.before);
    if judges && is_resent(header.congestion, event, before, owed.again) {
        return Err(Rule::Resent);
    }
    if judges && is_resent_beyond(header.congestion, event, before) {
        return Err(Rule::ResentBeyond);
    }
    if is_excess(limited.sends.counts, owed.answers) || limited.lacks {
        return Err(Rule::AckExcess);
    }
    if let Some(untruth) = limited.sends.untrue {
        return Err(rule_of(untruth));
    }
    if limited.due {
        return Err(Rule::SampleDue);
    }
    Ok(())
}

// Whether a step is neither late nor too much at an endpoint of which these duties are late.
#[inline(always)]
fn admits_both(
    header: &Header,
    lates: Lates,
    limited: Limited,
    touched: &TouchedEndpoint,
    owed: &Owed,
) -> Result<(), Rule>
    ensures { result_err result
        ≡ first_broken (late_rules lates
        ++ limit_rules header.now touched.now limited.sends.counts limited.lacks limited.sends.untrue limited.due
        owed.now) }
{
    match admits_lates(lates) {
        Ok(()) => admits_limits(header, touched, limited, owed),
        Err(rule) => Err(rule),
    }
}

// Whether a step is neither late nor too much at an endpoint that owes this.
#[inline(always)]
fn admits_endpoint(
    header: &Header,
    slack: u64,
    moment: u64,
    listener_closed: Option<u64>,
    limited: Limited,
    touched: &TouchedEndpoint,
    owed: &Owed,
) -> Result<(), Rule>
    ensures { result_err result ≡ first_broken
        (late_rules (lates_of slack moment touched.now.before listener_closed owed.now)
        ++ limit_rules header.now touched.now limited.sends.counts limited.lacks limited.sends.untrue limited.due
        owed.now) }
{
    match admits_owed(slack, moment, &touched.before, listener_closed, owed) {
        Ok(()) => admits_limits(header, touched, limited, owed),
        Err(rule) => Err(rule),
    }
}

// The listener for which an endpoint counts.
#[inline(always)]
fn counts_for(v: &View) -> Option<u32>
    ensures { result ≡ counts_for v.now }
{
    if v.state.is_closed() {
        None
    } else {
        v.listener
    }
}

#[inline(always)]
fn join(table: &mut Table<Listening>, place: u32) -> Result<(), OutOfMemory>
    ensures { OnOk result (table.new.entries ≡ joined table.old.entries place) }
{
    let mut listening = listening_at(table, place);
    listening.children = one_more(listening.children);
    table.insert(u64::from(place), listening)
}

#[inline(always)]
fn leave(table: &mut Table<Listening>, place: u32) -> Result<(), OutOfMemory>
    ensures { OnOk result (table.new.entries ≡ left table.old.entries place) }
{
    let mut listening = listening_at(table, place);
    listening.children = listening.children.saturating_sub(1);
    table.insert(u64::from(place), listening)
}

#[inline(always)]
fn close(table: &mut Table<Listening>, moment: u64, place: u32) -> Result<(), OutOfMemory>
    ensures { OnOk result (table.new.entries ≡ closed_at moment table.old.entries place) }
{
    let mut listening = listening_at(table, place);
    listening.closed = Some(moment);
    table.insert(u64::from(place), listening)
}

#[inline(always)]
fn move_child(
    table: &mut Table<Listening>,
    before: Option<u32>,
    after: Option<u32>,
) -> Result<(), OutOfMemory>
    ensures { OnOk result (table.new.entries ≡ moved before after table.old.entries) }
{
    match (before, after) {
        (None, Some(place)) => join(table, place),
        (Some(place), None) => leave(table, place),
        (None, None) | (Some(_), Some(_)) => Ok(()),
    }
}

// Whether a segment that is built now is a mere acknowledgment.
#[inline(always)]
fn builds_mere_ack(after: &View, touched: &Option<TouchedEndpoint>) -> bool
    ensures { result ≡ option_map_or (builds_mere_ack after.now) touched.now false }
{
    let Some(touched) = touched else {
        return false;
    };
    match &touched.event {
        Event::Builds(plan) => is_mere_ack(plan, &touched.before, after),
        Event::Opens
        | Event::Calls { .. }
        | Event::Processes { .. }
        | Event::Drops { .. }
        | Event::Sends(_)
        | Event::Expires(_)
        | Event::Recovers(_) => false,
    }
}

#[inline(always)]
fn note_inbox_change(
    inbox: &mut Table<Option<u64>>,
    moment: u64,
    inbox_change: InboxChange,
) -> Result<(), OutOfMemory>
    ensures { OnOk result (inbox.new.entries ≡ inbox_after moment inbox_change inbox.old.entries) }
{
    match inbox_change {
        InboxChange::Nothing => Ok(()),
        InboxChange::Enters(line) => inbox.insert(line, Some(moment)),
        InboxChange::Leaves(line) => inbox.insert(line, None),
    }
}

#[inline(always)]
fn note_built_change(
    built: &mut Table<Option<Built>>,
    moment: u64,
    seen: &Observation,
    after: &View,
) -> Result<(), OutOfMemory>
    ensures { OnOk result
        (built.new.entries ≡ built_after after.now moment seen.now.touched seen.now.built_change built.old.entries) }
{
    match seen.built_change {
        BuiltChange::Nothing => Ok(()),
        BuiltChange::Builds(number) => {
            let counts = builds_mere_ack(after, &seen.touched);
            let it = Built {
                since: moment,
                counts,
            };
            built.insert(u64::from(number), Some(it))
        }
        BuiltChange::Sends(number) => built.insert(u64::from(number), None),
    }
}

#[inline(always)]
fn owed_in(table: &Table<Owed>, number: u64) -> Owed
    ensures { result ≡ unwrap_or (lookup (nat_eq number) table.now.entries) nothing }
{
    match table.get(number) {
        Some(owed) => *owed,
        None => nothing(),
    }
}

// What the endpoint owes that a step touches. If it has an entry and isn't CLOSED, as most do, no value of the entry is
// copied before it is needed.
#[inline(always)]
fn note_in(
    table: &mut Table<Owed>,
    moment: u64,
    listener_closed: Option<u64>,
    counts: bool,
    touched: &TouchedEndpoint,
    after: &View,
) -> Result<(), OutOfMemory>
    ensures { OnOk result (table.new.entries ≡ insert_entry nat_eq table.old.entries touched.now.place
        (owed_after touched.now.event touched.now.before after.now moment listener_closed counts
        (unwrap_or (lookup (nat_eq touched.now.place) table.old.entries) nothing))) }
{
    let number = u64::from(touched.place);
    if !after.state.is_closed() {
        if let Some(owed) = table.get(number) {
            let next = owed_open(touched, after, moment, listener_closed, counts, owed);
            return table.insert(number, next);
        }
    }
    let owed = owed_in(table, number);
    let next = owed_after(touched, after, moment, listener_closed, counts, &owed);
    table.insert(number, next)
}

impl Duties {
    // What the endpoint owes that the step touches.
    #[inline(always)]
    fn note_owed(
        &mut self,
        moment: u64,
        counts: bool,
        touched: &TouchedEndpoint,
        after: &View,
    ) -> Result<(), OutOfMemory>
        ensures { OnOk result (self.new
            ≡ record self.old { owed = owed_table_after after.now moment counts self.old touched.now }) }
    {
        let closed = self.listener_closed(touched.host, &touched.before);
        note_in(
            self.owed.get_mut(touched.host),
            moment,
            closed,
            counts,
            touched,
            after,
        )
    }

    // The listener of that endpoint.
    #[inline(always)]
    fn note_child(&mut self, touched: &TouchedEndpoint, after: &View) -> Result<(), OutOfMemory>
        ensures { OnOk result (self.new
            ≡ record self.old { listening = moved_by after.now self.old.listening touched.now }) }
    {
        let (was, is) = (counts_for(&touched.before), counts_for(after));
        move_child(self.listening.get_mut(touched.host), was, is)
    }

    #[inline(always)]
    fn note_queueing(&mut self, moment: u64, queueing: Queueing) -> Result<(), OutOfMemory>
        ensures { OnOk result (self.new
            ≡ record self.old { listening = queued moment queueing self.old.listening }) }
    {
        match queueing {
            Queueing::Nothing => Ok(()),
            Queueing::Accepts { host, listener } => {
                leave(self.listening.get_mut(host), listener)
            }
            Queueing::Closes { host, listener } => {
                close(self.listening.get_mut(host), moment, listener)
            }
        }
    }

    // Notes a step, but not for the stricter duties.
    #[inline(always)]
    fn note_plain(
        &mut self,
        moment: u64,
        seen: &Observation,
        after: &View,
    ) -> Result<(), OutOfMemory>
        ensures { (slack : ℕ) → OnOk result (self.new ≡ duties_after false slack after.now moment seen.now self.old) }
    {
        let counts = counts_now(self.built_by(seen.built_change));
        if let Some(touched) = &seen.touched {
            self.note_owed(moment, counts, touched, after)?;
            self.note_child(touched, after)?;
        }
        self.note_queueing(moment, seen.queueing)?;
        note_inbox_change(&mut self.inbox, moment, seen.inbox_change)?;
        note_built_change(&mut self.built, moment, seen, after)
    }

    /// Notes a step, if the endpoint that it touched is then seen like this; `strict`: for the stricter duties, too,
    /// with this slack in microseconds. If memory runs out, the duties are of no use any more.
    #[inline(always)]
    pub fn note(
        &mut self,
        strict: bool,
        slack: u64,
        moment: u64,
        seen: &Observation,
        after: &View,
    ) -> Result<(), OutOfMemory>
        ensures { OnOk result (self.new ≡ duties_after strict slack after.now moment seen.now self.old) }
    {
        self.note_if_strict(strict, slack, moment, seen, after)?;
        self.note_plain(moment, seen, after)
    }
}
