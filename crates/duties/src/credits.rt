//! Credits: which acknowledgments are sent for segments that came.
//! `lib.rt` says why functions here are inlined.

ghost use Rattle.std.specs.List.Sorted.{IsStrictlySortedBy};
ghost use Rattle.std.specs.Map.{keys_of};
ghost use Rattle.std.specs.Option.{option_map_or};
ghost use Rattle.std.specs.Ordering.{nat_cmp};
ghost use Rattle.std.specs.Prelude.{◌≡◌, suc, [], IfOk, OnOk};
ghost use Rattle.spec_duties.specs.Credits.{credit_of, earliest_credit, earned, has_credit, is_bare_ack};
ghost use Rattle.spec_duties.specs.Credits.{is_below_oldest, is_free, is_keep_alive, is_kept_alive, kept_alive_after};
ghost use Rattle.spec_duties.specs.Credits.{needs_credit, spent};
ghost use Rattle.duties.specs.CreditCounts.{found};

use crate::acknowledge::LONGEST_DELAY;
use crate::probe::is_closed_with_work;
use case_forms::OutOfMemory;
use spec_duties::{Event, View};
use std::alloc::{AllocError, Global};
use std::collections::BTreeMap;
use std::marker::Model;

/// The credits of a host's endpoints. Each operation is logarithmic in their number.
#[derive(Drop)]
pub(crate) struct Credits {
    /// How many more there are of each credit.
    more: BTreeMap<u128, u64>,
}

impl Model for Credits {
    ghost use Rattle.std.specs.Prelude.{List, ℕ};
    ghost use Rattle.duties.specs.CreditCounts.{listed};

    ghost Value = { List ℕ };

    ghost view = { λ a. listed a.more.entries };
}

impl Credits {
    /// None.
    pub(crate) fn new(alloc: Global) -> Credits
        ensures { result ≡ [] }
    {
        Credits {
            more: BTreeMap::new(alloc),
        }
    }

    /// Whether the endpoint at a place has a credit from this moment on.
    pub(crate) fn has(&self, place: u32, moment: u64) -> bool
        ensures { result ≡ has_credit place moment self.now }
    {
        oldest(&self.more, place, moment).is_some()
    }

    /// The endpoint at a place earns a credit. If memory runs out, nothing of it is of use any more.
    pub(crate) fn earn(&mut self, place: u32, moment: u64) -> Result<(), OutOfMemory>
        ensures { OnOk result (self.new ≡ earned (credit_of place moment) self.old) }
    {
        let credit = credit_of(place, moment);
        let more = one_more(self.more.get(&credit).copied())?;
        self.more.insert(credit, more)?;
        Ok(())
    }

    /// The oldest credit that the endpoint at a place earned from this moment on is taken, if there is one. If memory
    /// runs out, nothing of it is of use any more.
    pub(crate) fn spend(&mut self, place: u32, moment: u64) -> Result<(), OutOfMemory>
        ensures { OnOk result (self.new ≡ spent place moment self.old) }
    {
        match oldest(&self.more, place, moment) {
            Some((credit, 0)) => {
                self.more.remove(&credit);
                Ok(())
            }
            Some((credit, more)) => {
                self.more.insert(credit, more - 1)?;
                Ok(())
            }
            None => Ok(()),
        }
    }
}

// How many more there are of a credit after one was earned. A count that doesn't fit is refused, as if memory ran out;
// a case has too few steps for that.
fn one_more(more: Option<u64>) -> Result<u64, OutOfMemory>
    ensures { IfOk result (λ n. n ≡ option_map_or (λ m. suc m) more 0) }
{
    match more {
        Some(more) => more.checked_add(1).ok_or(AllocError),
        None => Ok(0),
    }
}

fn credit_of(place: u32, moment: u64) -> u128
    ensures { result ≡ credit_of place moment }
{
    place as u128 * 18_446_744_073_709_551_616 + moment as u128
}

// The oldest credit that the endpoint at a place earned from this moment on, and how many more there are of it.
fn oldest(more: &BTreeMap<u128, u64>, place: u32, moment: u64) -> Option<(u128, u64)>
    ensures found { result ≡ found place moment more.now.entries }
    ensures ordered { IsStrictlySortedBy nat_cmp (keys_of more.now.entries) }
{
    let from = credit_of(place, moment);
    let end = (place as u128 + 1) * 18_446_744_073_709_551_616;
    match more.range(from..end).next() {
        Some((credit, more)) => Some((*credit, *more)),
        None => None,
    }
}

/// The moment of the oldest credit that serves for a segment which was built at this one.
#[inline(always)]
pub fn earliest_credit(slack: u64, built: u64) -> u64
    ensures { result ≡ earliest_credit slack built }
{
    built.saturating_sub(LONGEST_DELAY).saturating_sub(slack)
}

// Whether a segment is built that does nothing but acknowledge.
#[inline(always)]
fn is_bare_ack(event: &Event, before: &View, after: &View) -> bool
    ensures { result ≡ is_bare_ack event.now before.now after.now }
{
    match event {
        Event::Builds(plan) => {
            plan.flags.ack
                && !plan.flags.syn
                && !plan.flags.fin
                && !plan.flags.rst
                && plan.len == 0
                && after.rcv_adv == before.rcv_adv
        }
        Event::Opens
        | Event::Calls { .. }
        | Event::Processes { .. }
        | Event::Drops { .. }
        | Event::Sends(_)
        | Event::Expires(_)
        | Event::Recovers(_) => false,
    }
}

// Whether it is built just below the oldest unacknowledged position.
#[inline(always)]
fn is_below_oldest(event: &Event, before: &View) -> bool
    ensures { result ≡ is_below_oldest event.now before.now }
{
    match event {
        Event::Builds(plan) => plan.pos as u128 + 1 == before.snd_una as u128,
        Event::Opens
        | Event::Calls { .. }
        | Event::Processes { .. }
        | Event::Drops { .. }
        | Event::Sends(_)
        | Event::Expires(_)
        | Event::Recovers(_) => false,
    }
}

/// Whether a keep-alive is built.
#[inline(always)]
pub(crate) fn is_keep_alive(event: &Event, before: &View, after: &View) -> bool
    ensures { result ≡ is_keep_alive event.now before.now after.now }
{
    is_bare_ack(event, before, after) && is_below_oldest(event, before)
}

// Whether a keep-alive was sent less than half a second before.
#[inline(always)]
fn is_kept_alive(moment: u64, kept_alive: Option<u64>) -> bool
    ensures { result ≡ is_kept_alive moment kept_alive }
{
    match kept_alive {
        Some(m) => (moment as u128) < m as u128 + LONGEST_DELAY as u128,
        None => false,
    }
}

#[inline(always)]
fn is_free(event: &Event, before: &View, moment: u64, kept_alive: Option<u64>) -> bool
    ensures { result ≡ is_free event.now before.now moment kept_alive }
{
    is_below_oldest(event, before)
        && (is_closed_with_work(before) || !is_kept_alive(moment, kept_alive))
}

/// Whether a segment is built that needs a credit when it is sent.
#[inline(always)]
pub(crate) fn needs_credit(
    event: &Event,
    before: &View,
    after: &View,
    moment: u64,
    kept_alive: Option<u64>,
) -> bool
    ensures { result ≡ needs_credit event.now before.now after.now moment kept_alive }
{
    is_bare_ack(event, before, after) && !is_free(event, before, moment, kept_alive)
}

/// When the last keep-alive was sent, after a step that sends one or doesn't.
#[inline(always)]
pub(crate) fn kept_alive_after(
    keeps_alive: bool,
    moment: u64,
    kept_alive: Option<u64>,
) -> Option<u64>
    ensures { result ≡ kept_alive_after keeps_alive moment kept_alive }
{
    if keeps_alive {
        Some(moment)
    } else {
        kept_alive
    }
}
