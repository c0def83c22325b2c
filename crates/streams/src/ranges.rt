//! A set of positions, kept as ranges that neither meet nor touch.
//!
//! Each operation is logarithmic in the number of ranges, except for those that it takes out: an earlier call put each
//! of them in. A range is found by the position after it, so its first position can rise without a new key, and nothing
//! has to be allocated where the lowest positions are forgotten. `specs/Ranges` defines what sets of positions need
//! beyond the words of finite sets; `specs/RangeEntries` says how one is kept.

ghost use Rattle.std.specs.Prelude.{◌≡◌, ◌≤◌, ◌<◌, ◌+◌, ◌^◌, false, true, IfOk, IfSome, OnOk, OnErr};
ghost use Rattle.std.specs.FinSet as set;
ghost use Rattle.streams.specs.Ranges.{covers, first_held, meets, span};
ghost use Rattle.streams.specs.RangeEntries.{begun_at, first_after, first_from, joined_end, joined_start, with_lower};

use super::by_end::drop_between;
use std::alloc::{AllocError, Global};
use std::collections::BTreeMap;
use std::marker::Model;
use std::ops::Bound;

/// A set of positions.
#[derive(Drop)]
pub struct Ranges {
    /// For each range the position after it, with its first position.
    starts: BTreeMap<u64, u64>,
}

impl Model for Ranges {
    ghost use Rattle.std.specs.Ordering.{nat_cmp};
    ghost use Rattle.std.specs.Coded.{coded_ℕ};
    ghost use Rattle.std.specs.FinSet as set;
    ghost use Rattle.streams.specs.RangeEntries.{AreApart, held};

    ghost Value = { set.FinSet nat_cmp };

    ghost coded = { set.code coded_ℕ };

    ghost view = { λ a. held a.starts.entries };

    ghost invariant = { λ a. AreApart 0 a.starts.entries };
}

impl Ranges {
    /// Holds no position.
    pub fn new(alloc: Global) -> Self
        ensures { result ≡ set.empty }
    {
        Ranges {
            starts: BTreeMap::new(alloc),
        }
    }

    /// Holds the positions from `from` to before `upto`, and no others. The error means that memory ran out.
    pub fn spanning(alloc: Global, from: u64, upto: u64) -> Result<Self, AllocError>
        ensures { IfOk result (λ ranges. ranges ≡ span from upto) }
    {
        let mut ranges = Ranges::new(alloc);
        ranges.add(from, upto)?;
        Ok(ranges)
    }

    /// Adds the positions from `from` to before `upto`. The error means that memory ran out; nothing changes then.
    pub fn add(&mut self, from: u64, upto: u64) -> Result<(), AllocError>
        ensures ok { OnOk result (self.new ≡ set.union self.old (span from upto)) }
        ensures err { OnErr result (self.new ≡ self.old) }
    {
        if upto <= from {
            return Ok(());
        }
        let start = joined_start(&self.starts, from);
        let end = joined_end(&self.starts, upto);
        self.starts.insert(end, start)?;
        drop_between(&mut self.starts, from, end);
        Ok(())
    }

    /// Removes the positions from `from` to before `upto`. The error means that memory ran out; nothing changes then.
    pub fn remove(&mut self, from: u64, upto: u64) -> Result<(), AllocError>
        ensures ok { OnOk result (self.new ≡ set.difference self.old (span from upto)) }
        ensures err { OnErr result (self.new ≡ self.old) }
    {
        if upto <= from {
            return Ok(());
        }
        keep_lower(&mut self.starts, from)?;
        drop_between(&mut self.starts, from + 1, upto);
        self.starts.remove(&upto);
        begin_at(&mut self.starts, upto);
        Ok(())
    }

    /// Whether a position is in the set.
    pub fn holds(&self, position: u64) -> bool
        ensures { result ≡ set.contains self.now position }
    {
        match ending_after(&self.starts, position) {
            Some((_, start)) => start <= position,
            None => false,
        }
    }

    /// Whether one of the positions from `from` to before `upto` is in the set.
    pub fn meets(&self, from: u64, upto: u64) -> bool
        ensures { result ≡ meets self.now from upto }
    {
        match ending_after(&self.starts, from) {
            Some((_, start)) => from < upto && start < upto,
            None => false,
        }
    }

    /// Whether each of the positions from `from` to before `upto` is in the set.
    pub fn covers(&self, from: u64, upto: u64) -> bool
        ensures { result ≡ covers self.now from upto }
    {
        if upto <= from {
            return true;
        }
        match ending_after(&self.starts, from) {
            Some((end, start)) => start <= from && upto <= end,
            None => false,
        }
    }

    /// The first position from this one on that is in the set.
    pub fn next_held(&self, position: u64) -> Option<u64>
        ensures first { result ≡ first_held self.now position }
        ensures small { IfSome result (λ position. position + 1 < 2 ^ 64) }
    {
        match ending_after(&self.starts, position) {
            Some((_, start)) => Some(start.max(position)),
            None => None,
        }
    }

    /// The first position from this one on that isn't in the set.
    pub fn next_missing(&self, position: u64) -> u64
        ensures from { position ≤ result }
        ensures missing { set.contains self.now result ≡ false }
        ensures held { covers self.now position result ≡ true }
    {
        match ending_after(&self.starts, position) {
            Some((end, start)) => { if start <= position { end } else { position } }
            None => position,
        }
    }

    /// Removes the positions below this one, for which no memory is needed.
    pub fn forget_below(&mut self, position: u64)
        ensures { self.new ≡ set.difference self.old (span 0 position) }
    {
        drop_between(&mut self.starts, 0, position);
        self.starts.remove(&position);
        begin_at(&mut self.starts, position);
    }

    /// Removes all positions.
    pub fn clear(&mut self)
        ensures { self.new ≡ set.empty }
    {
        self.starts.clear();
    }
}

// The first range that ends at this position or after it: where it ends and begins.
fn ending_from(starts: &BTreeMap<u64, u64>, position: u64) -> Option<(u64, u64)>
    ensures { result ≡ first_from position starts.now.entries }
{
    match starts.range(position..).next() {
        Some((end, start)) => Some((*end, *start)),
        None => None,
    }
}

// The first range that ends after this position: where it ends and begins.
fn ending_after(starts: &BTreeMap<u64, u64>, position: u64) -> Option<(u64, u64)>
    ensures { result ≡ first_after position starts.now.entries }
{
    match starts
        .range((Bound::Excluded(position), Bound::Unbounded))
        .next()
    {
        Some((end, start)) => Some((*end, *start)),
        None => None,
    }
}

// Where a range begins that is added from this position on: where one begins that holds the position, or touches it.
fn joined_start(starts: &BTreeMap<u64, u64>, from: u64) -> u64
    ensures { result ≡ joined_start from starts.now.entries }
{
    match ending_from(starts, from) {
        Some((_, start)) => start.min(from),
        None => from,
    }
}

// Where a range ends that is added to before this position: where one ends that holds the position, or touches it.
fn joined_end(starts: &BTreeMap<u64, u64>, upto: u64) -> u64
    ensures { result ≡ joined_end upto starts.now.entries }
{
    match ending_from(starts, upto) {
        Some((end, start)) if start <= upto => end,
        _ => upto,
    }
}

// Adds the part below a position of the range that holds both the position and the one before it.
fn keep_lower(starts: &mut BTreeMap<u64, u64>, from: u64) -> Result<(), AllocError>
    ensures ok { OnOk result (starts.new.entries ≡ with_lower from starts.old.entries) }
    ensures err { OnErr result (starts.new.entries ≡ starts.old.entries) }
{
    if let Some((_, start)) = ending_after(starts, from) {
        if start < from {
            starts.insert(from, start)?;
        }
    }
    Ok(())
}

// The first range that ends after this position loses what lies below it.
fn begin_at(starts: &mut BTreeMap<u64, u64>, position: u64)
    ensures { starts.new.entries ≡ begun_at position starts.old.entries }
{
    if let Some((end, start)) = ending_after(starts, position) {
        if let Some(first) = starts.get_mut(&end) {
            *first = start.max(position);
        }
    }
}
