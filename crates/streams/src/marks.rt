//! Which positions were retransmitted.
//!
//! A retransmitted segment marks one range, however long it is; with a mark for each position, its cost would grow with
//! its length. Ranges may overlap. They are found in order, and a range below every position that may still be looked
//! up is discarded. Each operation is logarithmic in the number of ranges.

ghost use Rattle.std.specs.List.{list_any};
ghost use Rattle.std.specs.Prelude.{◌≡◌, ℕ, ◌<◌, ◌≤◌, ◌∷◌, ◌&&◌, ◌||◌, nat_le, nat_lt, true, false, IfNone, IfSome};
ghost use Rattle.std.specs.Prelude.{OnOk, OnErr};
ghost use Rattle.streams.specs.Marks.{AreRanges, IsBelow, in_ranges, is_marked};

use std::alloc::{AllocError, Global};
use std::collections::BTreeMap;

/// The positions that were retransmitted.
#[derive(Drop)]
pub(crate) struct Marks {
    /// Where the ranges begin, with the position after each range. None begins below `floor`.
    ranges: BTreeMap<u64, u64>,
    /// All positions from here on and below `reached` were retransmitted, too.
    floor: u64,
    reached: u64,
}

impl Marks {
    /// No position was retransmitted.
    pub(crate) fn new(alloc: Global) -> Marks
        ensures none { (position : ℕ) → is_marked result position ≡ false }
        ensures below { IsBelow 0 result }
    {
        Marks {
            ranges: BTreeMap::new(alloc),
            floor: 0,
            reached: 0,
        }
    }

    /// Marks the positions from `from` to before `upto` as retransmitted. If memory runs out, none of them is marked.
    pub(crate) fn add(&mut self, from: u64, upto: u64) -> Result<(), AllocError>
        ensures marked { OnOk result ((position : ℕ) → is_marked self.new position
            ≡ (is_marked self.old position || (nat_le from position && nat_lt position upto))) }
        ensures err { OnErr result ((position : ℕ) → is_marked self.new position ≡ is_marked self.old position) }
        ensures below { (end : ℕ) → upto ≤ end → IsBelow end self.old → IsBelow end self.new }
    {
        self.lower(from)?;
        add_range(&mut self.ranges, from, upto)
    }

    // A range may then begin at this position. The set of marked positions doesn't change.
    fn lower(&mut self, from: u64) -> Result<(), AllocError>
        ensures low { OnOk result (self.new.floor ≤ from) }
        ensures same { (position : ℕ) → is_marked self.new position ≡ is_marked self.old position }
        ensures below { (end : ℕ) → IsBelow end self.old → IsBelow end self.new }
    {
        if self.floor <= from {
            return Ok(());
        }
        add_range(&mut self.ranges, self.floor, self.reached)?;
        self.floor = 0;
        self.reached = 0;
        Ok(())
    }

    /// Whether any position from `from` to before `upto` was retransmitted.
    pub(crate) fn meets(&self, from: u64, upto: u64) -> bool
        requires { from < upto }
        ensures found { result ≡ true → (end : ℕ) → IsBelow end self.now → (position : ℕ) × (from ≤ position)
            × (position < upto) ×
            (position < end) × (is_marked self.now position ≡ true) }
        ensures none { result ≡ false → (position : ℕ) → from ≤ position → position < upto
            → is_marked self.now position ≡ false }
    {
        from.max(self.floor) < upto.min(self.reached) || meet(&self.ranges, from, upto)
    }

    /// Forgets that positions below this one were retransmitted.
    pub(crate) fn forget_below(&mut self, snd_una: u64)
        ensures { (end : ℕ) → IsBelow end self.old → IsBelow end self.new ×
            ((position : ℕ) → is_marked self.new position ≡ (nat_le snd_una position && is_marked self.old position)) }
    {
        if snd_una <= self.floor {
            return;
        }
        self.reached = drop_below(&mut self.ranges, snd_una, self.reached);
        self.floor = snd_una;
    }
}

// Adds a range, if it is not empty.
fn add_range(ranges: &mut BTreeMap<u64, u64>, from: u64, upto: u64) -> Result<(), AllocError>
    ensures added { OnOk result ((position : ℕ) → in_ranges ranges.new.entries position
        ≡ (in_ranges ranges.old.entries position || (nat_le from position && nat_lt position upto))) }
    ensures err { OnErr result (ranges.new.entries ≡ ranges.old.entries) }
    ensures below { (floor end : ℕ) → floor ≤ from → upto ≤ end → AreRanges floor end ranges.old.entries
        → AreRanges floor end ranges.new.entries }
{
    if upto <= from {
        return Ok(());
    }
    let old = ranges.get(&from).copied().unwrap_or(0);
    ranges.insert(from, upto.max(old))?;
    Ok(())
}

// Whether one of the ranges has a position from `from` to before `upto`.
fn meet(ranges: &BTreeMap<u64, u64>, from: u64, upto: u64) -> bool
    ensures { result ≡ list_any (λ e. nat_lt e.0 upto && nat_lt from e.1) ranges.now.entries }
{
    for (_, end) in ranges.range(..upto) {
        if from < *end {
            return true;
        }
    }
    false
}

// Discards the ranges that begin below a position. Answers how far they reach, and at least `reached`.
fn drop_below(ranges: &mut BTreeMap<u64, u64>, snd_una: u64, reached: u64) -> u64
    ensures same { (position : ℕ) → snd_una ≤ position
        → (in_ranges ranges.new.entries position || nat_lt position result)
        ≡ (in_ranges ranges.old.entries position || nat_lt position reached) }
    ensures below { (floor end : ℕ) → AreRanges floor end ranges.old.entries → reached ≤ end
        → AreRanges snd_una end ranges.new.entries × (result ≤ end) }
{
    let mut far = reached;
    while let Some(end) = pop_below(ranges, snd_una) {
        far = far.max(end);
    }
    far
}

// Discards the first range, if it begins below a position. Answers its end.
fn pop_below(ranges: &mut BTreeMap<u64, u64>, snd_una: u64) -> Option<u64>
    ensures popped { IfSome result (λ end. (start : ℕ) × (ranges.old.entries ≡ (start, end) ∷ ranges.new.entries)
        × (start < snd_una)) }
    ensures none { IfNone result ((floor end : ℕ) → AreRanges floor end ranges.old.entries
        → AreRanges snd_una end ranges.old.entries) }
    ensures same { IfNone result (ranges.new.entries ≡ ranges.old.entries) }
{
    let (start, _) = ranges.first_key_value()?;
    if snd_una <= *start {
        return None;
    }
    match ranges.pop_first() {
        Some((_, end)) => Some(end),
        None => None,
    }
}
