//! Hints at where the entries of a table are.
//!
//! The last bits of a number select one of the slots. A slot is empty if no entry's number selects it: then no number
//! with this slot has an entry. Otherwise it holds the place of the last such entry added. The lookup compares the
//! number, since other numbers may have the same slot. If a text chooses its numbers that way, a lookup costs one extra
//! probe. At most half of the slots are filled, unless memory was refused. If more slots are needed, their count at
//! least doubles and all are rewritten.
//!
//! A table whose numbers are assigned one after the other has no hints: the number gives the entry's place.

ghost use Rattle.std.specs.Prelude.{◌≡◌, ◌≢◌, ◌<◌, ℕ, IsTrue, length, slice_get};
ghost use Rattle.tables.specs.Hints.{no_place, slot, AreHinted, AreIn, IsHinted};

/// The content of an empty slot.
pub(crate) const NO_PLACE: u32 = u32::MAX;

// The smallest number of slots allocated.
const FEWEST: usize = 16;

/// The content of a number's slot, if there are slots.
#[inline(always)]
pub(crate) fn hint_of(hints: &[u32], number: u64) -> Option<u32>
    ensures { result ≡ slice_get hints.now (slot (length hints.now) number) }
{
    let count = hints.len();
    if count == 0 {
        return None;
    }
    Some(hints[slot_of(count, number)])
}

/// Adds a hint for a new number, whose entry is added last. If memory for more slots is refused, all hints are dropped.
/// `all_rose` says that the rising numbers are all numbers; the new one may be among them.
#[inline(always)]
pub(crate) fn add_hint<V>(
    hints: &mut Vec<u32>,
    entries: &[(u64, V)],
    risen: &[(u64, usize)],
    all_rose: bool,
    number: u64,
)
    requires hinted { AreHinted hints.old.items entries.now }
    requires rose { IsTrue all_rose → AreIn risen.now entries.now }
    ensures same { AreHinted hints.new.items entries.now }
    ensures new { IsHinted hints.new.items number }
{
    if hints.is_empty() && is_in_turn(entries, number) {
        return;
    }
    widen(hints, entries, risen, all_rose);
    put_hint(hints.as_mut_slice(), number, entries.len());
}

// Whether a new number is as far above the first number as its entry will be after the first entry.
#[inline(always)]
fn is_in_turn<V>(entries: &[(u64, V)], number: u64) -> bool {
    match entries.first() {
        Some((first, _)) => first.wrapping_add(entries.len() as u64) == number,
        None => true,
    }
}

// At most half of the slots will be filled after one more entry, if memory isn't refused. If all numbers rose, their
// list is read, which is shorter than the entries: a number's place is the same in both.
#[inline(always)]
fn widen<V>(hints: &mut Vec<u32>, entries: &[(u64, V)], risen: &[(u64, usize)], all_rose: bool)
    requires hinted { AreHinted hints.old.items entries.now }
    requires rose { IsTrue all_rose → AreIn risen.now entries.now }
    ensures { AreHinted hints.new.items entries.now }
{
    if hints.len() / 2 > entries.len() {
        return;
    }
    if all_rose {
        hint_anew(hints, risen);
    } else {
        hint_anew(hints, entries);
    }
}

// Allocates and writes at least twice as many slots as there will be entries. If memory is refused, there are none.
#[inline(never)]
fn hint_anew<V>(hints: &mut Vec<u32>, entries: &[(u64, V)])
    ensures { AreHinted hints.new.items entries.now }
{
    hints.clear();
    let least = entries
        .len()
        .saturating_mul(2)
        .saturating_add(2)
        .max(FEWEST);
    let Some(count) = least.checked_next_power_of_two() else {
        return;
    };
    if hints.resize(count, NO_PLACE).is_err() {
        return;
    }
    put_all(hints.as_mut_slice(), entries);
}

// Adds hints for all entries; a later one replaces an earlier one in the same slot.
fn put_all<V>(hints: &mut [u32], entries: &[(u64, V)])
    ensures { AreHinted hints.new entries.now }
{
    for (place, entry) in entries.iter().enumerate() {
        put_hint(hints, entry.0, place);
    }
}

// Makes the slot of a number, if it exists, lead to this place. No slot becomes empty.
#[inline(always)]
fn put_hint(hints: &mut [u32], number: u64, place: usize)
    ensures new { IsHinted hints.new number }
    ensures same { (n : ℕ) → IsHinted hints.old n → IsHinted hints.new n }
{
    let count = hints.len();
    if count != 0 {
        let slot = slot_of(count, number);
        hints[slot] = hint_at(place);
    }
}

// The hint at a place. If a place is too large for a hint, its hint is wrong.
fn hint_at(place: usize) -> u32
    ensures { result ≢ no_place }
{
    (place & 0x7fff_ffff) as u32
}

// The slot of a number, out of `count` slots.
#[inline(always)]
fn slot_of(count: usize, number: u64) -> usize
    requires { 0 < count }
    ensures value { result ≡ slot count number }
    ensures bound { result < count }
{
    number as usize & (count - 1)
}
